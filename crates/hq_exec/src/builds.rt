//! The right rows of the Joins of a slice.
ghost use Rattle.std.specs.Prelude.{◌≡◌, ◌||◌, ℕ, List, [], Some, true, false, IsTrue, IsErrOf, IfOk, OnOk};
ghost use Rattle.std.specs.List.{list_all};
ghost use Rattle.hq_value.specs.Causes.{Rose, IsSteady};
ghost use Rattle.hq_value.specs.declared.kind.Kind.{Kind as Sort};
ghost use Rattle.hq_algebra.specs.Operators.{op_kinds};
ghost use Rattle.hq_algebra.specs.Plans.{operators, filters_without_arith};
ghost use Rattle.hq_exec.specs.Builds.{BuildsFit, lists_of};
ghost use Rattle.hq_exec.specs.Ends.{IfBadBlock, IsBadIn};
ghost use Rattle.hq_exec.specs.Outs.{Accepts};
ghost use Rattle.hq_exec.specs.Ran.{Built, Flowed, Listed};
ghost use Rattle.hq_exec.specs.Slices.{HasInputs, HasSeals, HasOwn};

use crate::end::Ending;
use crate::held::Held;
use crate::inputs::{Inputs, inputs_of};
use crate::out::{RowList, RowOut};
use crate::run::{either, run};
use hq_algebra::Op;
use hq_store::Store;
use hq_value::Row;
use std::alloc::Global;

/// Puts the rows of an operator, and tells whether an evaluation faulted. The call is nested at most as deep as the
/// operator.
pub fn flow<S: Store, O: RowOut>(
    alloc: Global,
    store: &mut S,
    held: &Held<S::File, S::Seal>,
    op: &Op,
    out: &mut O,
) -> Result<bool, Ending>
    requires inputs { HasInputs held.now op.now }
    requires seals { IsTrue S.Seal.tells → HasSeals held.now op.now }
    requires own { IsTrue S.File.tells → HasOwn held.now op.now }
    requires accepts { (kinds : List Sort) × (op_kinds op.now ≡ Some kinds) × Accepts (O.state out.old).kinds kinds }
    requires fine { list_all filters_without_arith (operators op.now) ≡ true }
    ensures flowed { IfOk result (λ fault. Flowed S.faults S.given S.sound (IsTrue S.Seal.tells × IsTrue S.File.tells) held.now op.now
        fault store.old store.new (O.state out.old) (O.state out.new)) }
    ensures bad { IfBadBlock result (IsBadIn op.now held.now.buckets) }
    ensures never_bad { IsTrue S.Seal.tells → IsTrue S.File.tells → IfBadBlock result (λ _ _ _. ⊥) }

    ensures cause { IsErrOf result Ending.Store → Rose (S.faults store.old) (S.faults store.new) }
    ensures store { IsSteady S.faults S.sound store.old store.new }
    ensures kinds { (O.state out.new).kinds ≡ (O.state out.old).kinds }
{
    let mut builds = Vec::new(alloc);
    let failed = add_builds(alloc, store, held, op, &mut builds)?;
    run(alloc, store, held, op, &builds, failed, out)
}

// Adds the right rows of the Joins, the root's first, and tells whether an evaluation faulted.
fn add_builds<S: Store>(
    alloc: Global,
    store: &mut S,
    held: &Held<S::File, S::Seal>,
    op: &Op,
    builds: &mut Vec<Vec<Row>>,
) -> Result<bool, Ending>
    requires inputs { HasInputs held.now op.now }
    requires seals { IsTrue S.Seal.tells → HasSeals held.now op.now }
    requires own { IsTrue S.File.tells → HasOwn held.now op.now }
    requires typed { (kinds : List Sort) × (op_kinds op.now ≡ Some kinds) }
    requires fine { list_all filters_without_arith (operators op.now) ≡ true }
    ensures built { IfOk result (λ fault. Built S.faults S.given S.sound (IsTrue S.Seal.tells × IsTrue S.File.tells) held.now op.now
        fault store.old store.new builds.old.items builds.new.items) }
    ensures bad { IfBadBlock result (IsBadIn op.now held.now.buckets) }
    ensures never_bad { IsTrue S.Seal.tells → IsTrue S.File.tells → IfBadBlock result (λ _ _ _. ⊥) }

    ensures cause { IsErrOf result Ending.Store → Rose (S.faults store.old) (S.faults store.new) }
    ensures store { IsSteady S.faults S.sound store.old store.new }
{
    match inputs_of(op) {
        Inputs::Alone => Ok(false),
        Inputs::One(input, _) => add_builds(alloc, store, held, input, builds),
        Inputs::Two(left, right) => {
            let mut inner = Vec::new(alloc);
            let failed = add_builds(alloc, store, held, right, &mut inner)?;
            let (rows, fault) = listed(alloc, store, held, right, &inner, failed)?;
            builds.push(rows)?;
            let more = add_builds(alloc, store, held, left, builds)?;
            Ok(either(fault, more))
        }
    }
}

// The rows of an operator, of whose Joins these are the right rows, and whether an evaluation faulted.
fn listed<S: Store>(
    alloc: Global,
    store: &mut S,
    held: &Held<S::File, S::Seal>,
    op: &Op,
    builds: &[Vec<Row>],
    failed: bool,
) -> Result<(Vec<Row>, bool), Ending>
    requires inputs { HasInputs held.now op.now }
    requires seals { IsTrue S.Seal.tells → HasSeals held.now op.now }
    requires own { IsTrue S.File.tells → HasOwn held.now op.now }
    requires typed { (kinds : List Sort) × (op_kinds op.now ≡ Some kinds) }
    requires builds { failed ≡ false → BuildsFit op.now (lists_of builds.now) }
    ensures ran { IfOk result (λ r. Listed S.faults S.given S.sound (IsTrue S.Seal.tells × IsTrue S.File.tells) held.now op.now
        (lists_of builds.now) failed r.1 store.old store.new r.0.items) }
    ensures bad { IfBadBlock result (IsBadIn op.now held.now.buckets) }
    ensures never_bad { IsTrue S.Seal.tells → IsTrue S.File.tells → IfBadBlock result (λ _ _ _. ⊥) }

    ensures cause { IsErrOf result Ending.Store → Rose (S.faults store.old) (S.faults store.new) }
    ensures store { IsSteady S.faults S.sound store.old store.new }
{
    let mut list = RowList::new(alloc);
    let fault = run(alloc, store, held, op, builds, failed, &mut list)?;
    Ok((list.into_rows(), fault))
}
