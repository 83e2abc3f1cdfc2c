//! The operators of a slice run over the rows of its leaf.
ghost use Rattle.std.specs.Prelude.{◌≡◌, ◌||◌, List, [], Some, true, false, option_map, IsTrue, IsErrOf, IfOk, OnOk};
ghost use Rattle.hq_value.specs.Causes.{Rose, IsSteady};
ghost use Rattle.hq_value.specs.declared.kind.Kind.{Kind as Sort};
ghost use Rattle.hq_algebra.specs.Operators.{op_kinds};
ghost use Rattle.hq_exec.specs.Builds.{BuildsFit, kinds_at, kept_at, reads_at, lists_of};
ghost use Rattle.hq_exec.specs.Ends.{IfBadBlock, IsBadIn, IsBadLeaf};
ghost use Rattle.hq_exec.specs.Feeding.{Fed};
ghost use Rattle.hq_exec.specs.Lines.{CanTake, line_state};
ghost use Rattle.hq_exec.specs.Outs.{Accepts};
ghost use Rattle.hq_exec.specs.Ran.{Ran};
ghost use Rattle.hq_exec.specs.Slices.{HasInputs, HasSeals, HasOwn, IsGiven, SealsStand, OwnStand};

use crate::end::Ending;
use crate::feed::{feed_rows, feed_table};
use crate::held::Held;
use crate::leaf::{Leaf, leaf_of};
use crate::line::{Line, finish};
use crate::out::RowOut;
use crate::pipes::pipes_of;
use crate::skips::tests_under;
use hq_algebra::Op;
use hq_store::Store;
use hq_value::Row;
use std::alloc::Global;

/// Reads the leaf of an operator, pushes its rows through the operators from there to it, and puts what it gives.
/// `builds` has the right rows of the Joins, the root's first. Where an evaluation has failed before, the leaf is read and
/// nothing is put. Tells whether an evaluation faulted.
pub fn run<S: Store, O: RowOut>(
    alloc: Global,
    store: &mut S,
    held: &Held<S::File, S::Seal>,
    op: &Op,
    builds: &[Vec<Row>],
    failed: bool,
    out: &mut O,
) -> Result<bool, Ending>
    requires inputs { HasInputs held.now op.now }
    requires seals { IsTrue S.Seal.tells → HasSeals held.now op.now }
    requires own { IsTrue S.File.tells → HasOwn held.now op.now }
    requires accepts { (kinds : List Sort) × (op_kinds op.now ≡ Some kinds) × Accepts (O.state out.old).kinds kinds }
    requires builds { failed ≡ false → BuildsFit op.now (lists_of builds.now) }
    ensures ran { IfOk result (λ fault. Ran S.faults S.given S.sound (IsTrue S.Seal.tells × IsTrue S.File.tells) held.now op.now
        (lists_of builds.now) failed fault store.old store.new (O.state out.old) (O.state out.new)) }
    ensures bad { IfBadBlock result (IsBadIn op.now held.now.buckets) }
    ensures never_bad { IsTrue S.Seal.tells → IsTrue S.File.tells → IfBadBlock result (λ _ _ _. ⊥) }

    ensures cause { IsErrOf result Ending.Store → Rose (S.faults store.old) (S.faults store.new) }
    ensures store { IsSteady S.faults S.sound store.old store.new }
    ensures kinds { (O.state out.new).kinds ≡ (O.state out.old).kinds }
{
    let pipes = pipes_of(alloc, op, builds)?;
    let mut line = Line { pipes, failed };
    let leaf = leaf_of(op, None);
    feed_leaf(alloc, store, held, &leaf, &mut line, out)?;
    let fault = finish(line, out)?;
    Ok(either(failed, fault))
}

// Reads a leaf and pushes its rows: of a table not those of the blocks that the Filter directly above shows to have no row
// that passes.
fn feed_leaf<S: Store, O: RowOut>(
    alloc: Global,
    store: &mut S,
    held: &Held<S::File, S::Seal>,
    leaf: &Leaf,
    line: &mut Line,
    out: &mut O,
) -> Result<(), Ending>
    requires given { IsGiven held.now leaf.now.op.now }
    requires can_take { CanTake (kinds_at leaf.now.op.now) (line_state line.old (O.state out.old)) }
    requires seals { IsTrue S.Seal.tells → SealsStand held.now leaf.now.op.now }
    requires own { IsTrue S.File.tells → OwnStand held.now leaf.now.op.now }
    ensures fed { OnOk result (Fed S.faults S.given S.sound (IsTrue S.Seal.tells × IsTrue S.File.tells) (kinds_at leaf.now.op.now)
        (kept_at leaf.now.op.now (option_map (λ e. e.now) leaf.now.above) held.now) []
        (reads_at leaf.now.op.now (option_map (λ e. e.now) leaf.now.above) held.now) 0 store.old store.new
        (line_state line.old (O.state out.old)) (line_state line.new (O.state out.new))) }
    ensures bad { IfBadBlock result (IsBadLeaf leaf.now.op.now held.now.buckets) }
    ensures never_bad { IsTrue S.Seal.tells → IsTrue S.File.tells → IfBadBlock result (λ _ _ _. ⊥) }

    ensures cause { IsErrOf result Ending.Store → Rose (S.faults store.old) (S.faults store.new) }
    ensures store { IsSteady S.faults S.sound store.old store.new }
    ensures kinds { (O.state out.new).kinds ≡ (O.state out.old).kinds }
{
    match leaf.op {
        Op::Scan { table, kinds } => {
            let tests = tests_under(alloc, kinds.as_slice(), leaf.above)?;
            feed_table(alloc, store, held, *table, kinds, &tests, line, out)
        }
        Op::Receive { slice, kinds } => {
            let rows = held.sent(*slice);
            feed_rows(alloc, rows, kinds, line, out)?;
            Ok(())
        }
        _ => Ok(()),
    }
}

/// Whether one of them holds.
pub fn either(first: bool, second: bool) -> bool
    ensures { result ≡ (first || second) }
{
    first || second
}
