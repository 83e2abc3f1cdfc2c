//! The plans of slices over the table.
ghost use Rattle.std.specs.Prelude.{◌≡◌, ◌∷◌, [], IfOk, IsTrue};
ghost use Rattle.hq_slicetests.specs.Works.{two, all_rows, rows_below, root_by, plan_by};
ghost use Rattle.hq_slicetests.specs.declared.plans.Work.TheVariants as work;

use hq_algebra::{
    Aggregate, Aggregates, ArithKind, CompareKind, Expr, Exprs, Keys16, Motion, Op, Plan, Slice,
    Slices, kinds_of,
};
use hq_value::{Kind, Kinds, Value};
use sqlite_items::Boxed;
use std::alloc::Global;
use std::test::Fail;

/// What a slice does with the table's rows.
#[derive(Clone, Copy)]
pub(crate) enum Work {
    /// It gives them.
    Scan,
    /// It gives those whose key is below a number.
    Filter(i64),
    /// It groups those by their key, with a count and the sum of their numbers.
    Group(i64),
    /// It gives their numbers times a number.
    Times(i64),
}

/// The kinds of the table's columns.
pub(crate) fn two_ints(alloc: Global) -> Result<Kinds, Fail>
    ensures { IfOk result (λ kinds. kinds ≡ two) }
{
    let mut kinds = Kinds::new(alloc);
    kinds.push(Kind::Int)?;
    kinds.push(Kind::Int)?;
    Ok(kinds)
}

fn all_rows(alloc: Global) -> Result<Op, Fail>
    ensures { IfOk result (λ op. op ≡ all_rows) }
{
    let kinds = two_ints(alloc)?;
    Ok(Op::Scan { table: 0, kinds })
}

// The rows whose key is below the number.
fn below(alloc: Global, most: i64) -> Result<Op, Fail>
    ensures { IfOk result (λ op. op ≡ rows_below most) }
{
    let left = Boxed::new(alloc, Expr::Column(0))?;
    let right = Boxed::new(alloc, Expr::Literal(Value::Int(most)))?;
    let cond = Expr::Compare {
        kind: CompareKind::Less,
        left,
        right,
    };
    let input = all_rows(alloc)?;
    let input = Boxed::new(alloc, input)?;
    Ok(Op::Filter { cond, input })
}

fn grouped(alloc: Global, most: i64) -> Result<Op, Fail>
    ensures { IfOk result (λ op. op ≡ root_by (work.Group most)) }
{
    let mut keys = Keys16::new(alloc);
    keys.push(0)?;
    let mut aggregates = Aggregates::new(alloc);
    aggregates.push(Aggregate::CountAll)?;
    aggregates.push(Aggregate::Sum(Expr::Column(1)))?;
    let input = below(alloc, most)?;
    let input = Boxed::new(alloc, input)?;
    Ok(Op::Partial {
        keys,
        aggregates,
        input,
    })
}

fn multiplied(alloc: Global, factor: i64) -> Result<Op, Fail>
    ensures { IfOk result (λ op. op ≡ root_by (work.Times factor)) }
{
    let left = Boxed::new(alloc, Expr::Column(1))?;
    let right = Boxed::new(alloc, Expr::Literal(Value::Int(factor)))?;
    let mut items = Exprs::new(alloc);
    items.push(Expr::Arith {
        kind: ArithKind::Times,
        left,
        right,
    })?;
    let input = all_rows(alloc)?;
    let input = Boxed::new(alloc, input)?;
    Ok(Op::Project { items, input })
}

// The root of the slice.
fn root_of(alloc: Global, work: Work) -> Result<Op, Fail>
    ensures { IfOk result (λ op. op ≡ root_by work) }
{
    match work {
        Work::Scan => all_rows(alloc),
        Work::Filter(most) => below(alloc, most),
        Work::Group(most) => grouped(alloc, most),
        Work::Times(factor) => multiplied(alloc, factor),
    }
}

/// A plan whose first slice does the work, and whose last gives what it sent.
#[tactic(auto, using(crate::proofs::Worked::sent_so))]
pub(crate) fn plan_of(alloc: Global, work: Work) -> Result<Plan, Fail>
    ensures { IfOk result (λ plan. plan ≡ plan_by work) }
{
    let root = root_of(alloc, work)?;
    let kinds = kinds_of(alloc, &root)?;
    let mut slices = Slices::new(alloc);
    slices.push(Slice {
        out: Motion::Gather,
        root,
    })?;
    slices.push(Slice {
        out: Motion::Result,
        root: Op::Receive { slice: 0, kinds },
    })?;
    Ok(Plan { slices })
}
