//! The plans of queries over two tables.
ghost use Rattle.std.specs.Prelude.{◌≡◌, ◌∷◌, ◌++◌, [], IfOk, OnOk};
ghost use Rattle.hq_algebra.specs.declared.aggregate.Aggregate.TheVariants as aggregate;
ghost use Rattle.hq_algebra.specs.declared.expr.Expr.TheVariants as e;
ghost use Rattle.hq_algebra.specs.declared.op.Op.TheVariants as op;
ghost use Rattle.hq_algebra.specs.declared.plan.Motion.TheVariants as motion;
ghost use Rattle.hq_querytests.specs.Works.{two, four, partial_groups, whole_groups, met, sorted, plan_by};
ghost use Rattle.hq_querytests.specs.declared.plans.Work.TheVariants as work;

use hq_algebra::{
    Aggregate, Aggregates, Expr, Exprs, Keys16, Motion, Op, Plan, Slice, Slices, SortKeys,
};
use hq_value::{Kind, Kinds};
use sqlite_items::Boxed;
use std::alloc::Global;
use std::test::Fail;

/// What a query asks for, in row order.
#[derive(Clone, Copy)]
pub(crate) enum Work {
    /// The rows of the first table.
    All,
    /// The numbers of the first table, of each how many rows have it and the sum of their keys.
    Group,
    /// The keys of the rows of both tables whose numbers are equal.
    Join,
}

fn ints(alloc: Global) -> Result<Kinds, Fail>
    ensures { IfOk result (λ kinds. kinds ≡ two) }
{
    let mut kinds = Kinds::new(alloc);
    kinds.push(Kind::Int)?;
    kinds.push(Kind::Int)?;
    Ok(kinds)
}

fn four_ints(alloc: Global) -> Result<Kinds, Fail>
    ensures { IfOk result (λ kinds. kinds ≡ four) }
{
    let mut kinds = ints(alloc)?;
    kinds.push(Kind::Int)?;
    kinds.push(Kind::Int)?;
    Ok(kinds)
}

// The number of a row, as the only key.
fn by_number(alloc: Global) -> Result<Keys16, Fail>
    ensures { IfOk result (λ keys. keys ≡ 1 ∷ []) }
{
    let mut keys = Keys16::new(alloc);
    keys.push(1)?;
    Ok(keys)
}

fn scan(alloc: Global, table: u32) -> Result<Op, Fail>
    ensures { IfOk result (λ found. found ≡ op.Scan table two) }
{
    let kinds = ints(alloc)?;
    Ok(Op::Scan { table, kinds })
}

fn received(alloc: Global, slice: u8) -> Result<Op, Fail>
    ensures { IfOk result (λ found. found ≡ op.Receive slice two) }
{
    let kinds = ints(alloc)?;
    Ok(Op::Receive { slice, kinds })
}

fn sorted(alloc: Global, input: Op) -> Result<Op, Fail>
    ensures { IfOk result (λ found. found ≡ sorted input) }
{
    let input = Boxed::new(alloc, input)?;
    Ok(Op::Sort {
        order: SortKeys::new(alloc),
        limit: None,
        input,
    })
}

// A count, and the sum of a column.
fn counted(alloc: Global, column: u16) -> Result<Aggregates, Fail>
    ensures { IfOk result (λ aggregates. aggregates ≡ aggregate.CountAll ∷ aggregate.Sum (e.Column column) ∷ []) }
{
    let mut aggregates = Aggregates::new(alloc);
    aggregates.push(Aggregate::CountAll)?;
    aggregates.push(Aggregate::Sum(Expr::Column(column)))?;
    Ok(aggregates)
}

fn partial_groups(alloc: Global) -> Result<Op, Fail>
    ensures { IfOk result (λ found. found ≡ partial_groups) }
{
    let keys = by_number(alloc)?;
    let aggregates = counted(alloc, 0)?;
    let input = scan(alloc, 0)?;
    let input = Boxed::new(alloc, input)?;
    Ok(Op::Partial {
        keys,
        aggregates,
        input,
    })
}

fn whole_groups(alloc: Global) -> Result<Op, Fail>
    ensures { IfOk result (λ found. found ≡ whole_groups) }
{
    let aggregates = counted(alloc, 2)?;
    let kinds = four_ints(alloc)?;
    let input = Boxed::new(alloc, Op::Receive { slice: 0, kinds })?;
    Ok(Op::Final {
        keys: 1,
        aggregates,
        input,
    })
}

// The pairs of the rows of both tables whose numbers are equal.
fn pairs(alloc: Global) -> Result<Op, Fail>
    ensures { IfOk result (λ found. found ≡ op.Join (1 ∷ []) (1 ∷ []) (op.Receive 0 two) (op.Receive 1 two)) }
{
    let left_keys = by_number(alloc)?;
    let right_keys = by_number(alloc)?;
    let left = received(alloc, 0)?;
    let left = Boxed::new(alloc, left)?;
    let right = received(alloc, 1)?;
    let right = Boxed::new(alloc, right)?;
    Ok(Op::Join {
        left_keys,
        right_keys,
        left,
        right,
    })
}

fn met(alloc: Global) -> Result<Op, Fail>
    ensures { IfOk result (λ found. found ≡ met) }
{
    let mut items = Exprs::new(alloc);
    items.push(Expr::Column(0))?;
    items.push(Expr::Column(2))?;
    let input = pairs(alloc)?;
    let input = Boxed::new(alloc, input)?;
    Ok(Op::Project { items, input })
}

// Two slices: the rows of the first go to one node, where the second gives the rows of the plan.
fn gathered(alloc: Global, first: Op, last: Op) -> Result<Plan, Fail>
    ensures { IfOk result (λ plan. plan ≡ record { slices = record { out = motion.Gather; root = first } ∷ record { out = motion.Result; root = last } ∷ [] }) }
{
    let mut slices = Slices::new(alloc);
    slices.push(Slice {
        out: Motion::Gather,
        root: first,
    })?;
    slices.push(Slice {
        out: Motion::Result,
        root: last,
    })?;
    Ok(Plan { slices })
}

fn all(alloc: Global) -> Result<Plan, Fail>
    ensures { IfOk result (λ plan. plan ≡ plan_by work.All) }
{
    let rows = scan(alloc, 0)?;
    let come = received(alloc, 0)?;
    let last = sorted(alloc, come)?;
    gathered(alloc, rows, last)
}

fn group(alloc: Global) -> Result<Plan, Fail>
    ensures { IfOk result (λ plan. plan ≡ plan_by work.Group) }
{
    let groups = partial_groups(alloc)?;
    let whole = whole_groups(alloc)?;
    let last = sorted(alloc, whole)?;
    gathered(alloc, groups, last)
}

// The rows of both tables, each sent to the node of its number.
fn both_sent(alloc: Global) -> Result<Slices, Fail>
    ensures { IfOk result (λ slices. slices ≡ record { out = motion.Redistribute (1 ∷ []); root = op.Scan 0 two } ∷ record { out = motion.Redistribute (1 ∷ []); root = op.Scan 1 two } ∷ []) }
{
    let mut slices = Slices::new(alloc);
    let keys = by_number(alloc)?;
    let root = scan(alloc, 0)?;
    slices.push(Slice {
        out: Motion::Redistribute(keys),
        root,
    })?;
    let keys = by_number(alloc)?;
    let root = scan(alloc, 1)?;
    slices.push(Slice {
        out: Motion::Redistribute(keys),
        root,
    })?;
    Ok(slices)
}

fn join(alloc: Global) -> Result<Plan, Fail>
    ensures { IfOk result (λ plan. plan ≡ plan_by work.Join) }
{
    let mut slices = both_sent(alloc)?;
    let root = met(alloc)?;
    slices.push(Slice {
        out: Motion::Gather,
        root,
    })?;
    let come = received(alloc, 2)?;
    let last = sorted(alloc, come)?;
    slices.push(Slice {
        out: Motion::Result,
        root: last,
    })?;
    Ok(Plan { slices })
}

/// The plan of a query.
pub(crate) fn plan_of(alloc: Global, work: Work) -> Result<Plan, Fail>
    ensures { IfOk result (λ plan. plan ≡ plan_by work) }
{
    match work {
        Work::All => all(alloc),
        Work::Group => group(alloc),
        Work::Join => join(alloc),
    }
}
