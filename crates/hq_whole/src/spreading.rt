//! The sources of a query joined on all nodes, and the slices behind them.
ghost use Rattle.std.specs.Prelude.{◌≡◌, ◌<◌, ◌≤◌, ◌+◌, ◌++◌, [], ◌∷◌, IfOk, OnOk, IsTrue, length, suc};
ghost use Rattle.hq_algebra.specs.Bound.{has_places};
ghost use Rattle.hq_laws.specs.Spread as spec;
ghost use Rattle.hq_laws.specs.Stages.{sending, partial_op, filters as filters_over, tail_op as tail_over, final_op as final_over};
ghost use Rattle.hq_listing.specs.Listing as listing;
ghost use Rattle.hq_whole.specs.Tables as tables;
ghost use Rattle.hq_whole.specs.Choices.{joining_of, joinings, first_of, built_of, way_of};
ghost use Rattle.hq_whole.specs.Sides.{AreSides};

use crate::making::{join, received};
use crate::source::source_op;
use crate::stages::{end_op, filters, final_op, listed_op, partial_op, sending, tail_op};
use crate::step::{Step, Way};
use crate::tables::{few_columns, kinds_by};
use hq_algebra::{Expr, Keys16, Motion, Op, Plan, Query, Slices, copy_keys};
use hq_value::{Kinds, NoMemory, TableDef};
use std::alloc::Global;

/// What is built so far: slices, the operator that gives the rows on all nodes, and their kinds.
#[derive(Drop)]
pub struct Built {
    pub slices: Slices,
    pub root: Op,
    pub kinds: Kinds,
}

/// The sources joined: the first one, and then those of the steps.
pub fn joined_sources(
    alloc: Global,
    conds: &[Expr],
    defs: &[(u32, TableDef)],
    first: u32,
    steps: &[Step],
) -> Result<Built, NoMemory>
    requires { length steps.now < 8 }
    ensures built { IfOk result (λ built. built_of built ≡ spec.with_sources (tables.kinds_by defs.now) (spec.first_source (tables.kinds_by defs.now) (first_of (tables.kinds_by defs.now) conds.now first)) (joinings (tables.kinds_by defs.now) conds.now (length (tables.kinds_by defs.now first)) steps.now)) }
    ensures few { IfOk result (λ built. length built.slices < 63) }
{
    let mut built = first_source(alloc, conds, first, defs)?;
    for step in steps {
        let next = with_source(alloc, built, conds, step, defs)?;
        built = next;
    }
    Ok(built)
}

fn first_source(
    alloc: Global,
    conds: &[Expr],
    table: u32,
    defs: &[(u32, TableDef)],
) -> Result<Built, NoMemory>
    ensures built { IfOk result (λ built. built_of built ≡ spec.first_source (tables.kinds_by defs.now) (first_of (tables.kinds_by defs.now) conds.now table)) }
    ensures few { IfOk result (λ built. length built.kinds ≤ 64) }
{
    few_columns(defs, table);
    let kinds = kinds_by(alloc, defs, table)?;
    let root = source_op(alloc, conds, defs, 0, table)?;
    Ok(Built {
        slices: Slices::new(alloc),
        root,
        kinds,
    })
}

// One source more.
fn with_source(
    alloc: Global,
    built: Built,
    conds: &[Expr],
    step: &Step,
    defs: &[(u32, TableDef)],
) -> Result<Built, NoMemory>
    requires slices { length built.slices < 62 }
    requires columns { length built.kinds ≤ 512 }
    ensures built { IfOk result (λ next. built_of next ≡ spec.with_source (tables.kinds_by defs.now) (built_of built) (joining_of (tables.kinds_by defs.now) conds.now (length built.kinds) step.now)) }
    ensures few { IfOk result (λ next. length next.slices ≤ length built.slices + 2) }
    ensures columns { IfOk result (λ next. length next.kinds ≤ length built.kinds + 64) }
{
    few_columns(defs, step.table);
    let others = kinds_by(alloc, defs, step.table)?;
    let source = source_op(alloc, conds, defs, built.kinds.len() as u16, step.table)?;
    let next = joined(alloc, built, source, others, step)?;
    Ok(next)
}

// What is built, joined with the operator of a table of these kinds.
fn joined(
    alloc: Global,
    built: Built,
    source: Op,
    others: Kinds,
    step: &Step,
) -> Result<Built, NoMemory>
    requires { length built.slices < 62 }
    ensures slices { IfOk result (λ next. next.slices ≡ built.slices ++ spec.added_slices (way_of step.now.way) step.now.left_keys step.now.right_keys built.root source) }
    ensures root { IfOk result (λ next. next.root ≡ Op.Join step.now.left_keys step.now.right_keys (spec.left_side (way_of step.now.way) (length built.slices) built.kinds built.root) (spec.right_side (way_of step.now.way) (length built.slices) others source)) }
    ensures kinds { IfOk result (λ next. next.kinds ≡ built.kinds ++ others) }
    ensures few { IfOk result (λ next. length next.slices ≤ length built.slices + 2) }
{
    let Built {
        slices,
        root,
        kinds,
    } = built;
    let mut slices = slices;
    let root = joined_root(alloc, &mut slices, root, &kinds, source, &others, step)?;
    let kinds = both_kinds(kinds, others)?;
    Ok(Built {
        slices,
        root,
        kinds,
    })
}

fn joined_root(
    alloc: Global,
    slices: &mut Slices,
    root: Op,
    kinds: &Kinds,
    source: Op,
    others: &Kinds,
    step: &Step,
) -> Result<Op, NoMemory>
    requires { length slices.old < 62 }
    ensures slices { OnOk result (slices.new ≡ slices.old ++ spec.added_slices (way_of step.now.way) step.now.left_keys step.now.right_keys root source) }
    ensures few { OnOk result (length slices.new ≤ length slices.old + 2) }
    ensures root { IfOk result (λ op. op ≡ Op.Join step.now.left_keys step.now.right_keys (spec.left_side (way_of step.now.way) (length slices.old) kinds.now root) (spec.right_side (way_of step.now.way) (length slices.old) others.now source)) }
{
    let sides = make_sides(alloc, slices, root, kinds, source, others, step)?;
    let Sides { left, right } = sides;
    let op = join(alloc, &step.left_keys, &step.right_keys, left, right)?;
    Ok(op)
}

// The two sides of a join.
#[derive(Drop)]
struct Sides {
    left: Op,
    right: Op,
}

// The sides of a join. The slices that the way adds are added.
fn make_sides(
    alloc: Global,
    slices: &mut Slices,
    root: Op,
    kinds: &Kinds,
    source: Op,
    others: &Kinds,
    step: &Step,
) -> Result<Sides, NoMemory>
    requires { length slices.old < 62 }
    ensures { IfOk result (λ sides. AreSides slices.old slices.new root kinds.now source others.now step.now (way_of step.now.way) sides) }
{
    match step.way {
        Way::CopyRight => right_sent(alloc, slices, Motion::Broadcast, root, source, others),
        Way::CopyLeft => left_sent(alloc, slices, Motion::Broadcast, root, kinds, source),
        Way::MoveBoth => both_moved(alloc, slices, step, root, kinds, source, others),
        Way::MoveLeft => left_moved(alloc, slices, &step.left_keys, root, kinds, source),
        Way::MoveRight => right_moved(alloc, slices, &step.right_keys, root, source, others),
        Way::Stay => Ok(Sides {
            left: root,
            right: source,
        }),
    }
}

fn by_keys(alloc: Global, keys: &Keys16) -> Result<Motion, NoMemory>
    ensures { IfOk result (λ out. out ≡ Motion.Redistribute keys.now) }
{
    let keys = copy_keys(alloc, keys.as_slice())?;
    Ok(Motion::Redistribute(keys))
}

// Sends the rows of an operator, and gives those that came.
fn sent(
    alloc: Global,
    slices: &mut Slices,
    out: Motion,
    root: Op,
    kinds: &Kinds,
) -> Result<Op, NoMemory>
    requires { length slices.old < 64 }
    ensures slices { OnOk result (slices.new ≡ slices.old ++ sending out root ∷ []) }
    ensures received { IfOk result (λ op. op ≡ Op.Receive (length slices.old) kinds.now) }
{
    let at = slices.len() as u8;
    slices.push(sending(out, root))?;
    received(alloc, at, kinds)
}

// The table's rows are sent.
fn right_sent(
    alloc: Global,
    slices: &mut Slices,
    out: Motion,
    left: Op,
    source: Op,
    others: &Kinds,
) -> Result<Sides, NoMemory>
    requires { length slices.old < 64 }
    ensures slices { OnOk result (slices.new ≡ slices.old ++ sending out source ∷ []) }
    ensures left { IfOk result (λ sides. sides.left ≡ left) }
    ensures right { IfOk result (λ sides. sides.right ≡ Op.Receive (length slices.old) others.now) }
{
    let right = sent(alloc, slices, out, source, others)?;
    Ok(Sides { left, right })
}

// The rows before the table's are sent.
fn left_sent(
    alloc: Global,
    slices: &mut Slices,
    out: Motion,
    root: Op,
    kinds: &Kinds,
    right: Op,
) -> Result<Sides, NoMemory>
    requires { length slices.old < 64 }
    ensures slices { OnOk result (slices.new ≡ slices.old ++ sending out root ∷ []) }
    ensures left { IfOk result (λ sides. sides.left ≡ Op.Receive (length slices.old) kinds.now) }
    ensures right { IfOk result (λ sides. sides.right ≡ right) }
{
    let left = sent(alloc, slices, out, root, kinds)?;
    Ok(Sides { left, right })
}

fn right_moved(
    alloc: Global,
    slices: &mut Slices,
    keys: &Keys16,
    left: Op,
    source: Op,
    others: &Kinds,
) -> Result<Sides, NoMemory>
    requires { length slices.old < 64 }
    ensures slices { OnOk result (slices.new ≡ slices.old ++ sending (Motion.Redistribute keys.now) source ∷ []) }
    ensures left { IfOk result (λ sides. sides.left ≡ left) }
    ensures right { IfOk result (λ sides. sides.right ≡ Op.Receive (length slices.old) others.now) }
{
    let out = by_keys(alloc, keys)?;
    let sides = right_sent(alloc, slices, out, left, source, others)?;
    Ok(sides)
}

fn left_moved(
    alloc: Global,
    slices: &mut Slices,
    keys: &Keys16,
    root: Op,
    kinds: &Kinds,
    right: Op,
) -> Result<Sides, NoMemory>
    requires { length slices.old < 64 }
    ensures slices { OnOk result (slices.new ≡ slices.old ++ sending (Motion.Redistribute keys.now) root ∷ []) }
    ensures left { IfOk result (λ sides. sides.left ≡ Op.Receive (length slices.old) kinds.now) }
    ensures right { IfOk result (λ sides. sides.right ≡ right) }
{
    let out = by_keys(alloc, keys)?;
    let sides = left_sent(alloc, slices, out, root, kinds, right)?;
    Ok(sides)
}

fn both_moved(
    alloc: Global,
    slices: &mut Slices,
    step: &Step,
    root: Op,
    kinds: &Kinds,
    source: Op,
    others: &Kinds,
) -> Result<Sides, NoMemory>
    requires { length slices.old < 63 }
    ensures slices { OnOk result (slices.new ≡ slices.old ++ sending (Motion.Redistribute step.now.left_keys) root ∷ sending (Motion.Redistribute step.now.right_keys) source ∷ []) }
    ensures left { IfOk result (λ sides. sides.left ≡ Op.Receive (length slices.old) kinds.now) }
    ensures right { IfOk result (λ sides. sides.right ≡ Op.Receive (suc (length slices.old)) others.now) }
{
    let out = by_keys(alloc, &step.left_keys)?;
    let left = sent(alloc, slices, out, root, kinds)?;
    let sides = right_moved(alloc, slices, &step.right_keys, left, source, others)?;
    Ok(sides)
}

fn both_kinds(kinds: Kinds, others: Kinds) -> Result<Kinds, NoMemory>
    ensures { IfOk result (λ both. both ≡ kinds ++ others) }
{
    let mut kinds = kinds.into_vec();
    kinds.extend_from_slice(others.as_slice())?;
    Ok(Kinds::from_vec(kinds))
}

// Sends the rows of an operator to one node, and gives those that came.
fn gathered(slices: &mut Slices, root: Op, kinds: Kinds) -> Result<Op, NoMemory>
    requires { length slices.old < 64 }
    ensures slices { OnOk result (slices.new ≡ slices.old ++ sending Motion.Gather root ∷ []) }
    ensures received { IfOk result (λ op. op ≡ Op.Receive (length slices.old) kinds) }
{
    let slice = slices.len() as u8;
    slices.push(sending(Motion::Gather, root))?;
    Ok(Op::Receive { slice, kinds })
}

fn grouped_op(alloc: Global, query: &Query, root: Op) -> Result<Op, NoMemory>
    ensures { IfOk result (λ op. op ≡ partial_op query.now (filters_over query.now.conds root)) }
{
    let kept = filters(alloc, query.conds.as_slice(), root)?;
    let op = partial_op(alloc, query, kept)?;
    Ok(op)
}

fn finished_op(alloc: Global, query: &Query, input: Op) -> Result<Op, NoMemory>
    requires { IsTrue (has_places query.now) }
    ensures { IfOk result (λ op. op ≡ tail_over query.now (final_over query.now input)) }
{
    let merged = final_op(alloc, query, input)?;
    let op = tail_op(alloc, query, merged)?;
    Ok(op)
}

fn values_op(alloc: Global, query: &Query, root: Op) -> Result<Op, NoMemory>
    ensures { IfOk result (λ op. op ≡ Op.Project query.now.items (filters_over query.now.conds root)) }
{
    let kept = filters(alloc, query.conds.as_slice(), root)?;
    let op = listed_op(alloc, query, kept)?;
    Ok(op)
}

/// The plan whose last two slices group on all nodes, and finish on one.
pub fn closed(alloc: Global, sent: Kinds, query: &Query, built: Built) -> Result<Plan, NoMemory>
    requires places { IsTrue (has_places query.now) }
    requires few { length built.slices < 63 }
    ensures { IfOk result (λ plan. plan ≡ spec.closed sent query.now (built_of built)) }
{
    let Built {
        slices,
        root,
        kinds: _,
    } = built;
    let mut slices = slices;
    let grouped = grouped_op(alloc, query, root)?;
    let received = gathered(&mut slices, grouped, sent)?;
    let root = finished_op(alloc, query, received)?;
    slices.push(sending(Motion::Result, root))?;
    Ok(Plan { slices })
}

/// The plan whose last two slices evaluate the select list on all nodes, and bring its values into order on one.
pub fn listed(alloc: Global, out: Kinds, query: &Query, built: Built) -> Result<Plan, NoMemory>
    requires { length built.slices < 63 }
    ensures { IfOk result (λ plan. plan ≡ listing.listed out query.now (built_of built)) }
{
    let Built {
        slices,
        root,
        kinds: _,
    } = built;
    let mut slices = slices;
    let values = values_op(alloc, query, root)?;
    let received = gathered(&mut slices, values, out)?;
    let root = end_op(alloc, query, received)?;
    slices.push(sending(Motion::Result, root))?;
    Ok(Plan { slices })
}
