//! A source of a plan: its Scan, under its guards, which are the members of the conditions that name it alone.
ghost use Rattle.std.specs.Prelude.{◌≡◌, ◌∷◌, [], ◌&&◌, ◌||◌, IfOk, None, length};
ghost use Rattle.hq_algebra.specs.Shape as shape;
ghost use Rattle.hq_laws.specs.Guards as guards;
ghost use Rattle.hq_laws.specs.Sources as law;
ghost use Rattle.hq_laws.specs.Tests as tests;
ghost use Rattle.hq_whole.specs.Tables as tables;
ghost use Rattle.hq_whole.specs.Conjoined.{with_cond, conjoined, lowered_guards, under_filter, is_within};

use crate::making::{and, filter};
use crate::renaming::{Places, renamed};
use crate::tables::kinds_by;
use hq_algebra::{Expr, Op};
use hq_value::{Kind, NoMemory, TableDef};
use std::alloc::Global;

/// The Scan of a table, directly under one Filter of its guards, where there are some. The columns of the sources before
/// it are `width`.
pub fn source_op(
    alloc: Global,
    conds: &[Expr],
    defs: &[(u32, TableDef)],
    width: u16,
    table: u32,
) -> Result<Op, NoMemory>
    ensures { IfOk result (λ op. op ≡ law.source_op (tables.kinds_by defs.now) table (guards.guards_of (tables.kinds_by defs.now table) width conds.now)) }
{
    let kinds = kinds_by(alloc, defs, table)?;
    let cond = all_guards(alloc, kinds.as_slice(), width, conds)?;
    filtered(alloc, cond, Op::Scan { table, kinds })
}

fn filtered(alloc: Global, cond: Option<Expr>, input: Op) -> Result<Op, NoMemory>
    ensures { IfOk result (λ op. op ≡ under_filter cond input) }
{
    match cond {
        None => Ok(input),
        Some(cond) => filter(alloc, cond, input),
    }
}

// The guards of a source among the members of the conditions, as one condition.
fn all_guards(
    alloc: Global,
    kinds: &[Kind],
    width: u16,
    conds: &[Expr],
) -> Result<Option<Expr>, NoMemory>
    ensures { IfOk result (λ found. found ≡ conjoined (guards.guards_of kinds.now width conds.now) None) }
{
    let mut found = None;
    let mut at = conds.len();
    while at > 0 {
        let place = at - 1;
        let more = with_members(alloc, kinds, width, &conds[place], found)?;
        found = more;
        at = place;
    }
    Ok(found)
}

// The guards among the members of a condition, before the others. The call is nested at most as deep as the condition.
#[tactic(auto, using(crate::proofs::Conjoining::member_nodes))]
fn with_members(
    alloc: Global,
    kinds: &[Kind],
    width: u16,
    e: &Expr,
    others: Option<Expr>,
) -> Result<Option<Expr>, NoMemory>
    ensures { IfOk result (λ found. found ≡ conjoined (lowered_guards kinds.now width (tests.members e.now)) others) }
{
    match e {
        Expr::And { left, right } => {
            let others = with_members(alloc, kinds, width, right.get(), others)?;
            with_members(alloc, kinds, width, left.get(), others)
        }
        Expr::Column(_) => with_guard(alloc, kinds, width, e, others),
        Expr::Literal(_) => with_guard(alloc, kinds, width, e, others),
        Expr::Arith { .. } => with_guard(alloc, kinds, width, e, others),
        Expr::Compare { .. } => with_guard(alloc, kinds, width, e, others),
        Expr::Or { .. } => with_guard(alloc, kinds, width, e, others),
        Expr::Not(_) => with_guard(alloc, kinds, width, e, others),
        Expr::IsNull(_) => with_guard(alloc, kinds, width, e, others),
    }
}

// An expression, where it is a guard, before the others.
fn with_guard(
    alloc: Global,
    kinds: &[Kind],
    width: u16,
    e: &Expr,
    others: Option<Expr>,
) -> Result<Option<Expr>, NoMemory>
    ensures { IfOk result (λ found. found ≡ conjoined (lowered_guards kinds.now width (e.now ∷ [])) others) }
{
    if !is_guard(kinds, width, e) {
        return Ok(others);
    }
    let guard = renamed(alloc, &Places::Lowered(width), e)?;
    before_others(alloc, guard, others)
}

fn before_others(alloc: Global, cond: Expr, others: Option<Expr>) -> Result<Option<Expr>, NoMemory>
    ensures { IfOk result (λ found. found ≡ with_cond cond others) }
{
    match others {
        None => Ok(Some(cond)),
        Some(other) => {
            let both = and(alloc, cond, other)?;
            Ok(Some(both))
        }
    }
}

// It names a column of the source, whose columns begin at place `width`, and no other source's.
fn is_guard(kinds: &[Kind], width: u16, e: &Expr) -> bool
    ensures { result ≡ guards.is_guard kinds.now width e.now }
{
    both(has_column(e), is_inside(kinds, width, e))
}

fn both(first: bool, second: bool) -> bool
    ensures { result ≡ (first && second) }
{
    first && second
}

fn either(first: bool, second: bool) -> bool
    ensures { result ≡ (first || second) }
{
    first || second
}

// The call is nested at most as deep as the expression.
#[tactic(auto, using(crate::proofs::Nodes::column_nodes))]
fn has_column(e: &Expr) -> bool
    ensures { result ≡ shape.has_column e.now }
{
    match e {
        Expr::Column(_) => true,
        Expr::Literal(_) => false,
        Expr::Arith { left, right, .. } => either(has_column(left.get()), has_column(right.get())),
        Expr::Compare { left, right, .. } => {
            either(has_column(left.get()), has_column(right.get()))
        }
        Expr::And { left, right } => either(has_column(left.get()), has_column(right.get())),
        Expr::Or { left, right } => either(has_column(left.get()), has_column(right.get())),
        Expr::Not(of) => has_column(of.get()),
        Expr::IsNull(of) => has_column(of.get()),
    }
}

// Each column that it names is the source's. The call is nested at most as deep as the expression.
#[tactic(auto, using(crate::proofs::Nodes::inside_nodes))]
fn is_inside(kinds: &[Kind], width: u16, e: &Expr) -> bool
    ensures { result ≡ guards.is_inside width (length kinds.now) e.now }
{
    match e {
        Expr::Column(place) => is_within(kinds, width, *place),
        Expr::Literal(_) => true,
        Expr::Arith { left, right, .. } => both(
            is_inside(kinds, width, left.get()),
            is_inside(kinds, width, right.get()),
        ),
        Expr::Compare { left, right, .. } => both(
            is_inside(kinds, width, left.get()),
            is_inside(kinds, width, right.get()),
        ),
        Expr::And { left, right } => both(
            is_inside(kinds, width, left.get()),
            is_inside(kinds, width, right.get()),
        ),
        Expr::Or { left, right } => both(
            is_inside(kinds, width, left.get()),
            is_inside(kinds, width, right.get()),
        ),
        Expr::Not(of) => is_inside(kinds, width, of.get()),
        Expr::IsNull(of) => is_inside(kinds, width, of.get()),
    }
}

fn is_within(kinds: &[Kind], width: u16, place: u16) -> bool
    ensures { result ≡ is_within width (length kinds.now) place }
{
    width <= place && ((place - width) as usize) < kinds.len()
}
