//! The rules of a plan that speak of one operator.
ghost use Rattle.std.specs.Prelude.{◌≡◌, ◌&&◌, not, [], ◌∷◌, nat_le, length};
ghost use Rattle.std.specs.List.{list_all};
ghost use Rattle.hq_algebra.specs.Shape.{parts, has_arith};
ghost use Rattle.hq_algebra.specs.Rules as rules;
ghost use Rattle.hq_algebra.specs.Plans as spec;

use crate::shape::shape_of;
use hq_algebra::{Aggregate, Expr, Op};

fn is_bounded(e: &Expr) -> bool
    ensures { result ≡ nat_le (parts e.now) 2100 }
{
    shape_of(e).parts <= 2100
}

fn has_arith(e: &Expr) -> bool
    ensures { result ≡ has_arith e.now }
{
    shape_of(e).arith
}

fn is_bounded_argument(aggregate: &Aggregate) -> bool
    ensures { result ≡ list_all (λ e. nat_le (parts e) 2100) (rules.argument aggregate.now) }
{
    match aggregate {
        Aggregate::CountAll => true,
        Aggregate::Count(e) => is_bounded(e),
        Aggregate::Sum(e) => is_bounded(e),
        Aggregate::Min(e) => is_bounded(e),
        Aggregate::Max(e) => is_bounded(e),
    }
}

fn are_bounded_arguments(aggregates: &[Aggregate]) -> bool
    ensures { result ≡ list_all (λ a. list_all (λ e. nat_le (parts e) 2100) (rules.argument a)) aggregates.now }
{
    aggregates
        .iter()
        .all(|aggregate| is_bounded_argument(aggregate))
}

fn are_bounded_items(items: &[Expr]) -> bool
    ensures { result ≡ list_all (λ e. nat_le (parts e) 2100) items.now }
{
    items.iter().all(|e| is_bounded(e))
}

fn are_bounded(op: &Op) -> bool
    ensures { result ≡ spec.are_bounded op.now }
{
    match op {
        Op::Filter { cond, .. } => is_bounded(cond),
        Op::Project { items, .. } => are_bounded_items(items.as_slice()),
        Op::Partial { aggregates, .. } => are_bounded_arguments(aggregates.as_slice()),
        Op::Final { aggregates, .. } => are_bounded_arguments(aggregates.as_slice()),
        _ => true,
    }
}

fn filters_without_arith(op: &Op) -> bool
    ensures { result ≡ spec.filters_without_arith op.now }
{
    match op {
        Op::Filter { cond, .. } => !has_arith(cond),
        _ => true,
    }
}

fn is_short(count: usize) -> bool
    ensures { result ≡ nat_le count 65535 }
{
    count <= 65_535
}

fn is_writable(op: &Op) -> bool
    ensures { result ≡ spec.is_writable op.now }
{
    match op {
        Op::Scan { kinds, .. } => is_short(kinds.len()),
        Op::Receive { kinds, .. } => is_short(kinds.len()),
        Op::Filter { .. } => true,
        Op::Project { items, .. } => is_short(items.len()),
        Op::Join {
            left_keys,
            right_keys,
            ..
        } => is_short(left_keys.len()) && is_short(right_keys.len()),
        Op::Partial {
            keys,
            aggregates,
            ..
        } => is_short(keys.len()) && is_short(aggregates.len()),
        Op::Final { aggregates, .. } => is_short(aggregates.len()),
        Op::Distinct(_) => true,
        Op::Sort { order, .. } => is_short(order.len()),
    }
}

/// The rules on an operator by itself: its expressions are small, a Filter has no arithmetic, and its lists are
/// short.
pub fn is_fine(op: &Op) -> bool
    ensures { result ≡ spec.op_is_fine op.now }
{
    are_bounded(op) && filters_without_arith(op) && is_writable(op)
}

pub fn is_join(op: &Op) -> bool
    ensures { result ≡ spec.is_join op.now }
{
    matches!(op, Op::Join { .. })
}

pub fn is_scan(op: &Op) -> bool
    ensures { result ≡ spec.is_scan op.now }
{
    matches!(op, Op::Scan { .. })
}

fn is_count(aggregate: &Aggregate) -> bool
    ensures { result ≡ rules.is_count aggregate.now }
{
    matches!(aggregate, Aggregate::CountAll | Aggregate::Count(_))
}

fn sums_no_column(aggregate: &Aggregate) -> bool
    ensures { result ≡ rules.sums_no_column aggregate.now }
{
    match aggregate {
        Aggregate::Sum(e) => !shape_of(e).column,
        _ => false,
    }
}

fn have_no_count(aggregates: &[Aggregate]) -> bool
    ensures { result ≡ list_all (λ a. not (rules.is_count a)) aggregates.now }
{
    aggregates.iter().all(|aggregate| !is_count(aggregate))
}

fn are_over_pairs(aggregates: &[Aggregate]) -> bool
    ensures { result ≡ list_all (λ a. not (rules.is_count a) && not (rules.sums_no_column a)) aggregates.now }
{
    aggregates.iter().all(|aggregate| !is_count(aggregate) && !sums_no_column(aggregate))
}

/// Its aggregates can stand over the pairs of a join: it counts nothing, and sums nothing that names no column.
pub fn stands_over_pairs(op: &Op) -> bool
    ensures { result ≡ spec.stands_over_pairs op.now }
{
    match op {
        Op::Partial { aggregates, .. } => are_over_pairs(aggregates.as_slice()),
        Op::Final { aggregates, .. } => have_no_count(aggregates.as_slice()),
        _ => true,
    }
}
