//! Columns that are taken of rows, renamed: to their places among those that are taken, and back.
ghost use Rattle.std.specs.Prelude.{◌≡◌, ◌<◌, IfOk, IfSome, length, map};
ghost use Rattle.hq_laws.specs.Turned as spec;
ghost use Rattle.hq_narrow.specs.Narrow as narrow;

use crate::making::{and, arith, compare, is_null, not, or};
use crate::not_narrowed::NotNarrowed;
use hq_algebra::{Aggregate, Aggregates, Expr, Exprs, Keys16};
use hq_value::NoMemory;
use std::alloc::Global;

/// The place, in rows of so many columns, of the column that is taken as the i-th; the first place behind them where
/// none is.
fn place_from(columns: &[u16], width: u16, i: u16) -> u16
    ensures { result ≡ narrow.place_from columns.now width i }
{
    match columns.get(i as usize) {
        Some(place) => *place,
        None => width,
    }
}

/// The place among the columns that are taken of the one at this place, if it is taken.
pub fn position(columns: &[u16], width: u16, place: u16) -> Option<u16>
    ensures within { IfSome result (λ i. i < length columns.now) }
    ensures place { IfSome result (λ i. narrow.place_from columns.now width i ≡ place) }
{
    match columns.binary_search(&place) {
        Ok(at) => tried(columns, width, place, at),
        Err(_) => None,
    }
}

// The place that the search found. It is tried, so that nothing has to be known of the columns' order.
fn tried(columns: &[u16], width: u16, place: u16, at: usize) -> Option<u16>
    ensures within { IfSome result (λ i. i < length columns.now) }
    ensures place { IfSome result (λ i. narrow.place_from columns.now width i ≡ place) }
{
    if at >= columns.len() || at > 65_535 {
        return None;
    }
    let i = at as u16;
    if place_from(columns, width, i) != place {
        return None;
    }
    Some(i)
}

/// An expression over the columns that are taken, as one over all. The call is nested at most as deep as the expression.
pub fn widened(alloc: Global, columns: &[u16], width: u16, e: &Expr) -> Result<Expr, NoMemory>
    ensures { IfOk result (λ new. new ≡ spec.renamed (narrow.place_from columns.now width) e.now) }
{
    match e {
        Expr::Column(i) => Ok(Expr::Column(place_from(columns, width, *i))),
        Expr::Literal(value) => Ok(Expr::Literal(value.copy()?)),
        Expr::Arith { kind, left, right } => {
            let left = widened(alloc, columns, width, left.get())?;
            let right = widened(alloc, columns, width, right.get())?;
            arith(alloc, *kind, left, right)
        }
        Expr::Compare { kind, left, right } => {
            let left = widened(alloc, columns, width, left.get())?;
            let right = widened(alloc, columns, width, right.get())?;
            compare(alloc, *kind, left, right)
        }
        Expr::And { left, right } => {
            let left = widened(alloc, columns, width, left.get())?;
            let right = widened(alloc, columns, width, right.get())?;
            and(alloc, left, right)
        }
        Expr::Or { left, right } => {
            let left = widened(alloc, columns, width, left.get())?;
            let right = widened(alloc, columns, width, right.get())?;
            or(alloc, left, right)
        }
        Expr::Not(of) => {
            let of = widened(alloc, columns, width, of.get())?;
            not(alloc, of)
        }
        Expr::IsNull(of) => {
            let of = widened(alloc, columns, width, of.get())?;
            is_null(alloc, of)
        }
    }
}

fn narrow_column(columns: &[u16], width: u16, place: u16) -> Result<u16, NotNarrowed>
    ensures { IfOk result (λ i. narrow.place_from columns.now width i ≡ place) }
{
    match position(columns, width, place) {
        Some(i) => Ok(i),
        None => Err(NotNarrowed::Unfit),
    }
}

/// An expression over all columns, as one over those that are taken. Unfit where it names another. The call is nested at
/// most as deep as the expression.
pub fn narrow(alloc: Global, columns: &[u16], width: u16, e: &Expr) -> Result<Expr, NotNarrowed>
    ensures { IfOk result (λ new. spec.renamed (narrow.place_from columns.now width) new ≡ e.now) }
{
    match e {
        Expr::Column(place) => Ok(Expr::Column(narrow_column(columns, width, *place)?)),
        Expr::Literal(value) => Ok(Expr::Literal(value.copy()?)),
        Expr::Arith { kind, left, right } => {
            let left = narrow(alloc, columns, width, left.get())?;
            let right = narrow(alloc, columns, width, right.get())?;
            Ok(arith(alloc, *kind, left, right)?)
        }
        Expr::Compare { kind, left, right } => {
            let left = narrow(alloc, columns, width, left.get())?;
            let right = narrow(alloc, columns, width, right.get())?;
            Ok(compare(alloc, *kind, left, right)?)
        }
        Expr::And { left, right } => {
            let left = narrow(alloc, columns, width, left.get())?;
            let right = narrow(alloc, columns, width, right.get())?;
            Ok(and(alloc, left, right)?)
        }
        Expr::Or { left, right } => {
            let left = narrow(alloc, columns, width, left.get())?;
            let right = narrow(alloc, columns, width, right.get())?;
            Ok(or(alloc, left, right)?)
        }
        Expr::Not(of) => {
            let of = narrow(alloc, columns, width, of.get())?;
            Ok(not(alloc, of)?)
        }
        Expr::IsNull(of) => {
            let of = narrow(alloc, columns, width, of.get())?;
            Ok(is_null(alloc, of)?)
        }
    }
}

/// Expressions over all columns, as such ones over those that are taken.
pub fn narrow_exprs(
    alloc: Global,
    columns: &[u16],
    width: u16,
    exprs: &[Expr],
) -> Result<Exprs, NotNarrowed>
    ensures { IfOk result (λ new. map (spec.renamed (narrow.place_from columns.now width)) new ≡ exprs.now) }
{
    let mut new = Exprs::new(alloc);
    for e in exprs {
        new.push(narrow(alloc, columns, width, e)?)?;
    }
    Ok(new)
}

fn narrow_aggregate(
    alloc: Global,
    columns: &[u16],
    width: u16,
    aggregate: &Aggregate,
) -> Result<Aggregate, NotNarrowed>
    ensures { IfOk result (λ new. spec.renamed_aggregate (narrow.place_from columns.now width) new ≡ aggregate.now) }
{
    match aggregate {
        Aggregate::CountAll => Ok(Aggregate::CountAll),
        Aggregate::Count(e) => Ok(Aggregate::Count(narrow(alloc, columns, width, e)?)),
        Aggregate::Sum(e) => Ok(Aggregate::Sum(narrow(alloc, columns, width, e)?)),
        Aggregate::Min(e) => Ok(Aggregate::Min(narrow(alloc, columns, width, e)?)),
        Aggregate::Max(e) => Ok(Aggregate::Max(narrow(alloc, columns, width, e)?)),
    }
}

/// Aggregates over all columns, as such ones over those that are taken.
pub fn narrow_aggregates(
    alloc: Global,
    columns: &[u16],
    width: u16,
    aggregates: &[Aggregate],
) -> Result<Aggregates, NotNarrowed>
    ensures { IfOk result (λ new. map (spec.renamed_aggregate (narrow.place_from columns.now width)) new ≡ aggregates.now) }
{
    let mut new = Aggregates::new(alloc);
    for aggregate in aggregates {
        new.push(narrow_aggregate(alloc, columns, width, aggregate)?)?;
    }
    Ok(new)
}

/// Places of columns, as such ones among those that are taken.
pub fn narrow_places(
    alloc: Global,
    columns: &[u16],
    width: u16,
    places: &[u16],
) -> Result<Keys16, NotNarrowed>
    ensures { IfOk result (λ new. map (narrow.place_from columns.now width) new ≡ places.now) }
{
    let mut new = Keys16::new(alloc);
    for place in places {
        new.push(narrow_column(columns, width, *place)?)?;
    }
    Ok(new)
}
