//! The columns that a query names. Nothing is said of the marks that are set here, since what is made by them is tried
//! before it is taken.
use crate::not_narrowed::NotNarrowed;
use hq_algebra::{Aggregate, Expr, Query};
use hq_value::NoMemory;
use std::alloc::Global;

/// Of each of so many columns of a query's sources whether the query names it.
pub fn named_columns(alloc: Global, query: &Query, columns: u16) -> Result<Vec<bool>, NoMemory> {
    let mut named = vec![in alloc; false; columns as usize]?;
    mark_exprs(&mut named, query.conds.as_slice());
    mark_places(&mut named, query.groups.as_slice());
    mark_aggregates(&mut named, query.aggregates.as_slice());
    if !query.grouped {
        mark_exprs(&mut named, query.items.as_slice());
    }
    Ok(named)
}

fn mark(named: &mut [bool], place: u16) {
    if let Some(mark) = named.get_mut(place as usize) {
        *mark = true;
    }
}

fn mark_places(named: &mut [bool], places: &[u16]) {
    for place in places {
        mark(named, *place);
    }
}

fn mark_exprs(named: &mut [bool], exprs: &[Expr]) {
    for e in exprs {
        mark_expr(named, e);
    }
}

// The call is nested at most as deep as the expression.
fn mark_expr(named: &mut [bool], e: &Expr) {
    match e {
        Expr::Column(place) => mark(named, *place),
        Expr::Literal(_) => {}
        Expr::Arith { left, right, .. } => {
            mark_expr(named, left.get());
            mark_expr(named, right.get());
        }
        Expr::Compare { left, right, .. } => {
            mark_expr(named, left.get());
            mark_expr(named, right.get());
        }
        Expr::And { left, right } => {
            mark_expr(named, left.get());
            mark_expr(named, right.get());
        }
        Expr::Or { left, right } => {
            mark_expr(named, left.get());
            mark_expr(named, right.get());
        }
        Expr::Not(of) => mark_expr(named, of.get()),
        Expr::IsNull(of) => mark_expr(named, of.get()),
    }
}

fn mark_aggregates(named: &mut [bool], aggregates: &[Aggregate]) {
    for aggregate in aggregates {
        mark_aggregate(named, aggregate);
    }
}

fn mark_aggregate(named: &mut [bool], aggregate: &Aggregate) {
    match aggregate {
        Aggregate::CountAll => {}
        Aggregate::Count(e) => mark_expr(named, e),
        Aggregate::Sum(e) => mark_expr(named, e),
        Aggregate::Min(e) => mark_expr(named, e),
        Aggregate::Max(e) => mark_expr(named, e),
    }
}

/// The marks of one source: its columns are so many, and the first of them stands at place `at`. Its first column is
/// marked where no other is, so that each source keeps one.
pub fn marks_of(
    alloc: Global,
    named: &[bool],
    at: usize,
    columns: usize,
) -> Result<Vec<bool>, NotNarrowed> {
    let Some(own) = part(named, at, columns) else {
        return Err(NotNarrowed::Unfit);
    };
    if own.contains(&true) {
        return Ok(own.to_vec(alloc)?);
    }
    first_marked(alloc, own)
}

fn part(named: &[bool], at: usize, columns: usize) -> Option<&[bool]> {
    named.get(at..)?.get(..columns)
}

fn first_marked(alloc: Global, own: &[bool]) -> Result<Vec<bool>, NotNarrowed> {
    if own.is_empty() {
        return Err(NotNarrowed::Unfit);
    }
    let mut marks = own.to_vec(alloc)?;
    marks[0] = true;
    Ok(marks)
}
