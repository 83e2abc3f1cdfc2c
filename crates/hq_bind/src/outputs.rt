//! Expressions over the columns of groups and their aggregates.
ghost use Rattle.std.specs.Prelude.{◌≡◌, ◌+◌, ◌++◌, ◌∷◌, [], unwrap_or, IfOk, OnOk};
ghost use Rattle.hq_sql.specs.Grammar.{given};
ghost use Rattle.hq_bind.specs.Bound as spec;
ghost use Rattle.hq_bind.specs.Reading.{item_exprs};

use crate::bound::Outputs;
use crate::placed::{placed, placed_items};
use crate::scope::{SourceColumn, kept, place_of};
use crate::targets::value_of;
use hq_algebra::{Aggregate, Aggregates, Expr, Exprs};
use hq_expr::{AggregateKind, ColumnRef, SqlExpr};
use hq_sql::Item;
use hq_value::NoMemory;
use sqlite_items::Boxed;
use std::alloc::Global;

/// The output columns, the aggregates, and HAVING.
pub fn outputs(
    alloc: Global,
    columns: &[SourceColumn],
    groups: &[u16],
    grouped: bool,
    items: &[Item],
    having: &Option<SqlExpr>,
) -> Result<Outputs, NoMemory>
    ensures { IfOk result (λ outputs. outputs ≡ spec.outputs columns.now groups.now grouped items.now (given having.now)) }
{
    if grouped {
        return grouped_outputs(alloc, columns, groups, items, having);
    }
    plain_outputs(alloc, columns, items)
}

fn plain_outputs(
    alloc: Global,
    columns: &[SourceColumn],
    items: &[Item],
) -> Result<Outputs, NoMemory>
    ensures { IfOk result (λ outputs. outputs ≡ spec.plain_outputs columns.now items.now) }
{
    let items = placed_items(alloc, columns, items)?;
    Ok(Outputs {
        items,
        aggregates: Aggregates::new(alloc),
        having: Exprs::new(alloc),
    })
}

fn grouped_outputs(
    alloc: Global,
    columns: &[SourceColumn],
    groups: &[u16],
    items: &[Item],
    having: &Option<SqlExpr>,
) -> Result<Outputs, NoMemory>
    ensures { IfOk result (λ outputs. outputs ≡ spec.grouped_outputs columns.now groups.now items.now (given having.now)) }
{
    let mut aggregates = Aggregates::new(alloc);
    let items = items_over(alloc, columns, groups, &mut aggregates, items)?;
    let having = having_over(alloc, columns, groups, &mut aggregates, having)?;
    Ok(Outputs {
        items,
        aggregates,
        having,
    })
}

fn items_over(
    alloc: Global,
    columns: &[SourceColumn],
    groups: &[u16],
    aggregates: &mut Aggregates,
    items: &[Item],
) -> Result<Exprs, NoMemory>
    ensures items { IfOk result (λ new. new ≡ spec.all_over columns.now groups.now aggregates.old (item_exprs items.now)) }
    ensures aggregates { OnOk result (aggregates.new ≡ aggregates.old ++ spec.all_aggregates columns.now (item_exprs items.now)) }
{
    let mut new = Exprs::new(alloc);
    for item in items {
        let e = over_groups(alloc, columns, groups, aggregates, &item.expr)?;
        new.push(e)?;
    }
    Ok(new)
}

fn having_over(
    alloc: Global,
    columns: &[SourceColumn],
    groups: &[u16],
    aggregates: &mut Aggregates,
    having: &Option<SqlExpr>,
) -> Result<Exprs, NoMemory>
    ensures having { IfOk result (λ new. new ≡ spec.all_over columns.now groups.now aggregates.old (given having.now)) }
    ensures aggregates { OnOk result (aggregates.new ≡ aggregates.old ++ spec.all_aggregates columns.now (given having.now)) }
{
    match having {
        None => Ok(Exprs::new(alloc)),
        Some(cond) => {
            let e = over_groups(alloc, columns, groups, aggregates, cond)?;
            one(alloc, e)
        }
    }
}

fn one(alloc: Global, e: Expr) -> Result<Exprs, NoMemory>
    ensures { IfOk result (λ new. new ≡ e ∷ []) }
{
    let mut new = Exprs::new(alloc);
    new.push(e)?;
    Ok(new)
}

// An expression over the groups' columns and then the aggregates. Its own are put behind those that stand before them. The
// call is nested at most as deep as the expression.
#[tactic(auto, using(crate::proofs::AtNodes::over_nodes, crate::proofs::AtNodes::aggregates_nodes))]
fn over_groups(
    alloc: Global,
    columns: &[SourceColumn],
    groups: &[u16],
    aggregates: &mut Aggregates,
    e: &SqlExpr,
) -> Result<Expr, NoMemory>
    ensures expr { IfOk result (λ new. new ≡ spec.over_groups columns.now groups.now aggregates.old e.now) }
    ensures aggregates { OnOk result (aggregates.new ≡ aggregates.old ++ spec.aggregates_in columns.now e.now) }
{
    match e {
        SqlExpr::Literal(literal) => Ok(Expr::Literal(value_of(literal)?)),
        SqlExpr::Column(r) => Ok(Expr::Column(group_column(columns, groups, r)?)),
        SqlExpr::CountAll => with_aggregate(groups, aggregates, Aggregate::CountAll),
        SqlExpr::Aggregate { kind, of } => {
            let of = placed(alloc, columns, of.get())?;
            with_aggregate(groups, aggregates, aggregate_of(*kind, of))
        }
        SqlExpr::Arith { kind, left, right } => {
            let left = over_groups(alloc, columns, groups, aggregates, left.get())?;
            let right = over_groups(alloc, columns, groups, aggregates, right.get())?;
            Ok(Expr::Arith {
                kind: *kind,
                left: Boxed::new(alloc, left)?,
                right: Boxed::new(alloc, right)?,
            })
        }
        SqlExpr::Compare { kind, left, right } => {
            let left = over_groups(alloc, columns, groups, aggregates, left.get())?;
            let right = over_groups(alloc, columns, groups, aggregates, right.get())?;
            Ok(Expr::Compare {
                kind: *kind,
                left: Boxed::new(alloc, left)?,
                right: Boxed::new(alloc, right)?,
            })
        }
        SqlExpr::And { left, right } => {
            let left = over_groups(alloc, columns, groups, aggregates, left.get())?;
            let right = over_groups(alloc, columns, groups, aggregates, right.get())?;
            Ok(Expr::And {
                left: Boxed::new(alloc, left)?,
                right: Boxed::new(alloc, right)?,
            })
        }
        SqlExpr::Or { left, right } => {
            let left = over_groups(alloc, columns, groups, aggregates, left.get())?;
            let right = over_groups(alloc, columns, groups, aggregates, right.get())?;
            Ok(Expr::Or {
                left: Boxed::new(alloc, left)?,
                right: Boxed::new(alloc, right)?,
            })
        }
        SqlExpr::Not(of) => {
            let of = over_groups(alloc, columns, groups, aggregates, of.get())?;
            Ok(Expr::Not(Boxed::new(alloc, of)?))
        }
        SqlExpr::IsNull(of) => {
            let of = over_groups(alloc, columns, groups, aggregates, of.get())?;
            Ok(Expr::IsNull(Boxed::new(alloc, of)?))
        }
    }
}

// The place of a reference's column among the groups'; 0 where it is not there, which is refused.
fn group_column(columns: &[SourceColumn], groups: &[u16], r: &ColumnRef) -> Result<u16, NoMemory>
    ensures { IfOk result (λ place. place ≡ spec.group_column columns.now groups.now r.now) }
{
    let column = source_place(columns, r);
    group_at(groups, column)
}

fn source_place(columns: &[SourceColumn], r: &ColumnRef) -> usize
    ensures { result ≡ spec.placed_column columns.now r.now }
{
    match place_of(columns, r) {
        None => 0,
        Some(place) => place,
    }
}

fn group_at(groups: &[u16], column: usize) -> Result<u16, NoMemory>
    ensures { IfOk result (λ place. place ≡ unwrap_or (spec.group_place groups.now column) 0) }
{
    match place_among(groups, column) {
        None => Ok(0),
        Some(place) => kept(place),
    }
}

fn place_among(groups: &[u16], column: usize) -> Option<usize>
    ensures { result ≡ spec.group_place groups.now column }
{
    groups.iter().position(|group| *group as usize == column)
}

// Adds an aggregate, and gives the column that it is behind the groups'.
fn with_aggregate(
    groups: &[u16],
    aggregates: &mut Aggregates,
    aggregate: Aggregate,
) -> Result<Expr, NoMemory>
    ensures expr { IfOk result (λ new. new ≡ spec.aggregate_column groups.now aggregates.old) }
    ensures aggregates { OnOk result (aggregates.new ≡ aggregates.old ++ aggregate ∷ []) }
{
    let place = behind(groups.len(), aggregates.len())?;
    aggregates.push(aggregate)?;
    Ok(Expr::Column(place))
}

fn behind(groups: usize, before: usize) -> Result<u16, NoMemory>
    ensures { IfOk result (λ place. place ≡ groups + before) }
{
    match groups.checked_add(before) {
        None => Err(NoMemory),
        Some(place) => kept(place),
    }
}

fn aggregate_of(kind: AggregateKind, of: Expr) -> Aggregate
    ensures { result ≡ spec.aggregate_of kind of }
{
    match kind {
        AggregateKind::Count => Aggregate::Count(of),
        AggregateKind::Sum => Aggregate::Sum(of),
        AggregateKind::Min => Aggregate::Min(of),
        AggregateKind::Max => Aggregate::Max(of),
    }
}
