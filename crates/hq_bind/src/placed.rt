//! Expressions with their columns by place.
ghost use Rattle.std.specs.Prelude.{◌≡◌, map, IfOk};
ghost use Rattle.hq_bind.specs.Bound as spec;

use crate::scope::{SourceColumn, kept, place_of};
use crate::targets::value_of;
use hq_algebra::{Expr, Exprs};
use hq_expr::{ColumnRef, SqlExpr};
use hq_sql::Item;
use hq_value::{NoMemory, Value};
use sqlite_items::Boxed;
use std::alloc::Global;

/// An expression over the columns of the sources. The call is nested at most as deep as the expression.
#[tactic(auto, using(crate::proofs::AtNodes::placed_nodes))]
pub fn placed(alloc: Global, columns: &[SourceColumn], e: &SqlExpr) -> Result<Expr, NoMemory>
    ensures { IfOk result (λ new. new ≡ spec.placed columns.now e.now) }
{
    match e {
        SqlExpr::Literal(literal) => Ok(Expr::Literal(value_of(literal)?)),
        SqlExpr::Column(r) => Ok(Expr::Column(placed_column(columns, r)?)),
        SqlExpr::CountAll => Ok(Expr::Literal(Value::Null)),
        SqlExpr::Aggregate { .. } => Ok(Expr::Literal(Value::Null)),
        SqlExpr::Arith { kind, left, right } => Ok(Expr::Arith {
            kind: *kind,
            left: Boxed::new(alloc, placed(alloc, columns, left.get())?)?,
            right: Boxed::new(alloc, placed(alloc, columns, right.get())?)?,
        }),
        SqlExpr::Compare { kind, left, right } => Ok(Expr::Compare {
            kind: *kind,
            left: Boxed::new(alloc, placed(alloc, columns, left.get())?)?,
            right: Boxed::new(alloc, placed(alloc, columns, right.get())?)?,
        }),
        SqlExpr::And { left, right } => Ok(Expr::And {
            left: Boxed::new(alloc, placed(alloc, columns, left.get())?)?,
            right: Boxed::new(alloc, placed(alloc, columns, right.get())?)?,
        }),
        SqlExpr::Or { left, right } => Ok(Expr::Or {
            left: Boxed::new(alloc, placed(alloc, columns, left.get())?)?,
            right: Boxed::new(alloc, placed(alloc, columns, right.get())?)?,
        }),
        SqlExpr::Not(of) => Ok(Expr::Not(Boxed::new(alloc, placed(alloc, columns, of.get())?)?)),
        SqlExpr::IsNull(of) => Ok(Expr::IsNull(Boxed::new(
            alloc,
            placed(alloc, columns, of.get())?,
        )?)),
    }
}

// The place that a reference names; 0 where it names none, which is refused.
fn placed_column(columns: &[SourceColumn], r: &ColumnRef) -> Result<u16, NoMemory>
    ensures { IfOk result (λ place. place ≡ spec.placed_column columns.now r.now) }
{
    match place_of(columns, r) {
        None => Ok(0),
        Some(place) => kept(place),
    }
}

/// Conditions over the columns of the sources.
pub fn placed_conds(
    alloc: Global,
    columns: &[SourceColumn],
    conds: &[SqlExpr],
) -> Result<Exprs, NoMemory>
    ensures { IfOk result (λ new. new ≡ map (spec.placed columns.now) conds.now) }
{
    let mut new = Exprs::new(alloc);
    for cond in conds {
        new.push(placed(alloc, columns, cond)?)?;
    }
    Ok(new)
}

/// The items of a select list over the columns of the sources.
pub fn placed_items(
    alloc: Global,
    columns: &[SourceColumn],
    items: &[Item],
) -> Result<Exprs, NoMemory>
    ensures { IfOk result (λ new. new ≡ map (spec.placed_item columns.now) items.now) }
{
    let mut new = Exprs::new(alloc);
    for item in items {
        new.push(placed(alloc, columns, &item.expr)?)?;
    }
    Ok(new)
}
