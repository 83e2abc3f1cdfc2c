//! The nodes of a tree.
ghost use Rattle.std.specs.Prelude.{◌≡◌, IfOk};

use crate::tree::{AggregateKind, SqlExpr};
use hq_value::{ArithKind, CompareKind};
use sqlite_items::Boxed;
use std::alloc::{AllocError, Global};

#[inline(always)]
pub fn arith(alloc: Global, kind: ArithKind, a: SqlExpr, b: SqlExpr) -> Result<SqlExpr, AllocError>
    ensures { IfOk result (λ e. e ≡ SqlExpr.Arith kind a b) }
{
    Ok(SqlExpr::Arith {
        kind,
        left: Boxed::new(alloc, a)?,
        right: Boxed::new(alloc, b)?,
    })
}

pub fn compare(
    alloc: Global,
    kind: CompareKind,
    a: SqlExpr,
    b: SqlExpr,
) -> Result<SqlExpr, AllocError>
    ensures { IfOk result (λ e. e ≡ SqlExpr.Compare kind a b) }
{
    Ok(SqlExpr::Compare {
        kind,
        left: Boxed::new(alloc, a)?,
        right: Boxed::new(alloc, b)?,
    })
}

pub fn and(alloc: Global, a: SqlExpr, b: SqlExpr) -> Result<SqlExpr, AllocError>
    ensures { IfOk result (λ e. e ≡ SqlExpr.And a b) }
{
    Ok(SqlExpr::And {
        left: Boxed::new(alloc, a)?,
        right: Boxed::new(alloc, b)?,
    })
}

pub fn or(alloc: Global, a: SqlExpr, b: SqlExpr) -> Result<SqlExpr, AllocError>
    ensures { IfOk result (λ e. e ≡ SqlExpr.Or a b) }
{
    Ok(SqlExpr::Or {
        left: Boxed::new(alloc, a)?,
        right: Boxed::new(alloc, b)?,
    })
}

pub fn not(alloc: Global, a: SqlExpr) -> Result<SqlExpr, AllocError>
    ensures { IfOk result (λ e. e ≡ SqlExpr.Not a) }
{
    Ok(SqlExpr::Not(Boxed::new(alloc, a)?))
}

pub fn is_null(alloc: Global, a: SqlExpr) -> Result<SqlExpr, AllocError>
    ensures { IfOk result (λ e. e ≡ SqlExpr.IsNull a) }
{
    Ok(SqlExpr::IsNull(Boxed::new(alloc, a)?))
}

pub fn aggregate_of(alloc: Global, kind: AggregateKind, a: SqlExpr) -> Result<SqlExpr, AllocError>
    ensures { IfOk result (λ e. e ≡ SqlExpr.Aggregate kind a) }
{
    Ok(SqlExpr::Aggregate {
        kind,
        of: Boxed::new(alloc, a)?,
    })
}
