//! Expressions of their parts.
ghost use Rattle.std.specs.Prelude.{◌≡◌, IfOk};

use hq_algebra::{ArithKind, CompareKind, Expr};
use hq_value::NoMemory;
use sqlite_items::Boxed;
use std::alloc::Global;

pub fn arith(alloc: Global, kind: ArithKind, left: Expr, right: Expr) -> Result<Expr, NoMemory>
    ensures { IfOk result (λ e. e ≡ Expr.Arith kind left right) }
{
    let left = Boxed::new(alloc, left)?;
    let right = Boxed::new(alloc, right)?;
    Ok(Expr::Arith { kind, left, right })
}

pub fn compare(alloc: Global, kind: CompareKind, left: Expr, right: Expr) -> Result<Expr, NoMemory>
    ensures { IfOk result (λ e. e ≡ Expr.Compare kind left right) }
{
    let left = Boxed::new(alloc, left)?;
    let right = Boxed::new(alloc, right)?;
    Ok(Expr::Compare { kind, left, right })
}

pub fn and(alloc: Global, left: Expr, right: Expr) -> Result<Expr, NoMemory>
    ensures { IfOk result (λ e. e ≡ Expr.And left right) }
{
    let left = Boxed::new(alloc, left)?;
    let right = Boxed::new(alloc, right)?;
    Ok(Expr::And { left, right })
}

pub fn or(alloc: Global, left: Expr, right: Expr) -> Result<Expr, NoMemory>
    ensures { IfOk result (λ e. e ≡ Expr.Or left right) }
{
    let left = Boxed::new(alloc, left)?;
    let right = Boxed::new(alloc, right)?;
    Ok(Expr::Or { left, right })
}

pub fn not(alloc: Global, of: Expr) -> Result<Expr, NoMemory>
    ensures { IfOk result (λ e. e ≡ Expr.Not of) }
{
    let of = Boxed::new(alloc, of)?;
    Ok(Expr::Not(of))
}

pub fn is_null(alloc: Global, of: Expr) -> Result<Expr, NoMemory>
    ensures { IfOk result (λ e. e ≡ Expr.IsNull of) }
{
    let of = Boxed::new(alloc, of)?;
    Ok(Expr::IsNull(of))
}
