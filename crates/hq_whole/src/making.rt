//! Expressions and operators of their parts.
ghost use Rattle.std.specs.Prelude.{◌≡◌, IfOk};

use hq_algebra::{ArithKind, CompareKind, Expr, Keys16, Op, copy_keys, copy_kinds};
use hq_value::{Kinds, NoMemory};
use sqlite_items::Boxed;
use std::alloc::Global;

pub fn arith(alloc: Global, kind: ArithKind, left: Expr, right: Expr) -> Result<Expr, NoMemory>
    ensures { IfOk result (λ e. e ≡ Expr.Arith kind left right) }
{
    let left = Boxed::new(alloc, left)?;
    let right = Boxed::new(alloc, right)?;
    Ok(Expr::Arith { kind, left, right })
}

pub fn compare(alloc: Global, kind: CompareKind, left: Expr, right: Expr) -> Result<Expr, NoMemory>
    ensures { IfOk result (λ e. e ≡ Expr.Compare kind left right) }
{
    let left = Boxed::new(alloc, left)?;
    let right = Boxed::new(alloc, right)?;
    Ok(Expr::Compare { kind, left, right })
}

pub fn and(alloc: Global, left: Expr, right: Expr) -> Result<Expr, NoMemory>
    ensures { IfOk result (λ e. e ≡ Expr.And left right) }
{
    let left = Boxed::new(alloc, left)?;
    let right = Boxed::new(alloc, right)?;
    Ok(Expr::And { left, right })
}

pub fn or(alloc: Global, left: Expr, right: Expr) -> Result<Expr, NoMemory>
    ensures { IfOk result (λ e. e ≡ Expr.Or left right) }
{
    let left = Boxed::new(alloc, left)?;
    let right = Boxed::new(alloc, right)?;
    Ok(Expr::Or { left, right })
}

pub fn not(alloc: Global, of: Expr) -> Result<Expr, NoMemory>
    ensures { IfOk result (λ e. e ≡ Expr.Not of) }
{
    let of = Boxed::new(alloc, of)?;
    Ok(Expr::Not(of))
}

pub fn is_null(alloc: Global, of: Expr) -> Result<Expr, NoMemory>
    ensures { IfOk result (λ e. e ≡ Expr.IsNull of) }
{
    let of = Boxed::new(alloc, of)?;
    Ok(Expr::IsNull(of))
}

/// The rows of an operator at which a condition is true.
pub fn filter(alloc: Global, cond: Expr, input: Op) -> Result<Op, NoMemory>
    ensures { IfOk result (λ op. op ≡ Op.Filter cond input) }
{
    let input = Boxed::new(alloc, input)?;
    Ok(Op::Filter { cond, input })
}

/// The rows that a slice sent.
pub fn received(alloc: Global, slice: u8, kinds: &Kinds) -> Result<Op, NoMemory>
    ensures { IfOk result (λ op. op ≡ Op.Receive slice kinds.now) }
{
    let kinds = copy_kinds(alloc, kinds.as_slice())?;
    Ok(Op::Receive { slice, kinds })
}

/// The pairs of rows of two operators whose keys are equal.
pub fn join(
    alloc: Global,
    left_keys: &Keys16,
    right_keys: &Keys16,
    left: Op,
    right: Op,
) -> Result<Op, NoMemory>
    ensures { IfOk result (λ op. op ≡ Op.Join left_keys.now right_keys.now left right) }
{
    let left_keys = copy_keys(alloc, left_keys.as_slice())?;
    let right_keys = copy_keys(alloc, right_keys.as_slice())?;
    by_keys(alloc, left_keys, right_keys, left, right)
}

/// The same, by keys that are given away.
pub fn by_keys(
    alloc: Global,
    left_keys: Keys16,
    right_keys: Keys16,
    left: Op,
    right: Op,
) -> Result<Op, NoMemory>
    ensures { IfOk result (λ op. op ≡ Op.Join left_keys right_keys left right) }
{
    let left = Boxed::new(alloc, left)?;
    let right = Boxed::new(alloc, right)?;
    Ok(Op::Join {
        left_keys,
        right_keys,
        left,
        right,
    })
}
