//! The kinds of what expressions and aggregates give.
ghost use Rattle.std.specs.Prelude.{◌≡◌, ◌&&◌, List, slice_get};
ghost use Rattle.hq_algebra.specs.Kinds as spec;

use crate::{Aggregate, Expr};
use hq_value::{Kind, Value};

/// The kind of an expression's values.
#[derive(Clone, Copy, Debug, PartialEq, Eq)]
pub enum ExprKind {
    Of(Kind),
    /// NULL alone, which can stand anywhere.
    Null,
    /// A column is out of range, or an operand is of another kind than is asked.
    Wrong,
}

impl ExprKind {
    /// It can stand where the kind is asked.
    pub fn is_of(self, kind: Kind) -> bool
        ensures { result ≡ spec.is_of kind self }
    {
        match self {
            ExprKind::Of(found) => is_same(found, kind),
            ExprKind::Null => true,
            ExprKind::Wrong => false,
        }
    }

    /// The two can be compared: they are of one kind, or one is NULL.
    pub fn is_like(self, other: ExprKind) -> bool
        ensures { result ≡ spec.are_alike self other }
    {
        match self {
            ExprKind::Of(kind) => other.is_of(kind),
            ExprKind::Null => other.is_some(),
            ExprKind::Wrong => false,
        }
    }

    /// It is not wrong.
    pub fn is_some(self) -> bool
        ensures { result ≡ spec.has_kind self }
    {
        !matches!(self, ExprKind::Wrong)
    }

    /// The kind of a column made of it: NULL alone makes a Text.
    pub fn of_item(self) -> Option<Kind>
        ensures { result ≡ spec.item_kind self }
    {
        match self {
            ExprKind::Of(kind) => Some(kind),
            ExprKind::Null => Some(Kind::Text),
            ExprKind::Wrong => None,
        }
    }
}

fn is_same(a: Kind, b: Kind) -> bool
    ensures { result ≡ spec.same_kind a b }
{
    a == b
}

/// The two lists are one.
pub fn are_same(a: &[Kind], b: &[Kind]) -> bool
    ensures { result ≡ spec.same_kinds a.now b.now }
{
    a == b
}

/// The kind of an expression over columns of these kinds. The call is nested at most as deep as the expression.
pub fn expr_kind(kinds: &[Kind], e: &Expr) -> ExprKind
    ensures { result ≡ spec.expr_kind kinds.now e.now }
{
    match e {
        Expr::Column(place) => column_kind(kinds, *place),
        Expr::Literal(value) => literal_kind(value),
        Expr::Arith { left, right, .. } => of_two(
            Kind::Int,
            expr_kind(kinds, left.get()),
            expr_kind(kinds, right.get()),
        ),
        Expr::Compare { left, right, .. } => {
            of_compared(expr_kind(kinds, left.get()), expr_kind(kinds, right.get()))
        }
        Expr::And { left, right } => of_two(
            Kind::Bool,
            expr_kind(kinds, left.get()),
            expr_kind(kinds, right.get()),
        ),
        Expr::Or { left, right } => of_two(
            Kind::Bool,
            expr_kind(kinds, left.get()),
            expr_kind(kinds, right.get()),
        ),
        Expr::Not(of) => of_one(Kind::Bool, expr_kind(kinds, of.get())),
        Expr::IsNull(of) => of_tested(expr_kind(kinds, of.get())),
    }
}

fn column_kind(kinds: &[Kind], place: u16) -> ExprKind
    ensures { result ≡ spec.column_kind (slice_get kinds.now place) }
{
    match kinds.get(place as usize) {
        Some(kind) => ExprKind::Of(*kind),
        None => ExprKind::Wrong,
    }
}

fn literal_kind(value: &Value) -> ExprKind
    ensures { result ≡ spec.literal_kind value.now }
{
    match value {
        Value::Bool(_) => ExprKind::Of(Kind::Bool),
        Value::Int(_) => ExprKind::Of(Kind::Int),
        Value::Text(_) => ExprKind::Of(Kind::Text),
        Value::Null => ExprKind::Null,
    }
}

fn kind_if(fits: bool, kind: Kind) -> ExprKind
    ensures { result ≡ spec.kind_if fits kind }
{
    if fits {
        ExprKind::Of(kind)
    } else {
        ExprKind::Wrong
    }
}

fn of_two(kind: Kind, left: ExprKind, right: ExprKind) -> ExprKind
    ensures { result ≡ spec.kind_if (spec.is_of kind left && spec.is_of kind right) kind }
{
    kind_if(left.is_of(kind) && right.is_of(kind), kind)
}

fn of_one(kind: Kind, of: ExprKind) -> ExprKind
    ensures { result ≡ spec.kind_if (spec.is_of kind of) kind }
{
    kind_if(of.is_of(kind), kind)
}

fn of_tested(of: ExprKind) -> ExprKind
    ensures { result ≡ spec.kind_if (spec.has_kind of) Kind.Bool }
{
    kind_if(of.is_some(), Kind::Bool)
}

fn of_compared(left: ExprKind, right: ExprKind) -> ExprKind
    ensures { result ≡ spec.kind_if (spec.are_alike left right) Kind.Bool }
{
    kind_if(left.is_like(right), Kind::Bool)
}

/// The kind of an aggregate's value over columns of these kinds. None where its expression does not fit.
pub fn aggregate_kind(kinds: &[Kind], aggregate: &Aggregate) -> Option<Kind>
    ensures { result ≡ spec.aggregate_kind kinds.now aggregate.now }
{
    match aggregate {
        Aggregate::CountAll => Some(Kind::Int),
        Aggregate::Count(e) => some_if(expr_kind(kinds, e).is_some(), Kind::Int),
        Aggregate::Sum(e) => some_if(expr_kind(kinds, e).is_of(Kind::Int), Kind::Int),
        Aggregate::Min(e) => expr_kind(kinds, e).of_item(),
        Aggregate::Max(e) => expr_kind(kinds, e).of_item(),
    }
}

fn some_if(fits: bool, kind: Kind) -> Option<Kind>
    ensures { result ≡ spec.some_if fits kind }
{
    if fits { Some(kind) } else { None }
}
