//! What is found in an expression.
ghost use Rattle.std.specs.Prelude.{◌≡◌, false, map};
ghost use Rattle.hq_algebra.specs.Kinds as kinds;
ghost use Rattle.hq_bind.specs.Findings as spec;

use crate::scope::{SourceColumn, fit_count, is_there, place_of};
use hq_algebra::ExprKind;
use hq_expr::{AggregateKind, ColumnRef, Literal, SqlExpr};
use hq_value::Kind;

/// What is found in an expression, read over the columns of the sources and over those that rows are grouped by.
#[derive(Clone, Copy, Debug, PartialEq, Eq)]
pub struct Findings {
    /// The kind of what it gives; Wrong where an operand is of another kind than is asked.
    pub kind: ExprKind,
    /// A text of more than 1,000 bytes.
    pub long: bool,
    /// A reference that fits no column.
    pub unknown: bool,
    /// A reference that fits several.
    pub ambiguous: bool,
    /// A column outside of its aggregates that is not among the groups'.
    pub ungrouped: bool,
    /// An aggregate.
    pub aggregate: bool,
}

/// What is found in an expression. The call is nested at most as deep as the expression.
#[tactic(auto, using(crate::proofs::AtNodes::findings_nodes))]
pub fn found_in(columns: &[SourceColumn], groups: &[u16], e: &SqlExpr) -> Findings
    ensures { result ≡ spec.findings columns.now groups.now e.now }
{
    match e {
        SqlExpr::Literal(literal) => of_literal(literal),
        SqlExpr::Column(r) => of_column(columns, groups, r),
        SqlExpr::CountAll => of_aggregate(AggregateKind::Count, plain(ExprKind::Null)),
        SqlExpr::Aggregate { kind, of } => of_aggregate(*kind, found_in(columns, groups, of.get())),
        SqlExpr::Arith {
            kind: _,
            left,
            right,
        } => of_two(
            Kind::Int,
            found_in(columns, groups, left.get()),
            found_in(columns, groups, right.get()),
        ),
        SqlExpr::Compare {
            kind: _,
            left,
            right,
        } => of_compared(
            found_in(columns, groups, left.get()),
            found_in(columns, groups, right.get()),
        ),
        SqlExpr::And { left, right } => of_two(
            Kind::Bool,
            found_in(columns, groups, left.get()),
            found_in(columns, groups, right.get()),
        ),
        SqlExpr::Or { left, right } => of_two(
            Kind::Bool,
            found_in(columns, groups, left.get()),
            found_in(columns, groups, right.get()),
        ),
        SqlExpr::Not(of) => of_not(found_in(columns, groups, of.get())),
        SqlExpr::IsNull(of) => of_null_test(found_in(columns, groups, of.get())),
    }
}

/// Whether a text is longer than a value may be.
pub fn is_long(literal: &Literal) -> bool
    ensures { result ≡ spec.is_long literal.now }
{
    match literal {
        Literal::Text(text) => text.is_long(),
        Literal::Null => false,
        Literal::Bool(_) => false,
        Literal::Int(_) => false,
    }
}

/// The kind of a literal.
pub fn literal_kind(literal: &Literal) -> ExprKind
    ensures { result ≡ spec.literal_kind literal.now }
{
    match literal {
        Literal::Null => ExprKind::Null,
        Literal::Bool(_) => ExprKind::Of(Kind::Bool),
        Literal::Int(_) => ExprKind::Of(Kind::Int),
        Literal::Text(_) => ExprKind::Of(Kind::Text),
    }
}

fn of_literal(literal: &Literal) -> Findings
    ensures { result ≡ spec.of_literal literal.now }
{
    Findings {
        kind: literal_kind(literal),
        long: is_long(literal),
        unknown: false,
        ambiguous: false,
        ungrouped: false,
        aggregate: false,
    }
}

fn of_column(columns: &[SourceColumn], groups: &[u16], r: &ColumnRef) -> Findings
    ensures { result ≡ spec.of_column columns.now groups.now r.now }
{
    let place = place_of(columns, r);
    let count = fit_count(columns, r);
    Findings {
        kind: column_kind(columns, place),
        long: false,
        unknown: count == 0,
        ambiguous: 1 < count,
        ungrouped: !is_among(groups, place),
        aggregate: false,
    }
}

fn column_kind(columns: &[SourceColumn], place: Option<usize>) -> ExprKind
    ensures { result ≡ spec.column_kind columns.now place }
{
    match place {
        None => ExprKind::Wrong,
        Some(place) => match columns.get(place) {
            Some(column) => ExprKind::Of(column.kind),
            None => ExprKind::Wrong,
        },
    }
}

// The place is among these.
fn is_among(places: &[u16], place: Option<usize>) -> bool
    ensures { result ≡ spec.is_among places.now place }
{
    match place {
        None => false,
        Some(place) => is_there(places, place),
    }
}

fn plain(kind: ExprKind) -> Findings
    ensures { result ≡ spec.plain kind }
{
    Findings {
        kind,
        long: false,
        unknown: false,
        ambiguous: false,
        ungrouped: false,
        aggregate: false,
    }
}

fn kind_if(fits: bool, kind: Kind) -> ExprKind
    ensures { result ≡ kinds.kind_if fits kind }
{
    if fits {
        ExprKind::Of(kind)
    } else {
        ExprKind::Wrong
    }
}

// The kind of a column made of it: NULL alone, under MIN or MAX, is a text.
fn of_item(kind: Option<Kind>) -> ExprKind
    ensures { result ≡ spec.of_item kind }
{
    match kind {
        Some(kind) => ExprKind::Of(kind),
        None => ExprKind::Wrong,
    }
}

fn aggregate_kind(aggregate: AggregateKind, of: ExprKind) -> ExprKind
    ensures { result ≡ spec.aggregate_kind aggregate of }
{
    match aggregate {
        AggregateKind::Count => kind_if(of.is_some(), Kind::Int),
        AggregateKind::Sum => kind_if(of.is_of(Kind::Int), Kind::Int),
        AggregateKind::Min => of_item(of.of_item()),
        AggregateKind::Max => of_item(of.of_item()),
    }
}

// Of an aggregate over what this is found in.
#[tactic(auto, unfolding(crate::specs::Findings::of_aggregate))]
fn of_aggregate(aggregate: AggregateKind, of: Findings) -> Findings
    ensures { result ≡ spec.of_aggregate aggregate of }
{
    Findings {
        kind: aggregate_kind(aggregate, of.kind),
        long: of.long,
        unknown: of.unknown,
        ambiguous: of.ambiguous,
        ungrouped: false,
        aggregate: true,
    }
}

fn with_kind(kind: ExprKind, of: Findings) -> Findings
    ensures { result ≡ spec.with_kind kind of }
{
    Findings { kind, ..of }
}

fn both(kind: ExprKind, a: Findings, b: Findings) -> Findings
    ensures { result ≡ spec.both kind a b }
{
    Findings {
        kind,
        long: a.long || b.long,
        unknown: a.unknown || b.unknown,
        ambiguous: a.ambiguous || b.ambiguous,
        ungrouped: a.ungrouped || b.ungrouped,
        aggregate: a.aggregate || b.aggregate,
    }
}

// Of two operands that must be of this kind, as what they give.
#[tactic(auto, unfolding(crate::specs::Findings::of_two))]
fn of_two(kind: Kind, a: Findings, b: Findings) -> Findings
    ensures { result ≡ spec.of_two kind a b }
{
    let fit = a.kind.is_of(kind) && b.kind.is_of(kind);
    both(kind_if(fit, kind), a, b)
}

#[tactic(auto, unfolding(crate::specs::Findings::of_compared))]
fn of_compared(a: Findings, b: Findings) -> Findings
    ensures { result ≡ spec.of_compared a b }
{
    both(kind_if(a.kind.is_like(b.kind), Kind::Bool), a, b)
}

#[tactic(auto, unfolding(crate::specs::Findings::of_not))]
fn of_not(of: Findings) -> Findings
    ensures { result ≡ spec.of_not of }
{
    with_kind(kind_if(of.kind.is_of(Kind::Bool), Kind::Bool), of)
}

#[tactic(auto, unfolding(crate::specs::Findings::of_null_test))]
fn of_null_test(of: Findings) -> Findings
    ensures { result ≡ spec.of_null_test of }
{
    with_kind(kind_if(of.kind.is_some(), Kind::Bool), of)
}
