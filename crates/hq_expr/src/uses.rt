//! What stands in an expression.
ghost use Rattle.std.specs.Prelude.{◌≡◌};
ghost use Rattle.hq_expr.specs.Uses as spec;

use crate::tree::{AggregateKind, SqlExpr};

/// What stands in an expression.
#[derive(Clone, Copy, Debug, PartialEq, Eq)]
pub struct Uses {
    /// Some column.
    pub column: bool,
    /// A COUNT, or a SUM whose argument has no column.
    pub count: bool,
}

/// What stands in an expression.
pub fn uses_of(expr: &SqlExpr) -> Uses
    ensures { result ≡ spec.uses expr.now }
{
    match expr {
        SqlExpr::Literal(_) => none(),
        SqlExpr::Column(_) => Uses {
            column: true,
            count: false,
        },
        SqlExpr::CountAll => Uses {
            column: false,
            count: true,
        },
        SqlExpr::Aggregate { kind, of } => aggregated(*kind, uses_of(of.get())),
        SqlExpr::Arith {
            kind: _,
            left,
            right,
        } => either(uses_of(left.get()), uses_of(right.get())),
        SqlExpr::Compare {
            kind: _,
            left,
            right,
        } => either(uses_of(left.get()), uses_of(right.get())),
        SqlExpr::And { left, right } => either(uses_of(left.get()), uses_of(right.get())),
        SqlExpr::Or { left, right } => either(uses_of(left.get()), uses_of(right.get())),
        SqlExpr::Not(of) => uses_of(of.get()),
        SqlExpr::IsNull(of) => uses_of(of.get()),
    }
}

fn none() -> Uses
    ensures { result ≡ spec.none }
{
    Uses {
        column: false,
        count: false,
    }
}

#[tactic(auto, unfolding(crate::specs::Uses::either))]
fn either(a: Uses, b: Uses) -> Uses
    ensures { result ≡ spec.either a b }
{
    Uses {
        column: a.column || b.column,
        count: a.count || b.count,
    }
}

#[tactic(auto, unfolding(crate::specs::Uses::aggregated))]
fn aggregated(kind: AggregateKind, of: Uses) -> Uses
    ensures { result ≡ spec.aggregated kind of }
{
    let count = match kind {
        AggregateKind::Count => true,
        AggregateKind::Sum => !of.column,
        AggregateKind::Min => of.count,
        AggregateKind::Max => of.count,
    };
    Uses {
        column: of.column,
        count,
    }
}
