//! Values that need not be computed.
ghost use Rattle.std.specs.Prelude.{◌≡◌, IfSome};
ghost use Rattle.hq_algebra.specs.Eval.{eval};
ghost use Rattle.hq_algebra.specs.Outcome.{Is};

use hq_algebra::Expr;
use hq_value::Value;

/// The value of an expression where it stands in the row or in the expression. None where it has to be computed, and
/// where there is no such column.
#[inline]
pub fn standing<'a>(e: &'a Expr, row: &'a [Value]) -> Option<&'a Value>
    ensures { IfSome result (λ value. eval e.now row.now ≡ Is value.now) }
{
    match e {
        Expr::Column(place) => row.get(*place as usize),
        Expr::Literal(value) => Some(value),
        _ => None,
    }
}
