//! Which words and signs stand for which nodes.
ghost use Rattle.std.specs.Prelude.{◌≡◌};
ghost use Rattle.hq_expr.specs.Reading as spec;

use crate::cursor::Peek;
use crate::mark::Mark;
use crate::tree::AggregateKind;
use hq_value::{ArithKind, CompareKind};

#[inline(always)]
pub fn aggregates_at(peek: Peek) -> Option<AggregateKind>
    ensures { result ≡ spec.aggregates_at peek }
{
    match peek {
        Peek::Mark(Mark::Count) => Some(AggregateKind::Count),
        Peek::Mark(Mark::Sum) => Some(AggregateKind::Sum),
        Peek::Mark(Mark::Min) => Some(AggregateKind::Min),
        Peek::Mark(Mark::Max) => Some(AggregateKind::Max),
        _ => None,
    }
}

pub fn compares_at(peek: Peek) -> Option<CompareKind>
    ensures { result ≡ spec.compares_at peek }
{
    match peek {
        Peek::Mark(Mark::Equal) => Some(CompareKind::Equal),
        Peek::Mark(Mark::NotEqual) => Some(CompareKind::NotEqual),
        Peek::Mark(Mark::Less) => Some(CompareKind::Less),
        Peek::Mark(Mark::AtMost) => Some(CompareKind::AtMost),
        Peek::Mark(Mark::Greater) => Some(CompareKind::Greater),
        Peek::Mark(Mark::AtLeast) => Some(CompareKind::AtLeast),
        _ => None,
    }
}

#[inline(always)]
pub fn adds_at(peek: Peek) -> Option<ArithKind>
    ensures { result ≡ spec.adds_at peek }
{
    match peek {
        Peek::Mark(Mark::Plus) => Some(ArithKind::Plus),
        Peek::Mark(Mark::Minus) => Some(ArithKind::Minus),
        _ => None,
    }
}

#[inline(always)]
pub fn multiplies_at(peek: Peek) -> Option<ArithKind>
    ensures { result ≡ spec.multiplies_at peek }
{
    match peek {
        Peek::Mark(Mark::Star) => Some(ArithKind::Times),
        _ => None,
    }
}
