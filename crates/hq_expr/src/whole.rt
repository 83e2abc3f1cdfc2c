//! Items, conditions and values, each with its limit of operators.
ghost use Rattle.hq_expr.specs.Reader.{Reads};
ghost use Rattle.hq_expr.specs.Parts as spec;

use crate::conds::cond;
use crate::cursor::Cursor;
use crate::fault::ParseFault;
use crate::leaves::literal;
use crate::sums::sum;
use crate::tree::{Literal, SqlExpr};
use std::alloc::Global;

/// The most factors, or negations and parentheses, in one another. It never refuses before the limit of operators
/// does, since each of them spends one.
const DEPTH: u16 = 257;

/// The sum of an item.
#[tactic(auto, unfolding(crate::specs::Parts::item_sum))]
pub fn item_sum(alloc: Global, cursor: &mut Cursor) -> Result<SqlExpr, ParseFault>
    ensures { Reads (spec.item_sum cursor.old) result cursor.new }
{
    cursor.renew();
    sum(alloc, cursor, DEPTH, true)
}

/// A condition, in which aggregates may stand where `aggs` is true.
#[tactic(auto, unfolding(crate::specs::Parts::condition))]
pub fn condition(alloc: Global, cursor: &mut Cursor, aggs: bool) -> Result<SqlExpr, ParseFault>
    ensures { Reads (spec.condition aggs cursor.old) result cursor.new }
{
    cursor.renew();
    cond(alloc, cursor, DEPTH, aggs)
}

/// A literal.
#[tactic(auto, unfolding(crate::specs::Parts::value))]
pub fn value(cursor: &mut Cursor) -> Result<Literal, ParseFault>
    ensures { Reads (spec.value cursor.old) result cursor.new }
{
    cursor.renew();
    literal(cursor)
}
