//! Conditions.
ghost use Rattle.std.specs.Prelude.{false};
ghost use Rattle.hq_expr.specs.Reader.{Reads, peek};
ghost use Rattle.hq_expr.specs.Reading as spec;

use crate::cursor::{Cursor, Peek, Start, start_of};
use crate::fault::ParseFault;
use crate::kinds::compares_at;
use crate::mark::Mark;
use crate::nodes::{and, compare, is_null, not, or};
use crate::sums::operand;
use crate::tree::SqlExpr;
use std::alloc::Global;

#[tactic(auto, unfolding(crate::specs::Reader::expect))]
fn null_test(alloc: Global, cursor: &mut Cursor, left: SqlExpr) -> Result<SqlExpr, ParseFault>
    ensures { Reads (spec.null_by left (peek cursor.old.rest) cursor.old) result cursor.new }
{
    match cursor.peek() {
        Peek::Mark(Mark::Null) => {
            cursor.skip();
            Ok(is_null(alloc, left)?)
        }
        Peek::Mark(Mark::Not) => {
            cursor.skip();
            cursor.spend()?;
            cursor.expect(Mark::Null)?;
            Ok(not(alloc, is_null(alloc, left)?)?)
        }
        _ => Err(ParseFault::Syntax),
    }
}

fn compared(
    alloc: Global,
    cursor: &mut Cursor,
    depth: u16,
    aggs: bool,
    left: SqlExpr,
) -> Result<SqlExpr, ParseFault>
    ensures { Reads (spec.compared (spec.operand aggs (spec.sum (spec.factor depth false))) left (spec.compares_at (peek cursor.old.rest)) cursor.old) result cursor.new }
{
    let Some(kind) = compares_at(cursor.peek()) else {
        return Ok(left);
    };
    cursor.skip();
    cursor.spend()?;
    let right = operand(alloc, cursor, depth, aggs)?;
    Ok(compare(alloc, kind, left, right)?)
}

#[tactic(auto, unfolding(crate::specs::Reading::test_at))]
fn test(alloc: Global, cursor: &mut Cursor, depth: u16, aggs: bool) -> Result<SqlExpr, ParseFault>
    ensures { Reads (spec.test_at (spec.operand aggs (spec.sum (spec.factor depth false))) cursor.old) result cursor.new }
{
    let left = operand(alloc, cursor, depth, aggs)?;
    if cursor.sees(Mark::Is) {
        cursor.skip();
        cursor.spend()?;
        null_test(alloc, cursor, left)
    } else {
        compared(alloc, cursor, depth, aggs, left)
    }
}

/// `depth` bounds how many negations and parentheses stand in one another.
#[cycle(conds)]
#[tactic(auto, unfolding(crate::specs::Reading::neg))]
fn neg(alloc: Global, cursor: &mut Cursor, depth: u16, aggs: bool) -> Result<SqlExpr, ParseFault>
    ensures { Reads (spec.neg depth aggs cursor.old) result cursor.new }
{
    if depth == 0 {
        return Err(ParseFault::Syntax);
    }
    match start_of(cursor.peek()) {
        Start::Not => {
            cursor.skip();
            cursor.spend()?;
            let of = neg(alloc, cursor, depth - 1, aggs)?;
            Ok(not(alloc, of)?)
        }
        Start::Open => {
            cursor.skip();
            cursor.spend()?;
            let inside = cond(alloc, cursor, depth - 1, aggs)?;
            cursor.expect(Mark::Close)?;
            Ok(inside)
        }
        _ => test(alloc, cursor, depth - 1, aggs),
    }
}

#[cycle(conds)]
#[tactic(auto, unfolding(crate::specs::Reading::many, crate::specs::Reading::chain))]
fn both(alloc: Global, cursor: &mut Cursor, depth: u16, aggs: bool) -> Result<SqlExpr, ParseFault>
    ensures { Reads (spec.both (spec.neg depth aggs) cursor.old) result cursor.new }
{
    let mut left = neg(alloc, cursor, depth, aggs)?;
    for _turn in 0..cursor.left() {
        if !cursor.sees(Mark::And) {
            return Ok(left);
        }
        cursor.skip();
        cursor.spend()?;
        let right = neg(alloc, cursor, depth, aggs)?;
        left = and(alloc, left, right)?;
    }
    Ok(left)
}

#[cycle(conds)]
#[tactic(auto, unfolding(crate::specs::Reading::many, crate::specs::Reading::chain))]
pub fn cond(
    alloc: Global,
    cursor: &mut Cursor,
    depth: u16,
    aggs: bool,
) -> Result<SqlExpr, ParseFault>
    ensures { Reads (spec.cond (spec.neg depth aggs) cursor.old) result cursor.new }
{
    let mut left = both(alloc, cursor, depth, aggs)?;
    for _turn in 0..cursor.left() {
        if !cursor.sees(Mark::Or) {
            return Ok(left);
        }
        cursor.skip();
        cursor.spend()?;
        let right = both(alloc, cursor, depth, aggs)?;
        left = or(alloc, left, right)?;
    }
    Ok(left)
}
