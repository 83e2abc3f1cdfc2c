//! Sums: what an item or an aggregate's argument may be.
ghost use Rattle.std.specs.Prelude.{false};
ghost use Rattle.hq_expr.specs.Reader.{Reads, peek};
ghost use Rattle.hq_expr.specs.Reading as spec;

use crate::cursor::{Cursor, Peek, Start, start_of};
use crate::fault::ParseFault;
use crate::kinds::{adds_at, aggregates_at, multiplies_at};
use crate::leaves::{literal, negated, reference};
use crate::mark::Mark;
use crate::nodes::{aggregate_of, arith};
use crate::tree::{AggregateKind, Literal, SqlExpr};
use hq_value::ArithKind;
use std::alloc::Global;

#[cycle(sums)]
#[tactic(auto, unfolding(crate::specs::Reading::aggregate))]
fn aggregate(
    alloc: Global,
    cursor: &mut Cursor,
    depth: u16,
    kind: AggregateKind,
) -> Result<SqlExpr, ParseFault>
    ensures { Reads (spec.aggregate (spec.sum (spec.factor depth false)) kind cursor.old) result cursor.new }
{
    cursor.skip();
    cursor.expect(Mark::Open)?;
    cursor.spend()?;
    match cursor.peek() {
        Peek::Mark(Mark::Star) => match kind {
            AggregateKind::Count => {
                cursor.skip();
                cursor.expect(Mark::Close)?;
                Ok(SqlExpr::CountAll)
            }
            _ => Err(ParseFault::Syntax),
        },
        _ => {
            let of = sum(alloc, cursor, depth, false)?;
            cursor.expect(Mark::Close)?;
            Ok(aggregate_of(alloc, kind, of)?)
        }
    }
}

#[inline(always)]
fn plain(cursor: &mut Cursor) -> Result<SqlExpr, ParseFault>
    ensures { Reads (spec.plain (peek cursor.old.rest) cursor.old) result cursor.new }
{
    match cursor.peek() {
        Peek::Name => Ok(SqlExpr::Column(reference(cursor)?)),
        _ => Ok(SqlExpr::Literal(literal(cursor)?)),
    }
}

#[cycle(sums)]
#[tactic(auto, unfolding(crate::specs::Reading::operand))]
#[inline(always)]
pub fn operand(
    alloc: Global,
    cursor: &mut Cursor,
    depth: u16,
    aggs: bool,
) -> Result<SqlExpr, ParseFault>
    ensures { Reads (spec.operand aggs (spec.sum (spec.factor depth false)) cursor.old) result cursor.new }
{
    match aggregates_at(cursor.peek()) {
        None => plain(cursor),
        Some(kind) => {
            if aggs {
                aggregate(alloc, cursor, depth, kind)
            } else {
                Err(ParseFault::Syntax)
            }
        }
    }
}

/// `depth` bounds how many factors stand in one another.
#[cycle(sums)]
#[tactic(auto, unfolding(crate::specs::Reading::factor))]
fn factor(alloc: Global, cursor: &mut Cursor, depth: u16, aggs: bool) -> Result<SqlExpr, ParseFault>
    ensures { Reads (spec.factor depth aggs cursor.old) result cursor.new }
{
    if depth == 0 {
        return Err(ParseFault::Syntax);
    }
    match start_of(cursor.peek()) {
        Start::Open => {
            cursor.skip();
            cursor.spend()?;
            let inside = sum(alloc, cursor, depth - 1, aggs)?;
            cursor.expect(Mark::Close)?;
            Ok(inside)
        }
        Start::Minus => {
            cursor.skip();
            cursor.spend()?;
            match cursor.peek() {
                Peek::Digits => Ok(SqlExpr::Literal(negated(cursor)?)),
                _ => {
                    let of = factor(alloc, cursor, depth - 1, aggs)?;
                    let zero = SqlExpr::Literal(Literal::Int(0));
                    Ok(arith(alloc, ArithKind::Minus, zero, of)?)
                }
            }
        }
        _ => operand(alloc, cursor, depth - 1, aggs),
    }
}

#[cycle(sums)]
#[tactic(auto, unfolding(crate::specs::Reading::many, crate::specs::Reading::chain))]
#[inline(always)]
fn term(alloc: Global, cursor: &mut Cursor, depth: u16, aggs: bool) -> Result<SqlExpr, ParseFault>
    ensures { Reads (spec.term (spec.factor depth aggs) cursor.old) result cursor.new }
{
    let mut left = factor(alloc, cursor, depth, aggs)?;
    for _turn in 0..cursor.left() {
        let Some(kind) = multiplies_at(cursor.peek()) else {
            return Ok(left);
        };
        cursor.skip();
        cursor.spend()?;
        let right = factor(alloc, cursor, depth, aggs)?;
        left = arith(alloc, kind, left, right)?;
    }
    Ok(left)
}

#[cycle(sums)]
#[tactic(auto, unfolding(crate::specs::Reading::many, crate::specs::Reading::chain))]
pub fn sum(
    alloc: Global,
    cursor: &mut Cursor,
    depth: u16,
    aggs: bool,
) -> Result<SqlExpr, ParseFault>
    ensures { Reads (spec.sum (spec.factor depth aggs) cursor.old) result cursor.new }
{
    let mut left = term(alloc, cursor, depth, aggs)?;
    for _turn in 0..cursor.left() {
        let Some(kind) = adds_at(cursor.peek()) else {
            return Ok(left);
        };
        cursor.skip();
        cursor.spend()?;
        let right = term(alloc, cursor, depth, aggs)?;
        left = arith(alloc, kind, left, right)?;
    }
    Ok(left)
}
