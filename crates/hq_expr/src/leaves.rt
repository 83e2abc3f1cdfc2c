//! Literals and references.
ghost use Rattle.hq_expr.specs.Reader.{Reads};
ghost use Rattle.hq_expr.specs.Reading as spec;

use crate::cursor::{Cursor, Peek};
use crate::fault::ParseFault;
use crate::mark::Mark;
use crate::tree::{ColumnRef, Literal};

const LIMIT: u64 = 0x8000_0000_0000_0000;

#[inline(always)]
fn positive(n: u64, cursor: &mut Cursor) -> Result<Literal, ParseFault>
    ensures { Reads (spec.number n cursor.old) result cursor.new }
{
    if n < LIMIT {
        Ok(Literal::Int(n as i64))
    } else {
        Err(ParseFault::Syntax)
    }
}

fn negative(n: u64, cursor: &mut Cursor) -> Result<Literal, ParseFault>
    ensures { Reads (spec.negative n cursor.old) result cursor.new }
{
    if n < LIMIT {
        Ok(Literal::Int(-(n as i64)))
    } else if n == LIMIT {
        Ok(Literal::Int(i64::MIN))
    } else {
        Err(ParseFault::Syntax)
    }
}

#[tactic(auto, unfolding(crate::specs::Reading::negated))]
pub fn negated(cursor: &mut Cursor) -> Result<Literal, ParseFault>
    ensures { Reads (spec.negated cursor.old) result cursor.new }
{
    let n = cursor.digits()?;
    negative(n, cursor)
}

#[tactic(auto, unfolding(crate::specs::Reading::literal))]
#[inline(always)]
pub fn literal(cursor: &mut Cursor) -> Result<Literal, ParseFault>
    ensures { Reads (spec.literal cursor.old) result cursor.new }
{
    match cursor.peek() {
        Peek::Digits => {
            let n = cursor.digits()?;
            positive(n, cursor)
        }
        Peek::Text => Ok(Literal::Text(cursor.text()?)),
        Peek::Mark(Mark::Null) => {
            cursor.skip();
            Ok(Literal::Null)
        }
        Peek::Mark(Mark::True) => {
            cursor.skip();
            Ok(Literal::Bool(true))
        }
        Peek::Mark(Mark::False) => {
            cursor.skip();
            Ok(Literal::Bool(false))
        }
        Peek::Mark(Mark::Minus) => {
            cursor.skip();
            cursor.spend()?;
            negated(cursor)
        }
        _ => Err(ParseFault::Syntax),
    }
}

#[tactic(auto, unfolding(crate::specs::Reading::reference))]
#[inline(always)]
pub fn reference(cursor: &mut Cursor) -> Result<ColumnRef, ParseFault>
    ensures { Reads (spec.reference cursor.old) result cursor.new }
{
    let first = cursor.name()?;
    match cursor.peek() {
        Peek::Mark(Mark::Dot) => {
            cursor.skip();
            Ok(ColumnRef {
                source: Some(first),
                column: cursor.name()?,
            })
        }
        _ => Ok(ColumnRef {
            source: None,
            column: first,
        }),
    }
}
