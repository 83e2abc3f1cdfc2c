//! Lists of what a rule gives.
ghost use Rattle.std.specs.Prelude.{◌≡◌, Bool};
ghost use Rattle.hq_expr.specs.Reader.{Parser, Reads, peek};
ghost use Rattle.hq_expr.specs.Lists.{list};
ghost use Rattle.hq_expr.specs.declared.cursor.Peek.{Peek as Token};
ghost use Rattle.hq_sql.specs.Reading.{repeat};

use hq_expr::{Cursor, Mark, ParseFault, Peek};
use hq_value::Sequence;
use std::alloc::Global;

/// What may stand in a list.
pub trait Member: Sized + Drop {
    ghost parser: { Parser Self };

    /// Reads one.
    fn read(alloc: Global, cursor: &mut Cursor) -> Result<Self, ParseFault>
        ensures { Reads (parser cursor.old) result cursor.new };
}

/// What may stand in a list without commas: its first token tells whether one more follows.
pub trait Following: Member {
    ghost starts: { Token → Bool };

    /// Whether one begins with this token.
    fn starts_with(peek: Peek) -> bool
        ensures { result ≡ starts peek };
}

/// One or more, with commas between them.
#[tactic(auto, unfolding(hq_expr::specs::Lists::list_from))]
pub fn listed<T: Member>(alloc: Global, cursor: &mut Cursor) -> Result<Sequence<T>, ParseFault>
    ensures { Reads (list T.parser cursor.old) result cursor.new }
{
    let mut found = Sequence::new(alloc);
    for _turn in 0..cursor.count() {
        let member = T::read(alloc, cursor)?;
        found.push(member)?;
        if !cursor.sees(Mark::Comma) {
            return Ok(found);
        }
        cursor.skip();
    }
    Err(ParseFault::Syntax)
}

/// Any number, one behind another.
#[tactic(auto, unfolding(crate::specs::Reading::repeat_from))]
pub fn repeated<T: Following>(alloc: Global, cursor: &mut Cursor) -> Result<Sequence<T>, ParseFault>
    ensures { Reads (repeat T.starts T.parser cursor.old) result cursor.new }
{
    let mut found = Sequence::new(alloc);
    for _turn in 0..cursor.count() {
        if !T::starts_with(cursor.peek()) {
            return Ok(found);
        }
        let member = T::read(alloc, cursor)?;
        found.push(member)?;
    }
    Ok(found)
}
