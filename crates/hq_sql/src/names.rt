//! Names in parentheses, and aliases.
ghost use Rattle.hq_expr.specs.Reader.{Reads};
ghost use Rattle.hq_sql.specs.Reading.{read};
ghost use Rattle.hq_sql.specs.Grammar as spec;

use crate::lists::{Member, listed};
use crate::tree::Names;
use hq_expr::{Cursor, Mark, ParseFault, Peek};
use hq_value::Name;
use std::alloc::Global;

impl Member for Name {
    ghost use Rattle.hq_expr.specs.Reader.{name};

    ghost parser = { name };

    fn read(_alloc: Global, cursor: &mut Cursor) -> Result<Name, ParseFault> {
        cursor.name()
    }
}

/// "(" name {"," name} ")"
#[tactic(auto, unfolding(crate::specs::Grammar::names))]
pub fn names(alloc: Global, cursor: &mut Cursor) -> Result<Names, ParseFault>
    ensures { Reads (read spec.names cursor.old) result cursor.new }
{
    cursor.expect(Mark::Open)?;
    let names = listed(alloc, cursor)?;
    cursor.expect(Mark::Close)?;
    Ok(names)
}

/// [[AS] name]
#[tactic(auto, unfolding(crate::specs::Grammar::alias, hq_expr::specs::Reader::expect))]
pub fn alias(cursor: &mut Cursor) -> Result<Option<Name>, ParseFault>
    ensures { Reads (read spec.alias cursor.old) result cursor.new }
{
    if cursor.sees(Mark::As) {
        cursor.skip();
        return Ok(Some(cursor.name()?));
    }
    match cursor.peek() {
        Peek::Name => Ok(Some(cursor.name()?)),
        _ => Ok(None),
    }
}
