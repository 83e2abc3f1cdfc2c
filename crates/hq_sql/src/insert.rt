//! INSERT.
ghost use Rattle.hq_expr.specs.Reader.{Reads};
ghost use Rattle.hq_sql.specs.Reading.{read};
ghost use Rattle.hq_sql.specs.Grammar as spec;

use crate::lists::{Member, listed};
use crate::names::names;
use crate::select::select;
use crate::tree::{InsertInput, InsertStatement, Literals, Names};
use hq_expr::{Cursor, Literal, Mark, ParseFault, value};
use hq_value::Sequence;
use std::alloc::Global;

/// INSERT INTO name ["(" name {"," name} ")"] (VALUES tuple {"," tuple} | select)
#[tactic(auto, unfolding(crate::specs::Grammar::insert))]
pub fn insert(alloc: Global, cursor: &mut Cursor) -> Result<InsertStatement, ParseFault>
    ensures { Reads (read spec.insert cursor.old) result cursor.new }
{
    cursor.expect(Mark::Insert)?;
    cursor.expect(Mark::Into)?;
    let name = cursor.name()?;
    let columns = columns(alloc, cursor)?;
    let input = input(alloc, cursor)?;
    Ok(InsertStatement {
        name,
        columns,
        input,
    })
}

// ["(" name {"," name} ")"]
#[tactic(auto, unfolding(crate::specs::Grammar::insert_columns, crate::specs::Grammar::names))]
fn columns(alloc: Global, cursor: &mut Cursor) -> Result<Names, ParseFault>
    ensures { Reads (read spec.insert_columns cursor.old) result cursor.new }
{
    if cursor.sees(Mark::Open) {
        names(alloc, cursor)
    } else {
        Ok(Sequence::new(alloc))
    }
}

// VALUES tuple {"," tuple} | select
#[tactic(auto, unfolding(crate::specs::Grammar::insert_input, hq_expr::specs::Reader::expect))]
fn input(alloc: Global, cursor: &mut Cursor) -> Result<InsertInput, ParseFault>
    ensures { Reads (read spec.insert_input cursor.old) result cursor.new }
{
    if cursor.sees(Mark::Values) {
        cursor.skip();
        return Ok(InsertInput::Tuples(listed(alloc, cursor)?));
    }
    Ok(InsertInput::Select(select(alloc, cursor)?))
}

impl Member for Literal {
    ghost use Rattle.hq_expr.specs.Parts.{value};

    ghost parser = { value };

    fn read(_alloc: Global, cursor: &mut Cursor) -> Result<Literal, ParseFault> {
        value(cursor)
    }
}

impl Member for Literals {
    ghost use Rattle.hq_sql.specs.Reading.{read};
    ghost use Rattle.hq_sql.specs.Grammar.{tuple};

    ghost parser = { read tuple };

    #[tactic(auto, unfolding(crate::specs::Grammar::tuple))]
    fn read(alloc: Global, cursor: &mut Cursor) -> Result<Literals, ParseFault> {
        cursor.expect(Mark::Open)?;
        let literals = listed(alloc, cursor)?;
        cursor.expect(Mark::Close)?;
        Ok(literals)
    }
}
