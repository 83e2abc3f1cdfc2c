//! CREATE TABLE.
ghost use Rattle.std.specs.Prelude.{◌≡◌};
ghost use Rattle.hq_expr.specs.Reader.{Reads};
ghost use Rattle.hq_sql.specs.Rules.{one_of};
ghost use Rattle.hq_sql.specs.Reading.{read};
ghost use Rattle.hq_sql.specs.Grammar as spec;

use crate::lists::{Member, listed};
use crate::names::names;
use crate::tree::{CreateStatement, Names};
use hq_expr::{Cursor, Mark, ParseFault, Peek};
use hq_value::{Column, Kind, Sequence};
use std::alloc::Global;

/// CREATE TABLE name "(" column {"," column} ")" [distribution]
#[tactic(auto, unfolding(crate::specs::Grammar::create))]
pub fn create(alloc: Global, cursor: &mut Cursor) -> Result<CreateStatement, ParseFault>
    ensures { Reads (read spec.create cursor.old) result cursor.new }
{
    cursor.expect(Mark::Create)?;
    cursor.expect(Mark::Table)?;
    let name = cursor.name()?;
    cursor.expect(Mark::Open)?;
    let columns = listed(alloc, cursor)?;
    cursor.expect(Mark::Close)?;
    let keys = distribution(alloc, cursor)?;
    Ok(CreateStatement {
        name,
        columns,
        keys,
    })
}

impl Member for Column {
    ghost use Rattle.hq_sql.specs.Reading.{read};
    ghost use Rattle.hq_sql.specs.Grammar.{column};

    ghost parser = { read column };

    #[tactic(auto, unfolding(crate::specs::Grammar::column))]
    fn read(_alloc: Global, cursor: &mut Cursor) -> Result<Column, ParseFault> {
        let name = cursor.name()?;
        let kind = kind(cursor)?;
        let not_null = nullity(cursor)?;
        Ok(Column {
            name,
            kind,
            not_null,
        })
    }
}

fn kind_of(mark: Mark) -> Option<Kind>
    ensures { result ≡ spec.kind_of mark }
{
    match mark {
        Mark::Int => Some(Kind::Int),
        Mark::Integer => Some(Kind::Int),
        Mark::Bigint => Some(Kind::Int),
        Mark::Bool => Some(Kind::Bool),
        Mark::Boolean => Some(Kind::Bool),
        Mark::Text => Some(Kind::Text),
        _ => None,
    }
}

/// INT | INTEGER | BIGINT | BOOL | BOOLEAN | TEXT
pub fn kind(cursor: &mut Cursor) -> Result<Kind, ParseFault>
    ensures { Reads (read (one_of spec.kind_of) cursor.old) result cursor.new }
{
    let Peek::Mark(mark) = cursor.peek() else {
        return Err(ParseFault::Syntax);
    };
    match kind_of(mark) {
        Some(kind) => {
            cursor.skip();
            Ok(kind)
        }
        None => Err(ParseFault::Syntax),
    }
}

// [NOT NULL | NULL]
#[tactic(auto, unfolding(crate::specs::Grammar::nullity, hq_expr::specs::Reader::expect))]
fn nullity(cursor: &mut Cursor) -> Result<bool, ParseFault>
    ensures { Reads (read spec.nullity cursor.old) result cursor.new }
{
    if cursor.sees(Mark::Not) {
        cursor.skip();
        cursor.expect(Mark::Null)?;
        return Ok(true);
    }
    if cursor.sees(Mark::Null) {
        cursor.skip();
    }
    Ok(false)
}

// [DISTRIBUTED BY "(" name {"," name} ")" | DISTRIBUTED RANDOMLY]
#[tactic(auto, unfolding(crate::specs::Grammar::distribution, hq_expr::specs::Reader::expect))]
fn distribution(alloc: Global, cursor: &mut Cursor) -> Result<Names, ParseFault>
    ensures { Reads (read spec.distribution cursor.old) result cursor.new }
{
    if !cursor.sees(Mark::Distributed) {
        return Ok(Sequence::new(alloc));
    }
    cursor.skip();
    if cursor.sees(Mark::By) {
        cursor.skip();
        return names(alloc, cursor);
    }
    cursor.expect(Mark::Randomly)?;
    Ok(Sequence::new(alloc))
}
