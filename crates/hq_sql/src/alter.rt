//! ALTER TABLE.
ghost use Rattle.std.specs.Prelude.{Ok};
ghost use Rattle.hq_expr.specs.Reader.{Reads};
ghost use Rattle.hq_sql.specs.Reading.{read};
ghost use Rattle.hq_sql.specs.Grammar as spec;

use crate::create::kind;
use crate::tree::Statement;
use hq_expr::{Cursor, Mark, ParseFault};
use hq_value::Column;

/// ALTER TABLE name ADD [COLUMN] name kind [NULL]
#[tactic(auto, unfolding(crate::specs::Grammar::alter))]
pub fn alter(cursor: &mut Cursor) -> Result<Statement, ParseFault>
    ensures { Reads (read spec.alter cursor.old) result cursor.new }
{
    cursor.expect(Mark::Alter)?;
    cursor.expect(Mark::Table)?;
    let table = cursor.name()?;
    let column = addition(cursor)?;
    Ok(Statement::Alter { table, column })
}

// ADD [COLUMN] name kind [NULL]
#[tactic(auto, unfolding(crate::specs::Grammar::addition, crate::specs::Grammar::new_column, hq_expr::specs::Reader::expect))]
fn addition(cursor: &mut Cursor) -> Result<Column, ParseFault>
    ensures { Reads (read spec.addition cursor.old) result cursor.new }
{
    cursor.expect(Mark::Add)?;
    if cursor.sees(Mark::Column) {
        cursor.skip();
    }
    new_column(cursor)
}

// name kind [NULL]
#[tactic(auto, unfolding(crate::specs::Grammar::new_column))]
fn new_column(cursor: &mut Cursor) -> Result<Column, ParseFault>
    ensures { Reads (read spec.new_column cursor.old) result cursor.new }
{
    let name = cursor.name()?;
    let kind = kind(cursor)?;
    let not_null = nullable(cursor);
    Ok(Column {
        name,
        kind,
        not_null,
    })
}

// [NULL], which says nothing: the column takes NULL.
#[tactic(auto, unfolding(crate::specs::Grammar::nullable, hq_expr::specs::Reader::expect))]
fn nullable(cursor: &mut Cursor) -> bool
    ensures { Reads (read spec.nullable cursor.old) (Ok result) cursor.new }
{
    if cursor.sees(Mark::Null) {
        cursor.skip();
    }
    false
}
