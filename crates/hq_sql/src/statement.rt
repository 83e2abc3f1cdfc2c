//! Any statement.
ghost use Rattle.std.specs.Prelude.{◌≡◌, Ok};
ghost use Rattle.hq_expr.specs.Reader.{Reads};
ghost use Rattle.hq_sql.specs.Reading.{read};
ghost use Rattle.hq_sql.specs.Grammar as spec;

use crate::alter::alter;
use crate::create::create;
use crate::insert::insert;
use crate::select::select;
use crate::tree::Statement;
use hq_expr::{Cursor, Mark, ParseFault};
use std::alloc::Global;

/// The statement that comes next, by its first word.
#[tactic(auto, using(crate::proofs::Begins::create_begins, crate::proofs::Begins::alter_begins, crate::proofs::Begins::insert_begins, crate::proofs::Begins::select_begins), unfolding(crate::specs::Grammar::statement_rule))]
pub fn statement(alloc: Global, cursor: &mut Cursor) -> Result<Statement, ParseFault>
    ensures { Reads (read spec.statement_rule cursor.old) result cursor.new }
{
    if cursor.sees(Mark::Create) {
        return Ok(Statement::Create(create(alloc, cursor)?));
    }
    if cursor.sees(Mark::Alter) {
        return alter(cursor);
    }
    if cursor.sees(Mark::Insert) {
        return Ok(Statement::Insert(insert(alloc, cursor)?));
    }
    if cursor.sees(Mark::Select) {
        return Ok(Statement::Select(select(alloc, cursor)?));
    }
    transaction(cursor)
}

// BEGIN [SNAPSHOT] | COMMIT | ROLLBACK
#[tactic(auto, unfolding(crate::specs::Grammar::transaction, hq_expr::specs::Reader::expect))]
fn transaction(cursor: &mut Cursor) -> Result<Statement, ParseFault>
    ensures { Reads (read spec.transaction cursor.old) result cursor.new }
{
    if cursor.sees(Mark::Begin) {
        cursor.skip();
        let snapshot = snapshot(cursor);
        return Ok(Statement::Begin { snapshot });
    }
    if cursor.sees(Mark::Commit) {
        cursor.skip();
        return Ok(Statement::Commit);
    }
    cursor.expect(Mark::Rollback)?;
    Ok(Statement::Rollback)
}

// [SNAPSHOT]: whether it is there.
#[tactic(auto, unfolding(crate::specs::Grammar::snapshot, hq_expr::specs::Reader::expect))]
fn snapshot(cursor: &mut Cursor) -> bool
    ensures { Reads (read spec.snapshot cursor.old) (Ok result) cursor.new }
{
    let snapshot = cursor.sees(Mark::Snapshot);
    if snapshot {
        cursor.skip();
    }
    snapshot
}
