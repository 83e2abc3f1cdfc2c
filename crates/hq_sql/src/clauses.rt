//! The clauses of a SELECT behind its sources. Each may be missing.
ghost use Rattle.std.specs.Prelude.{Ok};
ghost use Rattle.hq_expr.specs.Reader.{Reads};
ghost use Rattle.hq_sql.specs.Reading.{read};
ghost use Rattle.hq_sql.specs.Grammar as spec;

use crate::lists::{Member, listed};
use crate::tree::{ColumnRefs, OrderBy, OrderKey, OrderKeys};
use hq_expr::{ColumnRef, Cursor, Mark, ParseFault, Peek, SqlExpr, condition, reference};
use hq_value::Sequence;
use std::alloc::Global;

/// [WHERE condition]
#[tactic(auto, unfolding(crate::specs::Grammar::filter, hq_expr::specs::Reader::expect))]
pub fn filter(alloc: Global, cursor: &mut Cursor) -> Result<Option<SqlExpr>, ParseFault>
    ensures { Reads (read spec.filter cursor.old) result cursor.new }
{
    if !cursor.sees(Mark::Where) {
        return Ok(None);
    }
    cursor.skip();
    Ok(Some(condition(alloc, cursor, false)?))
}

/// [GROUP BY reference {"," reference}]
#[tactic(auto, unfolding(crate::specs::Grammar::groups, hq_expr::specs::Reader::expect))]
pub fn groups(alloc: Global, cursor: &mut Cursor) -> Result<ColumnRefs, ParseFault>
    ensures { Reads (read spec.groups cursor.old) result cursor.new }
{
    if !cursor.sees(Mark::Group) {
        return Ok(Sequence::new(alloc));
    }
    cursor.skip();
    cursor.expect(Mark::By)?;
    listed(alloc, cursor)
}

/// [HAVING condition], in which aggregates may stand
#[tactic(auto, unfolding(crate::specs::Grammar::having, hq_expr::specs::Reader::expect))]
pub fn having(alloc: Global, cursor: &mut Cursor) -> Result<Option<SqlExpr>, ParseFault>
    ensures { Reads (read spec.having cursor.old) result cursor.new }
{
    if !cursor.sees(Mark::Having) {
        return Ok(None);
    }
    cursor.skip();
    Ok(Some(condition(alloc, cursor, true)?))
}

/// [ORDER BY key {"," key}]
#[tactic(auto, unfolding(crate::specs::Grammar::keys, hq_expr::specs::Reader::expect))]
pub fn keys(alloc: Global, cursor: &mut Cursor) -> Result<OrderKeys, ParseFault>
    ensures { Reads (read spec.keys cursor.old) result cursor.new }
{
    if !cursor.sees(Mark::Order) {
        return Ok(Sequence::new(alloc));
    }
    cursor.skip();
    cursor.expect(Mark::By)?;
    listed(alloc, cursor)
}

/// [LIMIT digits]
#[tactic(auto, unfolding(crate::specs::Grammar::limit, hq_expr::specs::Reader::expect))]
pub fn limit(cursor: &mut Cursor) -> Result<Option<u64>, ParseFault>
    ensures { Reads (read spec.limit cursor.old) result cursor.new }
{
    if !cursor.sees(Mark::Limit) {
        return Ok(None);
    }
    cursor.skip();
    Ok(Some(number(cursor)?))
}

/// Numbers behind LIMIT and in keys are below this one.
const NUMBERS: u64 = 0x8000_0000_0000_0000;

// digits
fn number(cursor: &mut Cursor) -> Result<u64, ParseFault>
    ensures { Reads (read spec.digits_below cursor.old) result cursor.new }
{
    let n = cursor.digits()?;
    if n < NUMBERS {
        Ok(n)
    } else {
        Err(ParseFault::Syntax)
    }
}

impl Member for ColumnRef {
    ghost use Rattle.hq_expr.specs.Reading.{reference};

    ghost parser = { reference };

    fn read(_alloc: Global, cursor: &mut Cursor) -> Result<ColumnRef, ParseFault> {
        reference(cursor)
    }
}

impl Member for OrderKey {
    ghost use Rattle.hq_sql.specs.Reading.{read};
    ghost use Rattle.hq_sql.specs.Grammar.{key};

    ghost parser = { read key };

    #[tactic(auto, unfolding(crate::specs::Grammar::key))]
    fn read(_alloc: Global, cursor: &mut Cursor) -> Result<OrderKey, ParseFault> {
        let by = order(cursor)?;
        let descending = direction(cursor);
        Ok(OrderKey { by, descending })
    }
}

// name | digits
#[tactic(auto, unfolding(crate::specs::Grammar::order))]
fn order(cursor: &mut Cursor) -> Result<OrderBy, ParseFault>
    ensures { Reads (read spec.order cursor.old) result cursor.new }
{
    match cursor.peek() {
        Peek::Name => Ok(OrderBy::Column(cursor.name()?)),
        _ => Ok(OrderBy::Place(number(cursor)?)),
    }
}

// [ASC | DESC]: whether it is DESC.
#[tactic(auto, unfolding(crate::specs::Grammar::direction, hq_expr::specs::Reader::expect))]
fn direction(cursor: &mut Cursor) -> bool
    ensures { Reads (read spec.direction cursor.old) (Ok result) cursor.new }
{
    let descending = cursor.sees(Mark::Desc);
    if descending || cursor.sees(Mark::Asc) {
        cursor.skip();
    }
    descending
}
