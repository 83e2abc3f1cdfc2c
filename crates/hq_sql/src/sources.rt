//! FROM: sources, and the conditions of their joins.
ghost use Rattle.hq_expr.specs.Reader.{Reads};
ghost use Rattle.hq_sql.specs.Reading.{read};
ghost use Rattle.hq_sql.specs.Grammar as spec;

use crate::lists::{Following, Member, repeated};
use crate::names::alias;
use crate::tree::SourceName;
use hq_expr::{Cursor, Mark, ParseFault, Peek, SqlExpr, condition};
use hq_value::Sequence;
use std::alloc::Global;

/// A source, and the condition of its ON where it has one.
#[derive(Debug, Drop)]
pub struct Joined {
    pub source: SourceName,
    pub on: Option<SqlExpr>,
}

/// FROM source {"," source | [INNER] JOIN source ON condition}: the first source, and the others.
#[tactic(auto, unfolding(crate::specs::Grammar::from))]
pub fn from(alloc: Global, cursor: &mut Cursor) -> Result<SourceList, ParseFault>
    ensures { Reads (read spec.from cursor.old) result cursor.new }
{
    cursor.expect(Mark::From)?;
    let first = source(cursor)?;
    let others = repeated(alloc, cursor)?;
    Ok(SourceList { first, others })
}

/// The first source of a SELECT, and those that are joined to it in order.
#[derive(Debug, Drop)]
pub struct SourceList {
    pub first: SourceName,
    pub others: Sequence<Joined>,
}

// name [[AS] name]
#[tactic(auto, unfolding(crate::specs::Grammar::source))]
fn source(cursor: &mut Cursor) -> Result<SourceName, ParseFault>
    ensures { Reads (read spec.source cursor.old) result cursor.new }
{
    let table = cursor.name()?;
    let alias = alias(cursor)?;
    Ok(SourceName { table, alias })
}

// [INNER] JOIN
#[tactic(auto, unfolding(crate::specs::Grammar::join, hq_expr::specs::Reader::expect))]
fn join(cursor: &mut Cursor) -> Result<(), ParseFault>
    ensures { Reads (read spec.join cursor.old) result cursor.new }
{
    if cursor.sees(Mark::Inner) {
        cursor.skip();
    }
    cursor.expect(Mark::Join)
}

impl Member for Joined {
    ghost use Rattle.hq_sql.specs.Reading.{read};
    ghost use Rattle.hq_sql.specs.Grammar.{more_source};

    ghost parser = { read more_source };

    #[tactic(auto, unfolding(crate::specs::Grammar::more_source, hq_expr::specs::Reader::expect))]
    fn read(alloc: Global, cursor: &mut Cursor) -> Result<Joined, ParseFault> {
        if cursor.sees(Mark::Comma) {
            cursor.skip();
            let source = source(cursor)?;
            return Ok(Joined { source, on: None });
        }
        join(cursor)?;
        let source = source(cursor)?;
        cursor.expect(Mark::On)?;
        let on = condition(alloc, cursor, false)?;
        Ok(Joined {
            source,
            on: Some(on),
        })
    }
}

impl Following for Joined {
    ghost use Rattle.hq_sql.specs.Reading.{begins};
    ghost use Rattle.hq_sql.specs.Grammar.{more_source};

    ghost starts = { begins more_source };

    #[tactic(auto, unfolding(crate::specs::Grammar::more_source, crate::specs::Grammar::join))]
    fn starts_with(peek: Peek) -> bool {
        match peek {
            Peek::Mark(Mark::Comma) => true,
            Peek::Mark(Mark::Inner) => true,
            Peek::Mark(Mark::Join) => true,
            _ => false,
        }
    }
}
