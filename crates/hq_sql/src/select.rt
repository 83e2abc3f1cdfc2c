//! SELECT.
ghost use Rattle.std.specs.Prelude.{◌≡◌, ◌++◌, Ok, IfOk, OnOk};
ghost use Rattle.std.specs.List.{list_any};
ghost use Rattle.hq_expr.specs.Reader.{Reads};
ghost use Rattle.hq_expr.specs.Uses.{counts_rows};
ghost use Rattle.hq_sql.specs.Reading.{read};
ghost use Rattle.hq_sql.specs.Grammar as spec;

use crate::clauses::{filter, groups, having, keys, limit};
use crate::lists::{Member, listed};
use crate::names::alias;
use crate::sources::{SourceList, from};
use crate::tree::{ColumnRefs, Conds, Item, Items, OrderKeys, SelectStatement, Sources};
use hq_expr::{Cursor, Mark, ParseFault, SqlExpr, item_sum, uses_of};
use hq_value::{NoMemory, Sequence};
use std::alloc::Global;

/// DISTINCT, what is selected, and from where.
#[derive(Debug, Drop)]
pub struct Selected {
    pub distinct: bool,
    pub items: Items,
    pub from: SourceList,
}

/// WHERE, GROUP BY and HAVING.
#[derive(Debug, Drop)]
pub struct Grouped {
    pub filter: Option<SqlExpr>,
    pub groups: ColumnRefs,
    pub having: Option<SqlExpr>,
}

/// ORDER BY and LIMIT.
#[derive(Debug, Drop)]
pub struct Ordered {
    pub keys: OrderKeys,
    pub limit: Option<u64>,
}

/// A SELECT. Over more than one source it has no COUNT, and no SUM whose argument has no column.
#[tactic(auto, unfolding(crate::specs::Grammar::select))]
pub fn select(alloc: Global, cursor: &mut Cursor) -> Result<SelectStatement, ParseFault>
    ensures { Reads (read spec.select cursor.old) result cursor.new }
{
    let head = head(alloc, cursor)?;
    let middle = middle(alloc, cursor)?;
    let tail = tail(alloc, cursor)?;
    let select = select_of(alloc, head, middle, tail)?;
    if counts_one_source(&select) {
        Ok(select)
    } else {
        Err(ParseFault::Syntax)
    }
}

// SELECT [DISTINCT] ("*" | item {"," item}) FROM ..
#[tactic(auto, unfolding(crate::specs::Grammar::head))]
fn head(alloc: Global, cursor: &mut Cursor) -> Result<Selected, ParseFault>
    ensures { Reads (read spec.head cursor.old) result cursor.new }
{
    cursor.expect(Mark::Select)?;
    let distinct = distinct(cursor);
    let items = items(alloc, cursor)?;
    let from = from(alloc, cursor)?;
    Ok(Selected {
        distinct,
        items,
        from,
    })
}

// [DISTINCT]: whether it is there.
#[tactic(auto, unfolding(crate::specs::Grammar::distinct, hq_expr::specs::Reader::expect))]
fn distinct(cursor: &mut Cursor) -> bool
    ensures { Reads (read spec.distinct cursor.old) (Ok result) cursor.new }
{
    let distinct = cursor.sees(Mark::Distinct);
    if distinct {
        cursor.skip();
    }
    distinct
}

// "*" | item {"," item}
#[tactic(auto, unfolding(crate::specs::Grammar::items, hq_expr::specs::Reader::expect))]
fn items(alloc: Global, cursor: &mut Cursor) -> Result<Items, ParseFault>
    ensures { Reads (read spec.items cursor.old) result cursor.new }
{
    if cursor.sees(Mark::Star) {
        cursor.skip();
        Ok(Sequence::new(alloc))
    } else {
        listed(alloc, cursor)
    }
}

impl Member for Item {
    ghost use Rattle.hq_sql.specs.Reading.{read};
    ghost use Rattle.hq_sql.specs.Grammar.{item};

    ghost parser = { read item };

    #[tactic(auto, unfolding(crate::specs::Grammar::item))]
    fn read(alloc: Global, cursor: &mut Cursor) -> Result<Item, ParseFault> {
        let expr = item_sum(alloc, cursor)?;
        let alias = alias(cursor)?;
        Ok(Item { expr, alias })
    }
}

// [WHERE ..] [GROUP BY ..] [HAVING ..]
#[tactic(auto, unfolding(crate::specs::Grammar::middle))]
fn middle(alloc: Global, cursor: &mut Cursor) -> Result<Grouped, ParseFault>
    ensures { Reads (read spec.middle cursor.old) result cursor.new }
{
    let filter = filter(alloc, cursor)?;
    let groups = groups(alloc, cursor)?;
    let having = having(alloc, cursor)?;
    Ok(Grouped {
        filter,
        groups,
        having,
    })
}

// [ORDER BY ..] [LIMIT ..]
#[tactic(auto, unfolding(crate::specs::Grammar::tail))]
fn tail(alloc: Global, cursor: &mut Cursor) -> Result<Ordered, ParseFault>
    ensures { Reads (read spec.tail cursor.old) result cursor.new }
{
    let keys = keys(alloc, cursor)?;
    let limit = limit(cursor)?;
    Ok(Ordered { keys, limit })
}

fn select_of(
    alloc: Global,
    head: Selected,
    middle: Grouped,
    tail: Ordered,
) -> Result<SelectStatement, NoMemory>
    ensures { IfOk result (λ select. select ≡ spec.select_of head (middle, tail)) }
{
    let (sources, ons) = split(alloc, head.from)?;
    let conds = with_filter(ons, middle.filter)?;
    Ok(SelectStatement {
        distinct: head.distinct,
        items: head.items,
        sources,
        conds,
        groups: middle.groups,
        having: middle.having,
        keys: tail.keys,
        limit: tail.limit,
    })
}

// The sources in order, and the conditions of ON in order.
fn split(alloc: Global, from: SourceList) -> Result<(Sources, Conds), NoMemory>
    ensures sources { IfOk result (λ parts. parts.0 ≡ spec.sources_of from) }
    ensures ons { IfOk result (λ parts. parts.1 ≡ spec.on_of from.others) }
{
    let mut sources = Sequence::new(alloc);
    let mut ons = Sequence::new(alloc);
    sources.push(from.first)?;
    for joined in from.others.into_vec() {
        sources.push(joined.source)?;
        push_given(&mut ons, joined.on)?;
    }
    Ok((sources, ons))
}

fn push_given(conds: &mut Conds, cond: Option<SqlExpr>) -> Result<(), NoMemory>
    ensures { OnOk result (conds.new ≡ conds.old ++ spec.given cond) }
{
    match cond {
        Some(cond) => conds.push(cond),
        None => Ok(()),
    }
}

fn with_filter(ons: Conds, filter: Option<SqlExpr>) -> Result<Conds, NoMemory>
    ensures { IfOk result (λ conds. conds ≡ ons ++ spec.given filter) }
{
    let mut conds = ons;
    push_given(&mut conds, filter)?;
    Ok(conds)
}

fn counts_one_source(select: &SelectStatement) -> bool
    ensures { result ≡ spec.counts_one_source select.now }
{
    if select.sources.len() <= 1 {
        return true;
    }
    !(items_count(select.items.as_slice()) || having_counts(&select.having))
}

fn items_count(items: &[Item]) -> bool
    ensures { result ≡ list_any spec.item_counts items.now }
{
    items.iter().any(|item| uses_of(&item.expr).count)
}

fn having_counts(having: &Option<SqlExpr>) -> bool
    ensures { result ≡ list_any counts_rows (spec.given having.now) }
{
    match having {
        Some(cond) => uses_of(cond).count,
        None => false,
    }
}
