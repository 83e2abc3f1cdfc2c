//! What the slice before the last one sends.
ghost use Rattle.std.specs.Prelude.{◌≡◌, IfOk, Some, flat_map};
ghost use Rattle.hq_algebra.specs.Operators as operators;
ghost use Rattle.hq_algebra.specs.Queries as queries;
ghost use Rattle.hq_whole.specs.Tables as tables;
ghost use Rattle.hq_whole.specs.Sent.{IsSent, IsSendable};

use crate::tables::kinds_by;
use hq_algebra::{Expr, Misfit, Query, expr_kind, partial_kinds};
use hq_value::{Kind, Kinds, NoMemory, TableDef};
use std::alloc::Global;

/// The kinds of what the slice before the last one sends. None where it would send no column, or too many.
pub fn sent_kinds(
    alloc: Global,
    query: &Query,
    defs: &[(u32, TableDef)],
) -> Result<Option<Kinds>, NoMemory>
    ensures { IfOk result (λ sent. IsSent (tables.kinds_by defs.now) query.now sent) }
{
    let product = product_kinds(alloc, query.sources.as_slice(), defs)?;
    if !query.grouped {
        return Ok(if_sendable(product));
    }
    grouped_kinds(alloc, query, product)
}

fn grouped_kinds(alloc: Global, query: &Query, product: Kinds) -> Result<Option<Kinds>, NoMemory>
    ensures { IfOk result (λ sent. IsSendable (operators.partial_kinds query.now.groups query.now.aggregates product) sent) }
{
    let groups = query.groups.as_slice();
    let aggregates = query.aggregates.as_slice();
    match partial_kinds(alloc, groups, aggregates, product.as_slice()) {
        Ok(kinds) => Ok(if_sendable(kinds)),
        Err(Misfit::Wrong) => Ok(None),
        Err(Misfit::NoMemory) => Err(NoMemory),
    }
}

/// The kinds of the columns of a query that is not grouped. None where a column is out of range or a kind doesn't fit.
pub fn listed_kinds(
    alloc: Global,
    query: &Query,
    defs: &[(u32, TableDef)],
) -> Result<Option<Kinds>, NoMemory>
    ensures { IfOk result (λ found. found ≡ operators.items_kinds (queries.product_kinds (tables.kinds_by defs.now) query.now) query.now.items) }
{
    let product = product_kinds(alloc, query.sources.as_slice(), defs)?;
    let found = items_kinds(alloc, product.as_slice(), query.items.as_slice())?;
    Ok(found)
}

fn items_kinds(alloc: Global, kinds: &[Kind], items: &[Expr]) -> Result<Option<Kinds>, NoMemory>
    ensures { IfOk result (λ found. found ≡ operators.items_kinds kinds.now items.now) }
{
    let mut found = Kinds::new(alloc);
    for item in items {
        let Some(kind) = expr_kind(kinds, item).of_item() else {
            return Ok(None);
        };
        found.push(kind)?;
    }
    Ok(Some(found))
}

fn if_sendable(kinds: Kinds) -> Option<Kinds>
    ensures { IsSendable (Some kinds) result }
{
    if kinds.is_empty() || kinds.len() > 65_535 {
        None
    } else {
        Some(kinds)
    }
}

// The columns of all sources.
fn product_kinds(
    alloc: Global,
    sources: &[u32],
    defs: &[(u32, TableDef)],
) -> Result<Kinds, NoMemory>
    ensures { IfOk result (λ kinds. kinds ≡ flat_map (tables.kinds_by defs.now) sources.now) }
{
    let mut all = Vec::new(alloc);
    for table in sources {
        let kinds = kinds_by(alloc, defs, *table)?;
        all.extend_from_slice(kinds.as_slice())?;
    }
    Ok(Kinds::from_vec(all))
}
