//! Rows that an operator takes.
ghost use Rattle.std.specs.Prelude.{◌≡◌, ◌++◌, List, Err, IfOk};
ghost use Rattle.hq_value.specs.declared.value.Value.{Value as Datum};
ghost use Rattle.hq_algebra.specs.declared.op.Op.{Op as Operator};
ghost use Rattle.hq_ops.specs.declared.end.Stop.{Stop as Why};
ghost use Rattle.hq_ops.specs.Works.{Holds, Took};

use crate::chains::Chains;
use crate::distinct::add_firsts;
use crate::end::Stop;
use crate::filter::keep;
use crate::gathered::Gathered;
use crate::gathering::gather;
use crate::groups::GroupBy;
use crate::join::join_chains;
use crate::project::project;
use crate::sort::shortened;
use crate::work::Work;
use hq_algebra::{Exprs, Keys16, SortKeys};
use hq_value::{NoMemory, Row};
use indexmap::IndexSet;
use std::alloc::Global;

/// What an operator keeps after more rows, and what it gives of them at once.
pub fn take<'a>(alloc: Global, work: Work<'a>, rows: Vec<Row>) -> Result<(Work<'a>, Vec<Row>), Stop>
    ensures took { (op : Operator) (build pushed given : List (List Datum)) →
        Holds op build pushed given work.entry → Took op build pushed given rows.items result }
    ensures ended { (why : Why) → work.entry ≡ Work.Ended why → result ≡ Err why }
{
    match work {
        Work::Filter(cond) => Ok((Work::Filter(cond), keep(cond, rows))),
        Work::Project(items) => take_project(alloc, items, rows),
        Work::Join {
            left_keys,
            right_keys,
            right,
        } => take_left(alloc, left_keys, right_keys, right, rows),
        Work::Group { by, gathered } => take_grouped(alloc, by, gathered, rows),
        Work::Distinct(seen) => take_distinct(alloc, seen, rows),
        Work::Sort {
            order,
            limit,
            rows: kept,
        } => take_sorted(alloc, order, limit, kept, rows),
        Work::Ended(stop) => Err(stop),
    }
}

fn take_project<'a>(
    alloc: Global,
    items: &'a Exprs,
    rows: Vec<Row>,
) -> Result<(Work<'a>, Vec<Row>), Stop>
    ensures { (op : Operator) (build pushed given : List (List Datum)) →
        Holds op build pushed given (Work.Project items.entry) → Took op build pushed given rows.items result }
{
    let found = project(alloc, items.as_slice(), &rows)?;
    Ok((Work::Project(items), found))
}

fn take_left<'a>(
    alloc: Global,
    left_keys: &'a Keys16,
    right_keys: &'a Keys16,
    right: Chains<'a>,
    rows: Vec<Row>,
) -> Result<(Work<'a>, Vec<Row>), Stop>
    ensures { (op : Operator) (build pushed given : List (List Datum)) →
        Holds op build pushed given (Work.Join left_keys.entry right_keys.entry right.entry) → Took op build pushed given rows.items result }
{
    let found = join_chains(alloc, &rows, left_keys.as_slice(), &right)?;
    let work = Work::Join {
        left_keys,
        right_keys,
        right,
    };
    Ok((work, found))
}

fn take_grouped<'a>(
    alloc: Global,
    by: GroupBy<'a>,
    gathered: Gathered<'a>,
    rows: Vec<Row>,
) -> Result<(Work<'a>, Vec<Row>), Stop>
    ensures { (op : Operator) (build pushed given : List (List Datum)) →
        Holds op build pushed given (Work.Group by.entry gathered.entry) → Took op build pushed given rows.items result }
{
    let gathered = gather(alloc, &by, gathered, &rows)?;
    Ok((Work::Group { by, gathered }, Vec::new(alloc)))
}

fn take_distinct<'a>(
    alloc: Global,
    seen: IndexSet<Row>,
    rows: Vec<Row>,
) -> Result<(Work<'a>, Vec<Row>), Stop>
    ensures { (op : Operator) (build pushed given : List (List Datum)) →
        Holds op build pushed given (Work.Distinct seen) → Took op build pushed given rows.items result }
{
    let seen = add_firsts(seen, rows)?;
    Ok((Work::Distinct(seen), Vec::new(alloc)))
}

fn take_sorted<'a>(
    alloc: Global,
    order: &'a SortKeys,
    limit: Option<u64>,
    kept: Vec<Row>,
    rows: Vec<Row>,
) -> Result<(Work<'a>, Vec<Row>), Stop>
    ensures { (op : Operator) (build pushed given : List (List Datum)) →
        Holds op build pushed given (Work.Sort order.entry limit kept) → Took op build pushed given rows.items result }
{
    let all = with_more(kept, rows)?;
    let rows = shortened(order.as_slice(), limit, all);
    let work = Work::Sort { order, limit, rows };
    Ok((work, Vec::new(alloc)))
}

fn with_more(rows: Vec<Row>, more: Vec<Row>) -> Result<Vec<Row>, NoMemory>
    ensures { IfOk result (λ all. all.items ≡ rows.items ++ more.items) }
{
    let mut rows = rows;
    let mut more = more;
    rows.append(&mut more)?;
    Ok(rows)
}
