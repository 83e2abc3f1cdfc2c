//! What an operator gives at the end.
ghost use Rattle.std.specs.Prelude.{◌≡◌, ◌++◌, [], List, IfOk, Err, true, false};
ghost use Rattle.hq_meaning.specs.Operators.{sorted};
ghost use Rattle.hq_value.specs.declared.value.Value.{Value as Datum};
ghost use Rattle.hq_algebra.specs.declared.op.Op.{Op as Operator};
ghost use Rattle.hq_ops.specs.declared.end.Stop.{Stop as Why};
ghost use Rattle.hq_ops.specs.Ends.{StopsAt};
ghost use Rattle.hq_ops.specs.Pipes.{gives, fails, is_streamed};
ghost use Rattle.hq_ops.specs.Works.{Holds};

use crate::distinct::collected;
use crate::end::Stop;
use crate::gathering::finished;
use crate::sort::sort_to;
use crate::work::Work;
use hq_algebra::SortKeys;
use hq_value::Row;
use indexmap::IndexSet;
use std::alloc::Global;

/// What is left to give.
pub fn rest(alloc: Global, work: Work) -> Result<Vec<Row>, Stop>
    ensures rows { (op : Operator) (build pushed given : List (List Datum)) →
        Holds op build pushed given work.entry → IfOk result (λ found. given ++ found.items ≡ gives op build pushed) }
    ensures numeric { (op : Operator) (build pushed given : List (List Datum)) →
        Holds op build pushed given work.entry → StopsAt result (fails op pushed) }
    ensures streamed { (op : Operator) (build pushed given : List (List Datum)) →
        Holds op build pushed given work.entry → is_streamed op ≡ true → IfOk result (λ found. found.items ≡ []) }
    ensures ended { (why : Why) → work.entry ≡ Work.Ended why → result ≡ Err why }
{
    match work {
        Work::Filter(_) => Ok(Vec::new(alloc)),
        Work::Project(_) => Ok(Vec::new(alloc)),
        Work::Join { .. } => Ok(Vec::new(alloc)),
        Work::Group { by, gathered } => finished(alloc, &by, &gathered),
        Work::Distinct(seen) => all_firsts(alloc, seen),
        Work::Sort { order, limit, rows } => all_sorted(order, limit, rows),
        Work::Ended(stop) => Err(stop),
    }
}

fn all_firsts(alloc: Global, seen: IndexSet<Row>) -> Result<Vec<Row>, Stop>
    ensures rows { IfOk result (λ found. found.items ≡ seen.keys) }
    ensures numeric { StopsAt result false }
{
    let found = collected(alloc, seen)?;
    Ok(found)
}

fn all_sorted(order: &SortKeys, limit: Option<u64>, rows: Vec<Row>) -> Result<Vec<Row>, Stop>
    ensures rows { IfOk result (λ found. found.items ≡ sorted order.now limit rows.items) }
    ensures numeric { StopsAt result false }
{
    Ok(sort_to(order.as_slice(), limit, rows))
}
