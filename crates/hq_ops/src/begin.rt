//! The beginning of an operator that is given its rows bit by bit.
ghost use Rattle.std.specs.Prelude.{◌≡◌, [], List, IsTrue, IfOk};
ghost use Rattle.hq_value.specs.declared.value.Value.{Value as Datum};
ghost use Rattle.hq_algebra.specs.declared.op.Op.{Op as Operator};
ghost use Rattle.hq_ops.specs.Beginnings.{IsPartialOf, IsFinalOf, IsJoinOf};
ghost use Rattle.hq_ops.specs.Pipes.{takes_rows};
ghost use Rattle.hq_ops.specs.Works.{Holds};

use crate::chains::Chains;
use crate::finals::final_columns;
use crate::gathering::nothing_gathered;
use crate::groups::GroupBy;
use crate::partial::partial_columns;
use crate::work::Work;
use hq_algebra::{Aggregates, Keys16, Op};
use hq_value::{NoMemory, Row};
use indexmap::IndexSet;
use std::alloc::Global;

/// What an operator keeps before any row.
pub fn begin<'a>(alloc: Global, op: &'a Op, build: &'a [Row]) -> Result<Work<'a>, NoMemory>
    requires { IsTrue (takes_rows op.now) }
    ensures { IfOk result (Holds op.now build.now [] []) }
{
    match op {
        Op::Filter { cond, .. } => Ok(Work::Filter(cond)),
        Op::Project { items, .. } => Ok(Work::Project(items)),
        Op::Join {
            left_keys,
            right_keys,
            ..
        } => begin_join(alloc, left_keys, right_keys, build),
        Op::Partial {
            keys,
            aggregates,
            ..
        } => begin_partial(alloc, keys, aggregates),
        Op::Final {
            keys,
            aggregates,
            ..
        } => begin_final(alloc, *keys, aggregates),
        Op::Distinct(_) => Ok(Work::Distinct(IndexSet::new(alloc))),
        Op::Sort { order, limit, .. } => Ok(Work::Sort {
            order,
            limit: *limit,
            rows: Vec::new(alloc),
        }),
        Op::Scan { .. } => unreachable!(),
        Op::Receive { .. } => unreachable!(),
    }
}

fn begin_join<'a>(
    alloc: Global,
    left_keys: &'a Keys16,
    right_keys: &'a Keys16,
    build: &'a [Row],
) -> Result<Work<'a>, NoMemory>
    ensures { IfOk result (λ work. (op : Operator) → IsJoinOf left_keys.now right_keys.now op → Holds op build.now [] [] work) }
{
    let right = Chains::new(alloc, right_keys.as_slice(), build)?;
    Ok(Work::Join {
        left_keys,
        right_keys,
        right,
    })
}

fn begin_partial<'a>(
    alloc: Global,
    keys: &'a Keys16,
    aggregates: &'a Aggregates,
) -> Result<Work<'a>, NoMemory>
    ensures { IfOk result (λ work. (op : Operator) → IsPartialOf keys.now aggregates.now op → (build : List (List Datum)) → Holds op build [] [] work) }
{
    let columns = partial_columns(alloc, aggregates.as_slice())?;
    let gathered = nothing_gathered(alloc, &columns)?;
    Ok(Work::Group {
        by: GroupBy::Columns(keys.as_slice()),
        gathered,
    })
}

fn begin_final<'a>(
    alloc: Global,
    keys: u16,
    aggregates: &'a Aggregates,
) -> Result<Work<'a>, NoMemory>
    ensures { IfOk result (λ work. (op : Operator) → IsFinalOf keys aggregates.now op → (build : List (List Datum)) → Holds op build [] [] work) }
{
    let columns = final_columns(alloc, keys, aggregates.as_slice())?;
    let gathered = nothing_gathered(alloc, &columns)?;
    Ok(Work::Group {
        by: GroupBy::First(keys),
        gathered,
    })
}
