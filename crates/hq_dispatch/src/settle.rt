//! How the tasks of a slice ended.
ghost use Rattle.std.specs.Prelude.{◌≡◌, ◌<◌, ◌≤◌, ℕ, Ok, length, vec_len, slice_index_or, IfOk, IfErr, OnOk};
ghost use Rattle.hq_dispatch.specs.Ended.{IsFirst};
ghost use Rattle.hq_dispatch.specs.Running.{IsNoFault, IsEndOf};
ghost use Rattle.hq_dispatch.specs.Settled.{HasSameHead, AreSameHeads, AreTaken, AreDone, IsLack, Lacks, HasLost};

use crate::end::QueryEnd;
use crate::moves::push_sure;
use crate::parcels::Parcels;
use crate::task::Task;
use hq_exec::FlowEnd;
use hq_pump::ExchangeEnd;
use std::alloc::Global;
use std::mem;

// The fault that ended a node's slice, if one did. Else the task stays as it is.
fn fault_at<S, H, L>(task: &mut Task<S, H, L>, node: u8) -> Result<(), QueryEnd>
    ensures same { OnOk result (task.new ≡ task.old) }
    ensures head { HasSameHead task.old task.new }
    ensures fine { OnOk result (IsNoFault task.old.end) }
    ensures fault { IfErr result (IsEndOf node task.old.end) }
{
    match mem::replace(&mut task.end, FlowEnd::NoMemory) {
        FlowEnd::Done => {
            task.end = FlowEnd::Done;
            Ok(())
        }
        FlowEnd::Numeric => {
            task.end = FlowEnd::Numeric;
            Ok(())
        }
        FlowEnd::NoMemory => Ok(()),
        FlowEnd::Store => Err(QueryEnd::Store),
        FlowEnd::Host => Err(QueryEnd::Host { node }),
        FlowEnd::BadBlock { file, at, bytes } => Err(QueryEnd::BadBlock {
            node,
            file,
            at,
            bytes,
        }),
    }
}

/// The fault of the lowest node that met one. Without one the tasks stay as they are.
pub(crate) fn first_fault<S, H, L>(tasks: &mut Vec<Task<S, H, L>>) -> Result<(), QueryEnd>
    requires { vec_len tasks.old ≤ 16 }
    ensures same { OnOk result (tasks.new.items ≡ tasks.old.items) }
    ensures heads { AreSameHeads tasks.old.items tasks.new.items }
    ensures fine { OnOk result ((n : ℕ) (d : _) → n < length tasks.old.items → IsNoFault (slice_index_or tasks.old.items n d).end) }
    ensures fault { IfErr result (IsFirst tasks.old.items) }
{
    for node in 0..tasks.len() {
        fault_at(&mut tasks[node], node as u8)?;
    }
    Ok(())
}

// The rows that a node sends, where its slice ended well.
fn parcels_at<S, H, L>(alloc: Global, task: &mut Task<S, H, L>) -> Result<Parcels, QueryEnd>
    requires { IsNoFault task.old.end }
    ensures head { HasSameHead task.old task.new }
    ensures taken { IfOk result (λ parcels. parcels ≡ task.old.parcels) }
    ensures done { OnOk result (task.old.end ≡ FlowEnd.Done) }
    ensures lack { IfErr result (IsLack task.old.end) }
{
    match &task.end {
        FlowEnd::Done => Ok(mem::replace(&mut task.parcels, Parcels::new(alloc))),
        FlowEnd::Numeric => Err(QueryEnd::Numeric),
        _ => Err(QueryEnd::NoMemory),
    }
}

/// The rows that the nodes send, where all their slices ended well.
pub(crate) fn take_parcels<S, H, L>(
    alloc: Global,
    tasks: &mut Vec<Task<S, H, L>>,
) -> Result<Vec<Parcels>, QueryEnd>
    requires { (n : ℕ) (d : _) → n < length tasks.old.items → IsNoFault (slice_index_or tasks.old.items n d).end }
    ensures heads { AreSameHeads tasks.old.items tasks.new.items }
    ensures taken { IfOk result (λ parcels. AreTaken tasks.old.items parcels.items) }
    ensures done { OnOk result (AreDone tasks.old.items) }
    ensures lack { IfErr result (Lacks tasks.old.items) }
{
    let Ok(mut all) = Vec::with_capacity(alloc, tasks.len()) else {
        return Err(QueryEnd::NoMemory);
    };
    for node in 0..tasks.len() {
        let parcels = parcels_at(alloc, &mut tasks[node])?;
        push_sure(&mut all, parcels);
    }
    Ok(all)
}

/// The first node whose link was lost, or failed, if one's did.
pub(crate) fn first_lost<S, H, L>(tasks: &[Task<S, H, L>]) -> Result<(), QueryEnd>
    requires { length tasks.now ≤ 16 }
    ensures fine { OnOk result ((n : ℕ) (d : _) → n < length tasks.now → (slice_index_or tasks.now n d).got ≡ Ok tt) }
    ensures lost { IfErr result (HasLost tasks.now) }
{
    for node in 0..tasks.len() {
        match &tasks[node].got {
            Ok(()) => (),
            Err(ExchangeEnd::LinkLost { .. }) => {
                return Err(QueryEnd::LinkLost { node: node as u8 });
            }
            Err(ExchangeEnd::LinkFailed) => {
                return Err(QueryEnd::LinkFailed { node: node as u8 });
            }
            Err(ExchangeEnd::NoMemory) => return Err(QueryEnd::NoMemory),
        }
    }
    Ok(())
}
