//! Benches move into tasks, and back without memory, in the same order.
ghost use Rattle.std.specs.Prelude.{◌≡◌, ◌+◌, ◌<◌, ◌≤◌, ◌++◌, ◌∷◌, [], All, vec_len, vec_capacity, IfOk, OnOk, OnErr};
ghost use Rattle.hq_dispatch.specs.Ended.{benches_of};

use crate::task::Task;
use hq_detect::Bench;
use hq_value::NoMemory;
use std::alloc::Global;

/// A push with room to spare.
pub(crate) fn push_sure<T>(items: &mut Vec<T>, item: T)
    requires { vec_len items.old < vec_capacity items.old }
    ensures items { items.new.items ≡ items.old.items ++ item ∷ [] }
    ensures len { vec_len items.new ≡ vec_len items.old + 1 }
    ensures capacity { vec_capacity items.old ≤ vec_capacity items.new }
{
    match items.push(item) {
        Ok(()) => (),
        Err(_back) => unreachable!(),
    }
}

// Puts an item in front of the others, with room to spare.
fn put_first<T>(items: &mut Vec<T>, item: T)
    requires { vec_len items.old < vec_capacity items.old }
    ensures items { items.new.items ≡ item ∷ items.old.items }
    ensures len { vec_len items.new ≡ vec_len items.old + 1 }
    ensures capacity { vec_capacity items.old ≤ vec_capacity items.new }
{
    match items.insert(0, item) {
        Ok(()) => (),
        Err(_back) => unreachable!(),
    }
}

/// A task for each bench, in the same order. Without memory nothing changes.
pub(crate) fn tasks_of<S, H, L>(
    alloc: Global,
    benches: &mut Vec<Bench<S, H, L>>,
) -> Result<Vec<Task<S, H, L>>, NoMemory>
    ensures benches { IfOk result (λ tasks. benches_of tasks.items ≡ benches.old.items) }
    ensures none { IfOk result (λ tasks. All (λ t. t.incoming.items ≡ []) tasks.items) }
    ensures len { IfOk result (λ tasks. vec_len tasks ≡ vec_len benches.old) }
    ensures no_benches { OnOk result (benches.new.items ≡ []) }
    ensures no_bench { OnOk result (vec_len benches.new ≡ 0) }
    ensures room { vec_capacity benches.old ≤ vec_capacity benches.new }
    ensures same { OnErr result (benches.new.items ≡ benches.old.items) }
{
    let Ok(mut tasks) = Vec::with_capacity(alloc, benches.len()) else {
        return Err(NoMemory);
    };
    while !benches.is_empty() {
        let bench = benches.remove(0);
        push_sure(&mut tasks, Task::new(alloc, bench));
    }
    Ok(tasks)
}

/// Puts the benches of the tasks back, in front of the others.
pub(crate) fn from_tasks<S, H, L>(tasks: Vec<Task<S, H, L>>, benches: &mut Vec<Bench<S, H, L>>)
    requires { vec_len benches.old + vec_len tasks ≤ vec_capacity benches.old }
    ensures { benches.new.items ≡ benches_of tasks.items ++ benches.old.items }
{
    let mut tasks = tasks;
    while let Some(task) = tasks.pop() {
        let Task {
            bench,
            incoming: _,
            end: _,
            parcels: _,
            got: _,
        } = task;
        put_first(benches, bench);
    }
    tasks.destroy_empty();
}
