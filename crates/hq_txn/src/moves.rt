//! Benches and parts move into tasks, and back without memory, in the same order.
ghost use Rattle.std.specs.Prelude.{◌≡◌, ◌+◌, ◌<◌, ◌≤◌, ◌++◌, ◌∷◌, [], map, vec_len, vec_capacity, IfOk, IfErr, OnOk, OnErr};

use crate::task::Task;
use hq_detect::Bench;
use hq_lane::LanePart;
use hq_store::{SealCopy, StoredFile};
use hq_value::NoMemory;
use std::alloc::Global;

/// A push with room to spare.
pub(crate) fn push_sure<T>(items: &mut Vec<T>, item: T)
    requires { vec_len items.old < vec_capacity items.old }
    ensures items { items.new.items ≡ items.old.items ++ item ∷ [] }
    ensures len { vec_len items.new ≡ vec_len items.old + 1 }
    ensures capacity { vec_capacity items.old ≤ vec_capacity items.new }
{
    match items.push(item) {
        Ok(()) => (),
        Err(_back) => unreachable!(),
    }
}

// Puts an item in front of the others, with room to spare.
fn put_first<T>(items: &mut Vec<T>, item: T)
    requires { vec_len items.old < vec_capacity items.old }
    ensures items { items.new.items ≡ item ∷ items.old.items }
    ensures len { vec_len items.new ≡ vec_len items.old + 1 }
    ensures capacity { vec_capacity items.old ≤ vec_capacity items.new }
{
    match items.insert(0, item) {
        Ok(()) => (),
        Err(_back) => unreachable!(),
    }
}

// A part behind a handle. Without memory it comes back.
fn boxed<F: StoredFile, Z: SealCopy>(
    alloc: Global,
    part: LanePart<F, Z>,
) -> Result<Box<LanePart<F, Z>>, LanePart<F, Z>>
    ensures ok { IfOk result (λ held. held.value ≡ part) }
    ensures back { IfErr result (λ back. back ≡ part) }
{
    match Box::new(alloc, part) {
        Ok(held) => Ok(held),
        Err(failed) => Err(failed.value),
    }
}

// A task for each bench, with the part at its place. The parts behind these stay. Without memory the benches and parts
// that have no task yet stay.
fn into_tasks<S, H, L, F: StoredFile, Z: SealCopy>(
    alloc: Global,
    benches: &mut Vec<Bench<S, H, L>>,
    parts: &mut Vec<LanePart<F, Z>>,
    tasks: &mut Vec<Task<S, H, L, F, Z>>,
) -> Result<(), NoMemory>
    requires enough { vec_len benches.old ≤ vec_len parts.old }
    requires empty { tasks.old.items ≡ [] }
    requires none { vec_len tasks.old ≡ 0 }
    requires room { vec_len benches.old ≤ vec_capacity tasks.old }
    ensures benches { map (λ t. t.bench) tasks.new.items ++ benches.new.items ≡ benches.old.items }
    ensures parts { map (λ t. t.part.value) tasks.new.items ++ parts.new.items ≡ parts.old.items }
    ensures len { vec_len tasks.new + vec_len benches.new ≡ vec_len benches.old }
    ensures left { vec_len tasks.new + vec_len parts.new ≡ vec_len parts.old }
    ensures no_benches { OnOk result (benches.new.items ≡ []) }
    ensures no_bench { OnOk result (vec_len benches.new ≡ 0) }
    ensures benches_room { vec_capacity benches.old ≤ vec_capacity benches.new }
    ensures parts_room { vec_capacity parts.old ≤ vec_capacity parts.new }
{
    while !benches.is_empty() {
        let bench = benches.remove(0);
        let part = parts.remove(0);
        match boxed(alloc, part) {
            Ok(part) => {
                let outcome = Ok(());
                push_sure(
                    tasks,
                    Task {
                        bench,
                        part,
                        outcome,
                    },
                );
            }
            Err(part) => {
                put_first(benches, bench);
                put_first(parts, part);
                return Err(NoMemory);
            }
        }
    }
    Ok(())
}

/// A task for each bench, with the part at its place. The parts behind these stay. Without memory nothing changes.
pub(crate) fn tasks_of<S, H, L, F: StoredFile, Z: SealCopy>(
    alloc: Global,
    benches: &mut Vec<Bench<S, H, L>>,
    parts: &mut Vec<LanePart<F, Z>>,
) -> Result<Vec<Task<S, H, L, F, Z>>, NoMemory>
    requires enough { vec_len benches.old ≤ vec_len parts.old }
    ensures benches { IfOk result (λ tasks. map (λ t. t.bench) tasks.items ≡ benches.old.items) }
    ensures parts { IfOk result (λ tasks. map (λ t. t.part.value) tasks.items ++ parts.new.items ≡ parts.old.items) }
    ensures len { IfOk result (λ tasks. vec_len tasks ≡ vec_len benches.old) }
    ensures left { IfOk result (λ tasks. vec_len tasks + vec_len parts.new ≡ vec_len parts.old) }
    ensures no_benches { OnOk result (benches.new.items ≡ []) }
    ensures no_bench { OnOk result (vec_len benches.new ≡ 0) }
    ensures benches_room { vec_capacity benches.old ≤ vec_capacity benches.new }
    ensures parts_room { vec_capacity parts.old ≤ vec_capacity parts.new }
    ensures same_benches { OnErr result (benches.new.items ≡ benches.old.items) }
    ensures same_parts { OnErr result (parts.new.items ≡ parts.old.items) }
{
    let Ok(mut tasks) = Vec::with_capacity(alloc, benches.len()) else {
        return Err(NoMemory);
    };
    match into_tasks(alloc, benches, parts, &mut tasks) {
        Ok(()) => Ok(tasks),
        Err(NoMemory) => {
            from_tasks(tasks, benches, parts);
            Err(NoMemory)
        }
    }
}

/// Puts the benches and the parts of the tasks back, in front of the others.
pub(crate) fn from_tasks<S, H, L, F: StoredFile, Z: SealCopy>(
    tasks: Vec<Task<S, H, L, F, Z>>,
    benches: &mut Vec<Bench<S, H, L>>,
    parts: &mut Vec<LanePart<F, Z>>,
)
    requires benches { vec_len benches.old + vec_len tasks ≤ vec_capacity benches.old }
    requires parts { vec_len parts.old + vec_len tasks ≤ vec_capacity parts.old }
    ensures benches { benches.new.items ≡ map (λ t. t.bench) tasks.items ++ benches.old.items }
    ensures parts { parts.new.items ≡ map (λ t. t.part.value) tasks.items ++ parts.old.items }
    ensures benches_len { vec_len benches.new ≡ vec_len benches.old + vec_len tasks }
    ensures parts_len { vec_len parts.new ≡ vec_len parts.old + vec_len tasks }
    ensures benches_room { vec_capacity benches.old ≤ vec_capacity benches.new }
    ensures parts_room { vec_capacity parts.old ≤ vec_capacity parts.new }
{
    let mut tasks = tasks;
    while let Some(task) = tasks.pop() {
        let Task {
            bench,
            part,
            outcome: _,
        } = task;
        put_first(benches, bench);
        put_first(parts, Box::into_inner(part));
    }
    tasks.destroy_empty();
}
