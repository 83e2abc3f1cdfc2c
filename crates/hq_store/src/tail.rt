//! The bytes behind the full pages: runs, which seals share, and unshared bytes.
ghost use Rattle.std.specs.Prelude.{◌≡◌, ◌+◌, ◌<◌, ◌≤◌, ◌++◌, ℕ, List, [], ◌∷◌, length, take, slice_index_or, vec_len, vec_capacity, IfOk, OnOk};
ghost use Rattle.hq_store.specs.Pages.{flat, joined, IsRunAt};

use crate::pages::PAGE;
use bytes::Bytes;
use hq_value::NoMemory;
use std::alloc::{AllocFailed, Global};
use std::mem;

// The run in which a byte lies and how many bytes of the run come before it; or the number of runs and how many unshared
// bytes come before it.
#[derive(Clone, Copy)]
struct Spot {
    place: usize,
    within: usize,
}

fn find_spot(runs: &[Bytes], at: usize) -> Spot
    ensures place { result.place ≤ length runs.now }
    ensures within { (d : List ℕ) → result.place < length runs.now → result.within < length (slice_index_or runs.now result.place d) }
    ensures there { at ≡ length (flat (take result.place runs.now)) + result.within }
{
    let mut within = at;
    for (place, run) in runs.iter().enumerate() {
        if within < run.len() {
            return Spot { place, within };
        }
        within -= run.len();
    }
    Spot {
        place: runs.len(),
        within,
    }
}

/// The bytes from `at` on, up to the end of their run. All runs together are shorter than a page.
pub(crate) fn run_in_tail<'a>(runs: &'a [Bytes], unshared: &'a [u8], at: usize) -> &'a [u8]
    requires { at < length (joined runs.now unshared.now) }
    ensures run { IsRunAt (joined runs.now unshared.now) at result.now }
    ensures some { 0 < length result.now }
{
    let spot = find_spot(runs, at);
    if spot.place < runs.len() {
        runs[spot.place].as_slice().split_at(spot.within).1
    } else {
        unshared.split_at(spot.within).1
    }
}

/// A page of all these bytes.
pub(crate) fn gather(
    alloc: Global,
    runs: &[Bytes],
    unshared: &[u8],
    head: &[u8],
) -> Result<Bytes, NoMemory>
    ensures { IfOk result (λ page. page ≡ joined runs.now unshared.now ++ head.now) }
{
    let mut page = Vec::with_capacity(alloc, PAGE)?;
    for run in runs {
        page.extend_from_slice(run)?;
    }
    page.extend_from_slice(unshared)?;
    page.extend_from_slice(head)?;
    Ok(Bytes::from_vec(page)?)
}

/// Makes the unshared bytes a run. No byte is copied or changes.
pub(crate) fn close(
    alloc: Global,
    runs: &mut Vec<Bytes>,
    unshared: &mut Vec<u8>,
) -> Result<(), NoMemory>
    ensures bytes { joined runs.new.items unshared.new.items ≡ joined runs.old.items unshared.old.items }
    ensures closed { OnOk result (unshared.new.items ≡ []) }
    ensures room { vec_capacity runs.old ≤ vec_capacity runs.new }
{
    if unshared.is_empty() {
        return Ok(());
    }
    runs.reserve(1)?;
    match Bytes::from_vec(mem::replace(unshared, Vec::new(alloc))) {
        Ok(run) => {
            put(runs, run);
            Ok(())
        }
        Err(AllocFailed { value }) => {
            *unshared = value;
            Err(NoMemory)
        }
    }
}

// Adds a run for which there is room.
fn put(runs: &mut Vec<Bytes>, run: Bytes)
    requires { vec_len runs.old < vec_capacity runs.old }
    ensures runs { runs.new.items ≡ runs.old.items ++ run ∷ [] }
    ensures room { vec_capacity runs.old ≤ vec_capacity runs.new }
{
    match runs.push(run) {
        Ok(()) => {}
        Err(AllocFailed { value: _value }) => unreachable!(),
    }
}

/// Keeps just this run.
pub(crate) fn keep_run(runs: &mut Vec<Bytes>, unshared: &mut Vec<u8>, run: Bytes)
    requires { 0 < vec_capacity runs.old }
    ensures bytes { joined runs.new.items unshared.new.items ≡ run }
    ensures room { 0 < vec_capacity runs.new }
{
    unshared.clear();
    runs.clear();
    put(runs, run);
}

/// Keeps the first `at` bytes.
pub(crate) fn cut_tail(runs: &mut Vec<Bytes>, unshared: &mut Vec<u8>, at: usize)
    requires { at ≤ length (joined runs.old.items unshared.old.items) }
    ensures bytes { joined runs.new.items unshared.new.items ≡ take at (joined runs.old.items unshared.old.items) }
    ensures room { vec_capacity runs.new ≡ vec_capacity runs.old }
{
    let spot = find_spot(runs, at);
    if spot.place < runs.len() {
        runs[spot.place].truncate(spot.within);
        runs.truncate(spot.place + 1);
        unshared.clear();
    } else {
        unshared.truncate(spot.within);
    }
}
