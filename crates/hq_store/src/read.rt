//! Bytes in parts, read.
ghost use Rattle.std.specs.Prelude.{◌≡◌, ◌+◌, ◌-◌, ◌^◌, ◌<◌, ◌≤◌, ◌++◌, length, take, min, slice_range};
ghost use Rattle.hq_store.specs.Pages.{joined, bytes_in, AreWhole, AreGroups, IsRunAt};

use crate::group::Group;
use crate::pages::{GROUP, PAGE, run_in_groups, run_in_pages};
use crate::tail::run_in_tail;
use bytes::Bytes;

/// Fills `into` with the bytes from `at` on.
pub(crate) fn read(
    groups: &[Group],
    pages: &[Bytes],
    runs: &[Bytes],
    unshared: &[u8],
    at: usize,
    into: &mut [u8],
)
    requires groups { AreGroups PAGE GROUP groups.now }
    requires whole { AreWhole PAGE pages.now }
    requires within { at + length into.old ≤ length (bytes_in groups.now pages.now runs.now unshared.now) }
    requires fits { length (bytes_in groups.now pages.now runs.now unshared.now) < 2 ^ 64 }
    ensures { into.new ≡ slice_range (bytes_in groups.now pages.now runs.now unshared.now) at (at + length into.old) }
{
    let mut done = 0;
    while done < into.len() {
        done += copy_at(into, done, run_at(groups, pages, runs, unshared, at + done));
    }
}

// The bytes from `at` on, up to the end of their page or run.
fn run_at<'a>(
    groups: &'a [Group],
    pages: &'a [Bytes],
    runs: &'a [Bytes],
    unshared: &'a [u8],
    at: usize,
) -> &'a [u8]
    requires groups { AreGroups PAGE GROUP groups.now }
    requires whole { AreWhole PAGE pages.now }
    requires within { at < length (bytes_in groups.now pages.now runs.now unshared.now) }
    requires fits { length (bytes_in groups.now pages.now runs.now unshared.now) < 2 ^ 64 }
    ensures run { IsRunAt (bytes_in groups.now pages.now runs.now unshared.now) at result.now }
    ensures some { 0 < length result.now }
{
    let grouped = groups.len() * (GROUP * PAGE);
    if at < grouped {
        run_in_groups(groups, at)
    } else {
        run_behind(pages, runs, unshared, at - grouped)
    }
}

// The same behind the groups.
fn run_behind<'a>(pages: &'a [Bytes], runs: &'a [Bytes], unshared: &'a [u8], at: usize) -> &'a [u8]
    requires whole { AreWhole PAGE pages.now }
    requires within { at < length (joined pages.now (joined runs.now unshared.now)) }
    requires fits { length (joined pages.now (joined runs.now unshared.now)) < 2 ^ 64 }
    ensures run { IsRunAt (joined pages.now (joined runs.now unshared.now)) at result.now }
    ensures some { 0 < length result.now }
{
    let full = pages.len() * PAGE;
    if at < full {
        run_in_pages(pages, at)
    } else {
        run_in_tail(runs, unshared, at - full)
    }
}

// Copies to `done` on as many bytes as there are and as have room there.
fn copy_at(into: &mut [u8], done: usize, from: &[u8]) -> usize
    requires { done ≤ length into.old }
    ensures count { result ≡ min (length into.old - done) (length from.now) }
    ensures bytes { take (done + result) into.new ≡ take done into.old ++ take result from.now }
{
    let count = (into.len() - done).min(from.len());
    into[done..done + count].copy_from_slice(&from[..count]);
    count
}
