//! A source over memory, whose calls fail by a plan.
ghost use Rattle.std.specs.Prelude.{◌≡◌, ◌<◌, ◌≤◌, ℕ, length, drop, take, Some, None, [], is_err, IfOk, OnOk, if◌then◌else◌};
ghost use Rattle.std.specs.Io.{ReadsAtMost};
ghost use Rattle.std.specs.Io.KnownBytes.{ReadConsumes};
ghost use Rattle.hq_value.specs.Causes.{HasCause, raised};
ghost use Rattle.hq_io.specs.Memory.{fails_next, NoneLeft};

use crate::{Label, Source};
use hq_value::Failed;
use std::marker::Model;

/// A source that gives bytes of memory, and fails at planned calls.
#[derive(Drop)]
pub struct MemSource {
    bytes: Vec<u8>,
    at: usize,
    step: usize,
    fails: Vec<u64>,
    calls: u64,
    faults: u64,
    label: Option<Label>,
}

impl Model for MemSource {
    ghost use Rattle.std.specs.Prelude.{◌<◌, ◌≤◌, length, drop};
    ghost use Rattle.hq_io.specs.Memory.{MemoryInput};

    ghost Value = { MemoryInput };

    ghost view = { λ s. record { left = drop s.at s.bytes.items; step = s.step; fails = s.fails.items; calls = s.calls; faults = s.faults; label = s.label } };

    ghost invariant = { λ s. (s.at ≤ length s.bytes.items) × (0 < s.step) };
}

impl MemSource {
    /// Gives at most `step` bytes a read, which is at least 1. The reads in `fails`, counted from 1, fail and take
    /// no byte; the others don't.
    pub fn new(bytes: Vec<u8>, step: usize, fails: Vec<u64>) -> MemSource
        requires { 0 < step }
        ensures plan { result ≡ record { left = bytes.items; step = step; fails = fails.items; calls = 0; faults = 0; label = None } }
        ensures left { ⟦<MemSource as Source>⟧.left result ≡ Some bytes.items }
        ensures faults { ⟦<MemSource as Source>⟧.faults result ≡ 0 }
    {
        MemSource {
            bytes,
            at: 0,
            step,
            fails,
            calls: 0,
            faults: 0,
            label: None,
        }
    }

    /// The same source under a label.
    pub fn labelled(self, label: Label) -> MemSource
        ensures plan { result ≡ record { left = self.left; step = self.step; fails = self.fails; calls = self.calls; faults = self.faults; label = Some label } }
        ensures left { ⟦<MemSource as Source>⟧.left result ≡ ⟦<MemSource as Source>⟧.left self }
        ensures faults { ⟦<MemSource as Source>⟧.faults result ≡ ⟦<MemSource as Source>⟧.faults self }
        ensures label { ⟦<MemSource as Source>⟧.label result ≡ Some label }
    {
        let MemSource {
            bytes,
            at,
            step,
            fails,
            calls,
            faults,
            label: _,
        } = self;
        MemSource {
            bytes,
            at,
            step,
            fails,
            calls,
            faults,
            label: Some(label),
        }
    }

    // Counts the next call, and says whether it fails by the plan.
    fn fails_now(&mut self) -> bool
        ensures planned { result ≡ fails_next self.old.fails self.old.calls }
        ensures new { self.new ≡ record { left = self.old.left; step = self.old.step; fails = self.old.fails; calls = raised self.old.calls 1; faults = self.old.faults; label = self.old.label } }
    {
        self.calls = self.calls.saturating_add(1);
        self.fails.contains(&self.calls)
    }
}

// Copies the first bytes of `rest` into `into`, as many as fit, and at most `most`.
fn give(rest: &[u8], into: &mut [u8], most: usize) -> usize
    requires room { 0 < length into.old }
    requires most { 0 < most }
    ensures within { result ≤ length rest.now }
    ensures step { result ≤ most }
    ensures fits { result ≤ length into.new }
    ensures bytes { take result into.new ≡ take result rest.now }
    ensures end { result ≡ 0 → rest.now ≡ [] }
{
    let count = rest.len().min(into.len()).min(most);
    into[..count].copy_from_slice(&rest[..count]);
    count
}

impl Source for MemSource {
    ghost left = { λ s. Some s.left };

    ghost label = { λ s. s.label };

    ghost faults = { λ s. s.faults };

    ghost sound = { λ s. NoneLeft s.fails s.calls };

    fn read(&mut self, into: &mut [u8]) -> Result<usize, Failed>
        requires { 0 < length into.old }
        ensures bound { ReadsAtMost result into.new }
        ensures bytes { ReadConsumes (Some self.old.left) (Some self.new.left) result into.new }
        ensures label { self.new.label ≡ self.old.label }
        ensures cause { HasCause self.old.faults self.new.faults result }
        ensures steady { OnOk result (self.new.faults ≡ self.old.faults) }
        ensures sound { NoneLeft self.old.fails self.old.calls → (self.new.faults ≡ self.old.faults) × NoneLeft self.new.fails self.new.calls }
        ensures planned { is_err result ≡ fails_next self.old.fails self.old.calls }
        ensures counted { self.new.faults ≡ (if is_err result then raised self.old.faults 1 else self.old.faults) }
        ensures calls { self.new.calls ≡ raised self.old.calls 1 }
        ensures plan { (self.new.fails ≡ self.old.fails) × (self.new.step ≡ self.old.step) }
        ensures step { IfOk result (λ count. count ≤ self.old.step) }
    {
        if self.fails_now() {
            self.faults = self.faults.saturating_add(1);
            return Err(Failed);
        }
        let count = give(&self.bytes[self.at..], into, self.step);
        self.at += count;
        Ok(count)
    }

    fn faults(&self) -> u64 {
        self.faults
    }
}
