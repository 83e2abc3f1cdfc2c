//! A sink over memory, whose calls fail by a plan.
ghost use Rattle.std.specs.Prelude.{◌≡◌, ℕ, Some, None, [], is_err, IsTrue, OnOk, OnErr, IsErr, if◌then◌else◌};
ghost use Rattle.hq_value.specs.Causes.{HasCause, raised};
ghost use Rattle.hq_io.specs.Memory.{fails_next};
ghost use Rattle.hq_io.specs.Told.{WritesPrefix};

use crate::{Label, Sink};
use hq_value::Failed;
use std::alloc::Global;
use std::marker::Model;

/// A sink that keeps what it is given, and fails at planned calls and where there is no memory to keep more.
#[derive(Drop)]
pub struct MemSink {
    bytes: Vec<u8>,
    fails: Vec<u64>,
    calls: u64,
    faults: u64,
    label: Option<Label>,
}

impl Model for MemSink {
    ghost use Rattle.hq_io.specs.Memory.{MemoryOutput};

    ghost Value = { MemoryOutput };

    ghost view = { λ s. record { given = s.bytes.items; fails = s.fails.items; calls = s.calls; faults = s.faults; label = s.label } };
}

impl MemSink {
    /// The writes in `fails`, counted from 1, fail; another fails only where there is no memory. What fails writes
    /// nothing.
    pub fn new(alloc: Global, fails: Vec<u64>) -> MemSink
        ensures plan { result ≡ record { given = []; fails = fails.items; calls = 0; faults = 0; label = None } }
        ensures given { ⟦<MemSink as Sink>⟧.given result ≡ Some [] }
        ensures faults { ⟦<MemSink as Sink>⟧.faults result ≡ 0 }
    {
        MemSink {
            bytes: Vec::new(alloc),
            fails,
            calls: 0,
            faults: 0,
            label: None,
        }
    }

    /// The same sink under a label.
    pub fn labelled(self, label: Label) -> MemSink
        ensures plan { result ≡ record { given = self.given; fails = self.fails; calls = self.calls; faults = self.faults; label = Some label } }
        ensures given { ⟦<MemSink as Sink>⟧.given result ≡ ⟦<MemSink as Sink>⟧.given self }
        ensures faults { ⟦<MemSink as Sink>⟧.faults result ≡ ⟦<MemSink as Sink>⟧.faults self }
        ensures label { ⟦<MemSink as Sink>⟧.label result ≡ Some label }
    {
        let MemSink {
            bytes,
            fails,
            calls,
            faults,
            label: _,
        } = self;
        MemSink {
            bytes,
            fails,
            calls,
            faults,
            label: Some(label),
        }
    }

    /// What it was given.
    pub fn bytes(&self) -> &[u8]
        ensures given { result.now ≡ self.now.given }
        ensures told { Some result.now ≡ ⟦<MemSink as Sink>⟧.given self.now }
    {
        self.bytes.as_slice()
    }

    // Counts the next call, and says whether it fails by the plan.
    fn fails_now(&mut self) -> bool
        ensures planned { result ≡ fails_next self.old.fails self.old.calls }
        ensures new { self.new ≡ record { given = self.old.given; fails = self.old.fails; calls = raised self.old.calls 1; faults = self.old.faults; label = self.old.label } }
    {
        self.calls = self.calls.saturating_add(1);
        self.fails.contains(&self.calls)
    }
}

impl Sink for MemSink {
    ghost given = { λ s. Some s.given };

    ghost label = { λ s. s.label };

    ghost faults = { λ s. s.faults };

    ghost sound = { λ _. ⊥ };

    fn write_all(&mut self, bytes: &[u8]) -> Result<(), Failed>
        ensures bytes { WritesPrefix (Some self.old.given) (Some self.new.given) result bytes.now }
        ensures label { self.new.label ≡ self.old.label }
        ensures cause { HasCause self.old.faults self.new.faults result }
        ensures steady { OnOk result (self.new.faults ≡ self.old.faults) }
        ensures sound { ⊥ → (self.new.faults ≡ self.old.faults) × ⊥ }
        ensures planned { IsTrue (fails_next self.old.fails self.old.calls) → IsErr result }
        ensures nothing { OnErr result (self.new.given ≡ self.old.given) }
        ensures counted { self.new.faults ≡ (if is_err result then raised self.old.faults 1 else self.old.faults) }
        ensures calls { self.new.calls ≡ raised self.old.calls 1 }
        ensures plan { self.new.fails ≡ self.old.fails }
    {
        if self.fails_now() || self.bytes.extend_from_slice(bytes).is_err() {
            self.faults = self.faults.saturating_add(1);
            return Err(Failed);
        }
        Ok(())
    }

    fn faults(&self) -> u64 {
        self.faults
    }
}
