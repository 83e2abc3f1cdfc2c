//! Doors over memory, whose calls fail by a plan.
ghost use Rattle.std.specs.Prelude.{◌≡◌, ◌≤◌, ◌++◌, ◌∷◌, ◌↔◌, [], ℕ, List, Some, IsTrue, map, is_none, IfOk, IfErr, IfSome, IsSome, OnOk, OnErr, IsErrOf};
ghost use Rattle.hq_value.specs.Causes.{Rose, raised};
ghost use Rattle.hq_io.specs.Memory.{fails_next};
ghost use Rattle.hq_doors.specs.Doors.{label_of, ListsLabel, HasLabel, Gives, TellsScript};
ghost use Rattle.hq_doors.specs.Memory.{HaveDistinctNames, TellsEach, planned, plan_for, file_of, fails_to_open, after_call, after_fault, after_opening, IsMade};

use crate::make::{Made, make};
use crate::{Doors, FilePlan, Opening, Parts};
use hq_io::{Label, MemSink, MemSource, Sink, Source};
use hq_value::DoorFault;
use std::alloc::Global;
use std::marker::Model;

/// Doors over planned files. Their sources and sinks bear their labels.
#[derive(Drop)]
pub struct MemDoors {
    alloc: Global,
    files: Vec<FilePlan>,
    fails: Vec<u64>,
    calls: u64,
    faults: u64,
    opened: Vec<Label>,
}

impl Model for MemDoors {
    ghost use Rattle.std.specs.Prelude.{map};
    ghost use Rattle.hq_doors.specs.Memory.{MemoryDoors, planned};

    ghost Value = { MemoryDoors };

    ghost view = { λ d. record { files = map planned d.files.items; fails = d.fails.items; calls = d.calls; faults = d.faults; opened = d.opened.items } };
}

impl MemDoors {
    /// The openings in `fails`, counted from 1, fail, and those of a file that none of `files` names.
    pub fn new(alloc: Global, files: Vec<FilePlan>, fails: Vec<u64>) -> MemDoors
        requires { HaveDistinctNames (map planned files.items) }
        ensures plan { result ≡ record { files = map planned files.items; fails = fails.items; calls = 0; faults = 0; opened = [] } }
        ensures files { (name : List ℕ) → ⟦<MemDoors as Doors>⟧.file result name ≡ file_of (map planned files.items) name }
        ensures each_file { TellsEach (⟦<MemDoors as Doors>⟧.file result) (map planned files.items) }
        ensures opened { ⟦<MemDoors as Doors>⟧.opened result ≡ Some [] }
        ensures faults { ⟦<MemDoors as Doors>⟧.faults result ≡ 0 }
    {
        MemDoors {
            alloc,
            files,
            fails,
            calls: 0,
            faults: 0,
            opened: Vec::new(alloc),
        }
    }

    // Counts the next opening, and says whether it fails by the plan.
    fn fails_now(&mut self) -> bool
        ensures planned { result ≡ fails_next self.old.fails self.old.calls }
        ensures new { self.new ≡ after_call self.old }
    {
        self.calls = self.calls.saturating_add(1);
        self.fails.contains(&self.calls)
    }

    // Counts a failed opening.
    fn count_fault(&mut self)
        ensures new { self.new ≡ record self.old { faults = raised self.old.faults 1 } }
        ensures later { self.old.faults ≤ self.new.faults }
    {
        self.faults = self.faults.saturating_add(1);
    }

    // Lists the label, and hands out the rest.
    fn list(&mut self, made: Made) -> Result<Parts<MemSource, MemSink>, DoorFault>
        ensures parts { IfOk result (λ parts. parts ≡ made.parts) }
        ensures listed { OnOk result (self.new ≡ record self.old { opened = self.old.opened ++ made.label ∷ [] }) }
        ensures no_memory { IfErr result (λ fault. fault ≡ DoorFault.NoMemory) }
        ensures unlisted { OnErr result (self.new ≡ self.old) }
    {
        match self.opened.push(made.label) {
            Ok(()) => Ok(made.parts),
            Err(_) => Err(DoorFault::NoMemory),
        }
    }

    // Opens what is not planned to fail.
    fn open_planned(
        &mut self,
        session: u32,
        what: Opening,
    ) -> Result<Parts<MemSource, MemSink>, DoorFault>
        ensures made { IfOk result (λ parts. IsMade (plan_for self.old.files what.entry) (label_of session what.entry) parts.source parts.sink) }
        ensures ok { OnOk result (self.new ≡ record self.old { opened = self.old.opened ++ label_of session what.entry ∷ [] }) }
        ensures failed { IsErrOf result DoorFault.Failed → self.new ≡ record self.old { faults = raised self.old.faults 1 } }
        ensures no_memory { IsErrOf result DoorFault.NoMemory → self.new ≡ self.old }
        ensures later { self.old.faults ≤ self.new.faults }
        ensures unnamed { IsErrOf result DoorFault.Failed ↔ IsTrue (is_none (plan_for self.old.files what.entry)) }
    {
        match make(self.alloc, &self.files, session, &what) {
            Ok(made) => self.list(made),
            Err(DoorFault::Failed) => {
                self.count_fault();
                Err(DoorFault::Failed)
            }
            Err(DoorFault::NoMemory) => Err(DoorFault::NoMemory),
        }
    }
}

impl Doors for MemDoors {
    type Source = MemSource;

    type Sink = MemSink;

    type Console = MemSink;

    ghost use Rattle.hq_doors.specs.Memory.{file_of};

    ghost opened = { λ d. Some d.opened };

    ghost file = { λ d name. file_of d.files name };

    ghost faults = { λ d. d.faults };

    fn open(&mut self, session: u32, what: Opening) -> Result<Parts<MemSource, MemSink>, DoorFault>
        ensures source_label { IfOk result (λ parts. HasLabel (⟦<MemSource as Source>⟧.label parts.source) (label_of session what.entry)) }
        ensures sink_label { IfOk result (λ parts. HasLabel (⟦<MemSink as Sink>⟧.label parts.sink) (label_of session what.entry)) }
        ensures source_told { IsSome (Some self.old.opened) → IfOk result (λ parts. IsSome (⟦<MemSource as Source>⟧.label parts.source)) }
        ensures sink_told { IsSome (Some self.old.opened) → IfOk result (λ parts. IsSome (⟦<MemSink as Sink>⟧.label parts.sink)) }
        ensures script_told { IsSome (Some self.old.opened) → IfOk result (λ parts. TellsScript what.entry (⟦<MemSource as Source>⟧.left parts.source)) }
        ensures gives { IfOk result (λ parts. Gives (file_of self.old.files) what.entry (⟦<MemSource as Source>⟧.left parts.source)) }
        ensures empty { IfOk result (λ parts. IfSome (⟦<MemSink as Sink>⟧.given parts.sink) (λ bytes. bytes ≡ [])) }
        ensures source_faults { IfOk result (λ parts. ⟦<MemSource as Source>⟧.faults parts.source ≡ 0) }
        ensures sink_faults { IfOk result (λ parts. ⟦<MemSink as Sink>⟧.faults parts.sink ≡ 0) }
        ensures opened { OnOk result (ListsLabel (Some self.old.opened) (Some self.new.opened) (label_of session what.entry)) }
        ensures unopened { OnErr result (Some self.new.opened ≡ Some self.old.opened) }
        ensures files { (name : List ℕ) → file_of self.new.files name ≡ file_of self.old.files name }
        ensures later { self.old.faults ≤ self.new.faults }
        ensures failed { IsErrOf result DoorFault.Failed → Rose self.old.faults self.new.faults }
        ensures steady { OnOk result (self.new.faults ≡ self.old.faults) }
        ensures kept { IsErrOf result DoorFault.NoMemory → self.new.faults ≡ self.old.faults }

        // The source and the sink are those of the plan, and an opening fails exactly where it is planned to or asks
        // for a file that no plan names.
        ensures made { IfOk result (λ parts. IsMade (plan_for self.old.files what.entry) (label_of session what.entry) parts.source parts.sink) }
        ensures planned { IsErrOf result DoorFault.Failed ↔ IsTrue (fails_to_open self.old what.entry) }

        ensures after_opening { OnOk result (self.new ≡ after_opening self.old (label_of session what.entry)) }
        ensures after_fault { IsErrOf result DoorFault.Failed → self.new ≡ after_fault self.old }
        ensures after_no_memory { IsErrOf result DoorFault.NoMemory → self.new ≡ after_call self.old }
    {
        if self.fails_now() {
            self.count_fault();
            return Err(DoorFault::Failed);
        }
        self.open_planned(session, what)
    }

    fn faults(&self) -> u64 {
        self.faults
    }
}
