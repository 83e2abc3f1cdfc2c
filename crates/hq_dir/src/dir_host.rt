//! Hosts over the folders of nodes.
ghost use Rattle.std.specs.Prelude.{◌≡◌, IfOk};

use crate::names::node_path;
use hq_detect::Host;
use hq_value::{Failed, NoMemory};
use std::alloc::Global;
use std::io::Read;
use std::marker::Model;
use std::rt::Files;

/// The host of a node, which is found where the node's folder can be listed. Contracts see it as its counts.
#[derive(Drop)]
pub struct DirHost<R: Files + Drop> {
    rt: R,
    path: String,
    checks: u64,
    faults: u64,
}

impl<R: Files + Drop> Model for DirHost<R> {
    ghost use Rattle.hq_dir.specs.Counts.{HostCounts};

    ghost Value = { HostCounts };

    ghost view = { λ h. record { checks = h.checks; faults = h.faults } };
}

impl<R: Files + Drop> DirHost<R> {
    /// The host of a node over its folder `seg-n` in `folder`, which was not checked yet.
    pub fn new(rt: R, alloc: Global, folder: &str, node: u8) -> Result<DirHost<R>, NoMemory>
        ensures { IfOk result (λ host. host ≡ record { checks = 0; faults = 0 }) }
    {
        let path = node_path(alloc, folder, node)?;
        Ok(DirHost {
            rt,
            path,
            checks: 0,
            faults: 0,
        })
    }

    // Whether the first names in the folder can be read.
    fn is_listed(&self) -> bool {
        let mut names = [0; 512];
        match self.rt.open_dir(self.path.as_str()) {
            Ok(mut folder) => folder.read(&mut names).is_ok(),
            Err(_) => false,
        }
    }
}

impl<R: Files + Drop> Host for DirHost<R> {
    ghost use Rattle.std.specs.Prelude.{◌≤◌, OnOk, OnErr};
    ghost use Rattle.hq_value.specs.Causes.{Rose, raised};
    ghost use Rattle.hq_dir.specs.Counts.{CountsFailure};

    ghost checks = { λ host. host.checks };

    ghost faults = { λ host. host.faults };

    ghost sound = { λ _. ⊥ };

    /// `Failed` where the folder can't be listed.
    fn check(&mut self) -> Result<(), Failed>
        ensures checked { Rose self.old.checks self.new.checks }
        ensures failed { OnErr result (Rose self.old.faults self.new.faults) }
        ensures held { OnOk result (self.new.faults ≡ self.old.faults) }
        ensures never_falls { self.old.faults ≤ self.new.faults }
        ensures steady { OnErr result (⊥ → ⊥) }
        ensures stays_sound { ⊥ → ⊥ }

        // Each check is one, and each failed one is one fault.
        ensures one_check { self.new.checks ≡ raised self.old.checks 1 }
        ensures one_fault { CountsFailure result self.old.faults self.new.faults }
    {
        self.checks = self.checks.saturating_add(1);
        if self.is_listed() {
            return Ok(());
        }
        self.faults = self.faults.saturating_add(1);
        Err(Failed)
    }

    fn checks(&self) -> u64 {
        self.checks
    }

    fn faults(&self) -> u64 {
        self.faults
    }
}
