//! A host whose failures are planned.
ghost use Rattle.std.specs.Prelude.{◌≡◌};
ghost use Rattle.hq_detect.specs.Planned.{is_planned};

use crate::Host;
use hq_value::Failed;
use std::marker::Model;

/// A host of which the checks in a list fail. Checks are counted from 1.
#[derive(Debug, Drop)]
pub struct ListHost {
    fails: Vec<u64>,
    checks: u64,
    faults: u64,
}

impl Model for ListHost {
    ghost use Rattle.hq_detect.specs.Planned.{PlannedHost};

    ghost Value = { PlannedHost };

    ghost view = { λ host. record { fails = host.fails.items; checks = host.checks; faults = host.faults } };
}

impl ListHost {
    /// A host that was not checked yet.
    pub fn new(fails: Vec<u64>) -> ListHost
        ensures { result ≡ record { fails = fails.items; checks = 0; faults = 0 } }
    {
        ListHost {
            fails,
            checks: 0,
            faults: 0,
        }
    }

    // Whether the check of this number fails.
    fn is_planned(&self, check: u64) -> bool
        ensures { result ≡ is_planned self.now.fails check }
    {
        self.fails.iter().any(|planned| *planned == check)
    }
}

impl Host for ListHost {
    ghost use Rattle.std.specs.Prelude.{◌≤◌, true, false, OnOk, OnErr};
    ghost use Rattle.hq_value.specs.Causes.{Rose};
    ghost use Rattle.hq_detect.specs.Planned.{IsDone, next_fails};

    ghost checks = { λ host. host.checks };

    ghost faults = { λ host. host.faults };

    ghost sound = { λ host. IsDone host.fails host.checks };

    /// `Failed` comes exactly where the check of this number is planned to fail.
    fn check(&mut self) -> Result<(), Failed>
        ensures planned { OnErr result (next_fails self.old.fails self.old.checks ≡ true) }
        ensures not_planned { OnOk result (next_fails self.old.fails self.old.checks ≡ false) }
        ensures plan { self.new.fails ≡ self.old.fails }
        ensures checked { Rose self.old.checks self.new.checks }
        ensures failed { OnErr result (Rose self.old.faults self.new.faults) }
        ensures held { OnOk result (self.new.faults ≡ self.old.faults) }
        ensures never_falls { self.old.faults ≤ self.new.faults }
        ensures steady { OnErr result (IsDone self.old.fails self.old.checks → ⊥) }
        ensures stays_sound { IsDone self.old.fails self.old.checks → IsDone self.new.fails self.new.checks }
    {
        // No check is counted past the count's end.
        let Some(check) = self.checks.checked_add(1) else {
            return Ok(());
        };
        self.checks = check;
        if self.is_planned(check) {
            self.faults = self.faults.saturating_add(1);
            return Err(Failed);
        }
        Ok(())
    }

    fn checks(&self) -> u64 {
        self.checks
    }

    fn faults(&self) -> u64 {
        self.faults
    }
}
