//! Hosts whose first checks wait for each other.

use hq_detect::Host;
use hq_value::Failed;
use std::alloc::Global;
use std::sync::Arc;
use std::sync::atomic::{AtomicU64, Ordering};
use std::test::Fail;
use std::thread;

// How often a host looks whether the other was checked. It lets other threads run each time.
const TURNS: u32 = 10_000_000;

/// A host that at its first check waits until another host was checked too. The check fails where that one is not in so
/// many turns.
#[derive(Drop)]
pub(crate) struct MeetingHost {
    checked: Arc<AtomicU64, Global>,
    checks: u64,
    faults: u64,
}

impl MeetingHost {
    // Whether two hosts were checked, this one among them.
    fn meets(&self) -> bool {
        self.checked.fetch_add(1, Ordering::SeqCst);
        for _ in 0..TURNS {
            if self.checked.load(Ordering::SeqCst) >= 2 {
                return true;
            }
            thread::yield_now();
        }
        false
    }
}

impl Host for MeetingHost {
    ghost checks = { λ host. host.checks };

    ghost faults = { λ host. host.faults };

    ghost sound = { λ host. ⊥ };

    fn check(&mut self) -> Result<(), Failed> {
        let is_first = self.checks == 0;
        self.checks = self.checks.saturating_add(1);
        if !is_first || self.meets() {
            return Ok(());
        }
        self.faults = self.faults.saturating_add(1);
        Err(Failed)
    }

    fn checks(&self) -> u64 {
        self.checks
    }

    fn faults(&self) -> u64 {
        self.faults
    }
}

/// So many hosts of which each waits for another.
pub(crate) fn meeting_hosts(alloc: Global, nodes: u8) -> Result<Vec<MeetingHost>, Fail> {
    let checked = Arc::new(alloc, AtomicU64::new(0))?;
    let mut hosts = Vec::new(alloc);
    for _ in 0..nodes {
        let checked = Arc::try_clone(&checked)?;
        hosts.push(MeetingHost {
            checked,
            checks: 0,
            faults: 0,
        })?;
    }
    Ok(hosts)
}
