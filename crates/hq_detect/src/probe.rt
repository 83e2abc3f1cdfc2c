//! Which hosts answer.
ghost use Rattle.std.specs.Prelude.{◌≡◌, ◌≤◌, ℕ, false, length, if◌then◌else◌};
ghost use Rattle.hq_detect.specs.Probes.{has_bit, IsProbed, AreProbed};

use crate::{Bench, Host};

/// Checks each node's host once, in ascending order. Bit n of the answer, counted from the least significant, is that
/// of node n: clear exactly where the host's count of faults rose.
pub fn probe_all<S, H: Host, L>(benches: &mut [Bench<S, H, L>]) -> u16
    requires { length benches.old ≤ 16 }
    ensures probed { AreProbed H.checks H.faults H.sound benches.old benches.new result }
    ensures others { (n : ℕ) → length benches.old ≤ n → has_bit result n ≡ false }
    ensures count { length benches.new ≡ length benches.old }
{
    let mut found = 0u32;
    let mut weight = 1u32;
    for node in 0..benches.len() {
        let bench = &mut benches[node];
        found += if_found(probe(bench), weight);
        weight *= 2;
    }
    found as u16
}

fn if_found(found: bool, weight: u32) -> u32
    ensures { result ≡ (if found then weight else 0) }
{
    if found { weight } else { 0 }
}

// Whether the node's host is found.
fn probe<S, H: Host, L>(bench: &mut Bench<S, H, L>) -> bool
    ensures { IsProbed H.checks H.faults H.sound bench.old bench.new result }
{
    bench.host.check().is_ok()
}
