//! What tells whether a node's host answers.
ghost use Rattle.std.specs.Prelude.{◌≡◌, ◌≤◌, ℕ, OnOk, OnErr};
ghost use Rattle.hq_value.specs.Causes.{Rose};

use hq_value::Failed;

/// The host of a node. Its counts never fall and stay at their type's end. A host may tell that it is sound: then each
/// check finds it, and it stays sound.
pub trait Host: Drop {
    /// How often it was checked.
    ghost checks: { Self → ℕ };

    /// How often a check failed.
    ghost faults: { Self → ℕ };

    ghost sound: { Self → Type 0 };

    /// Whether the host answers. `Failed` comes exactly where the count of faults rose.
    fn check(&mut self) -> Result<(), Failed>
        ensures checked { Rose (checks self.old) (checks self.new) }
        ensures failed { OnErr result (Rose (faults self.old) (faults self.new)) }
        ensures held { OnOk result (faults self.new ≡ faults self.old) }
        ensures never_falls { faults self.old ≤ faults self.new }
        ensures steady { OnErr result (sound self.old → ⊥) }
        ensures stays_sound { sound self.old → sound self.new };

    /// How often it was checked.
    fn checks(&self) -> u64
        ensures { result ≡ checks self.now };

    /// How often a check failed.
    fn faults(&self) -> u64
        ensures { result ≡ faults self.now };
}
