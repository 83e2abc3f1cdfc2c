//! The place of a seal.
ghost use Rattle.std.specs.Prelude.{◌≡◌, ◌<◌, ◌^◌, Some, None, option_map};
ghost use Rattle.hq_snap.specs.Snaps.{seal_len};

use hq_store::SealCopy;
use std::marker::Model;

/// The seal of a file, where the file has one.
#[derive(Drop)]
pub struct SealSlot<Z: SealCopy> {
    seal: Option<Z>,
}

impl<Z: SealCopy> Model for SealSlot<Z> {
    ghost use Rattle.std.specs.Prelude.{Option, option_map};
    ghost use Rattle.hq_store.specs.FileStep.{SealState};

    ghost Value = { Option SealState };

    ghost view = { λ s. option_map Z.state s.seal };
}

impl<Z: SealCopy> SealSlot<Z> {
    pub fn empty() -> SealSlot<Z>
        ensures { result ≡ None }
    {
        SealSlot { seal: None }
    }

    pub fn of(seal: Z) -> SealSlot<Z>
        ensures { result ≡ Some (Z.state seal) }
    {
        SealSlot { seal: Some(seal) }
    }

    pub fn get(&self) -> Option<&Z>
        ensures { option_map (λ seal. Z.state seal.now) result ≡ self.now }
    {
        self.seal.as_ref()
    }

    /// How many bytes the seal has; none where there is no seal.
    pub fn len(&self) -> u64
        ensures len { result ≡ seal_len self.now }
        ensures fits { result < 2 ^ 64 }
    {
        match &self.seal {
            None => 0,
            Some(seal) => seal.len(),
        }
    }
}
