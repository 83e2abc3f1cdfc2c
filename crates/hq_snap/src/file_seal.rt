//! The seal of one file.
ghost use Rattle.std.specs.Prelude.{◌≡◌, ◌<◌};

use hq_store::SealCopy;
use std::marker::Model;

/// The seal of the file that a lane has in a bucket.
#[derive(Drop)]
pub struct FileSeal<Z: SealCopy> {
    lane: u8,
    bucket: u8,
    seal: Z,
}

impl<Z: SealCopy> Model for FileSeal<Z> {
    ghost use Rattle.std.specs.Prelude.{◌<◌};
    ghost use Rattle.hq_snap.specs.Deltas.{FileSealState};

    ghost Value = { FileSealState };

    ghost view = { λ f. record { lane = f.lane; bucket = f.bucket; seal = Z.state f.seal } };

    ghost invariant = { λ f. (f.lane < 64) × (f.bucket < 16) };
}

impl<Z: SealCopy> FileSeal<Z> {
    pub(crate) fn of(lane: u8, bucket: u8, seal: Z) -> FileSeal<Z>
        requires lane { lane < 64 }
        requires bucket { bucket < 16 }
        ensures { result ≡ record { lane = lane; bucket = bucket; seal = Z.state seal } }
    {
        FileSeal { lane, bucket, seal }
    }

    /// The number of the lane.
    pub fn lane(&self) -> u8
        ensures { result ≡ self.now.lane }
    {
        self.lane
    }

    pub fn bucket(&self) -> u8
        ensures { result ≡ self.now.bucket }
    {
        self.bucket
    }

    pub fn seal(&self) -> &Z
        ensures { Z.state result.now ≡ self.now.seal }
    {
        &self.seal
    }

    /// Gives the seal, with its lane and its bucket.
    pub(crate) fn into_parts(self) -> (u8, u8, Z)
        ensures lane { (result.0 ≡ self.lane) × (result.0 < 64) }
        ensures bucket { (result.1 ≡ self.bucket) × (result.1 < 16) }
        ensures seal { Z.state result.2 ≡ self.seal }
    {
        let FileSeal { lane, bucket, seal } = self;
        (lane, bucket, seal)
    }
}
