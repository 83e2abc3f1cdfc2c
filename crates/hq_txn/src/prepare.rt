//! All lanes flushed and sealed.
ghost use Rattle.std.specs.Prelude.{◌≡◌, ◌<◌, ◌≤◌, ℕ, All, length, vec_len, vec_capacity, OnOk, OnErr, IsErrOf};
ghost use Rattle.hq_value.specs.Causes.{Rose, GoesOn};
ghost use Rattle.hq_lane.specs.Lanes.{LaneState, AreWhole, AreFlushed, AreSealed, EachFile};
ghost use Rattle.hq_lane.specs.BucketFiles.{KeepsFile};
ghost use Rattle.hq_txn.specs.Transactions.{lane_at, IsUnsealed, IsSealedFrom};

use hq_lane::Lane;
use hq_store::{SealCopy, Store, StoreFault, StoredFile};

/// Flushes each lane, and stops at the first fault.
pub(crate) fn flush_lanes<F: StoredFile, Z: SealCopy, S: Store<File = F, Seal = Z>>(
    lanes: &mut Vec<Lane<F, Z>>,
    store: &mut S,
) -> Result<(), StoreFault>
    requires whole { (n : ℕ) → n < vec_len lanes.old → AreWhole (lane_at lanes.old.items n).files }
    ensures len { vec_len lanes.new ≡ vec_len lanes.old }
    ensures capacity { vec_capacity lanes.new ≡ vec_capacity lanes.old }
    ensures flushed { OnOk result ((n : ℕ) → n < vec_len lanes.old → AreFlushed (lane_at lanes.new.items n).files) }
    ensures kept { (n : ℕ) → IsUnsealed F.tells (lane_at lanes.old.items n) (lane_at lanes.new.items n) }

    ensures cause { IsErrOf result StoreFault.Failed → Rose (S.faults store.old) (S.faults store.new) }
    ensures store { GoesOn S.faults S.given S.sound store.old store.new }
{
    for place in 0..lanes.len() {
        lanes[place].flush_all(store)?;
    }
    Ok(())
}

/// Seals each lane.
pub(crate) fn seal_lanes<F: StoredFile, Z: SealCopy, S: Store<File = F, Seal = Z>>(
    lanes: &mut Vec<Lane<F, Z>>,
    store: &mut S,
)
    requires flushed { (n : ℕ) → n < vec_len lanes.old → AreFlushed (lane_at lanes.old.items n).files }
    ensures len { vec_len lanes.new ≡ vec_len lanes.old }
    ensures sealed { (n : ℕ) → n < vec_len lanes.old → IsSealedFrom F.tells Z.tells (lane_at lanes.old.items n) (lane_at lanes.new.items n) }

    ensures no_fault { S.faults store.new ≡ S.faults store.old }
    ensures store { GoesOn S.faults S.given S.sound store.old store.new }
{
    for place in 0..lanes.len() {
        lanes[place].seal_all(store);
    }
}
