//! What was written to a lane, committed.
ghost use Rattle.std.specs.Prelude.{◌≡◌, ◌<◌, ◌≤◌, ℕ, true, false, None, length, slice_set, IsOk, OnOk, OnErr};
ghost use Rattle.hq_lane.specs.Lanes.{file_of, EachFile, AreWhole, HaveNoSeal};
ghost use Rattle.hq_lane.specs.BucketFiles.{base_bytes, good_bytes, KeepsBytes};
ghost use Rattle.hq_table.specs.Kept.{bytes_in};
ghost use Rattle.hq_table.specs.Home.{IsQuiet, IsHome, AreHome, IsReady, files_of, seal_or};

use hq_lane::Lane;
use hq_store::{MemFile, MemSeal, MemStore, StoreFault};
use hq_value::{Failed, NoMemory};

// Commits one place.
fn publish(lane: &mut Lane<MemFile, MemSeal>, seals: &mut Vec<Option<MemSeal>>, bucket: u8)
    requires in_range { bucket < 16 }
    requires ready { IsReady (file_of lane.old.files bucket) }
    requires under { bytes_in (files_of seals.old.items) bucket ≡ base_bytes (file_of lane.old.files bucket) }
    requires sixteen { length seals.old.items ≡ 16 }
    ensures lane { lane.new ≡ record lane.old { files = slice_set lane.old.files bucket (file_of lane.new.files bucket) } }
    ensures seals { seals.new.items ≡ slice_set seals.old.items bucket (seal_or None seals.new.items bucket) }
    ensures home { IsHome (good_bytes (file_of lane.old.files bucket)) (file_of lane.new.files bucket) }
    ensures under { bytes_in (files_of seals.new.items) bucket ≡ good_bytes (file_of lane.old.files bucket) }
{
    match lane.publish(bucket) {
        Some(seal) => seals[bucket as usize] = Some(seal),
        None => {}
    }
}

// Commits each place.
fn publish_all(lane: &mut Lane<MemFile, MemSeal>, seals: &mut Vec<Option<MemSeal>>)
    requires ready { (b : ℕ) → b < 16 → IsReady (file_of lane.old.files b) }
    requires under { (b : ℕ) → b < 16 → bytes_in (files_of seals.old.items) b ≡ base_bytes (file_of lane.old.files b) }
    requires sixteen { length seals.old.items ≡ 16 }
    ensures sixteen { length seals.new.items ≡ 16 }
    ensures home { (b : ℕ) → b < 16 → IsHome (good_bytes (file_of lane.old.files b)) (file_of lane.new.files b) }
    ensures under { (b : ℕ) → b < 16 → bytes_in (files_of seals.new.items) b ≡ good_bytes (file_of lane.old.files b) }
{
    for bucket in 0..16u8 {
        publish(lane, seals, bucket);
    }
}

/// Commits what was written. Without memory no byte changes.
pub(crate) fn commit(
    store: &mut MemStore,
    lane: &mut Lane<MemFile, MemSeal>,
    seals: &mut Vec<Option<MemSeal>>,
) -> Result<(), StoreFault>
    requires whole { AreWhole lane.old.files }
    requires no_seal { HaveNoSeal lane.old.files }
    requires under { (b : ℕ) → b < 16 → bytes_in (files_of seals.old.items) b ≡ base_bytes (file_of lane.old.files b) }
    requires sixteen { length seals.old.items ≡ 16 }
    requires quiet { IsQuiet store.old }
    ensures sixteen { length seals.new.items ≡ 16 }
    ensures home { OnOk result ((b : ℕ) → b < 16 → IsHome (good_bytes (file_of lane.old.files b)) (file_of lane.new.files b)) }
    ensures under { OnOk result ((b : ℕ) → b < 16 → bytes_in (files_of seals.new.items) b ≡ good_bytes (file_of lane.old.files b)) }
    ensures kept { OnErr result (EachFile (KeepsBytes true) lane.old.files lane.new.files) }
    ensures seals { OnErr result (seals.new.items ≡ seals.old.items) }
    ensures quiet { IsQuiet store.new }
{
    lane.flush_all(store)?;
    lane.seal_all(store);
    publish_all(lane, seals);
    Ok(())
}

// Cuts each place to its committed bytes. A store that meets no fault does so.
fn cut(store: &mut MemStore, lane: &mut Lane<MemFile, MemSeal>)
    requires no_seal { HaveNoSeal lane.old.files }
    requires quiet { IsQuiet store.old }
    ensures home { (b : ℕ) → b < 16 → IsHome (base_bytes (file_of lane.old.files b)) (file_of lane.new.files b) }
    ensures quiet { IsQuiet store.new }
{
    match lane.cut_back(store) {
        Ok(()) => {}
        Err(Failed) => unreachable!(),
    }
}

/// Commits what was written, or, where it could not be written or committed, cuts the lane back.
pub(crate) fn settle(
    store: &mut MemStore,
    lane: &mut Lane<MemFile, MemSeal>,
    seals: &mut Vec<Option<MemSeal>>,
    written: Result<(), StoreFault>,
) -> Result<(), NoMemory>
    requires whole { OnOk written (AreWhole lane.old.files) }
    requires no_seal { HaveNoSeal lane.old.files }
    requires under { (b : ℕ) → b < 16 → bytes_in (files_of seals.old.items) b ≡ base_bytes (file_of lane.old.files b) }
    requires sixteen { length seals.old.items ≡ 16 }
    requires quiet { IsQuiet store.old }
    ensures sixteen { length seals.new.items ≡ 16 }
    ensures home { AreHome (files_of seals.new.items) lane.new.files }
    ensures written { OnOk result (IsOk written) }
    ensures under { OnOk result ((b : ℕ) → b < 16 → bytes_in (files_of seals.new.items) b ≡ good_bytes (file_of lane.old.files b)) }
    ensures seals { OnErr result (seals.new.items ≡ seals.old.items) }
    ensures quiet { IsQuiet store.new }
{
    match written {
        Ok(()) => match commit(store, lane, seals) {
            Ok(()) => Ok(()),
            Err(_) => {
                cut(store, lane);
                Err(NoMemory)
            }
        },
        Err(_) => {
            cut(store, lane);
            Err(NoMemory)
        }
    }
}
