//! Rows added to a lane.
ghost use Rattle.std.specs.Prelude.{◌≡◌, ◌<◌, ◌≤◌, ◌++◌, ℕ, All, length, OnOk, OnErr};
ghost use Rattle.hq_value.specs.Kinds.{Fits};
ghost use Rattle.hq_block.specs.Block.{FileRows, pack};
ghost use Rattle.hq_table.specs.Kept.{bytes_in};
ghost use Rattle.hq_table.specs.Home.{IsQuiet, AreHome, IsAdded, files_of, rows_at};

use crate::commit::settle;
use crate::write::write;
use hq_lane::{Lane, LanePart, parts_make_a_lane};
use hq_store::{MemFile, MemSeal, MemStore};
use hq_value::{Kinds, NoMemory, Row, Sequence};
use std::alloc::Global;

/// Adds the rows of each bucket to a lane and commits them. Without memory the committed bytes stay as they were.
pub(crate) fn append(
    alloc: Global,
    store: &mut MemStore,
    lane: Lane<MemFile, MemSeal>,
    seals: &mut Vec<Option<MemSeal>>,
    kinds: &Kinds,
    buckets: &[Sequence<Row>],
) -> (Lane<MemFile, MemSeal>, Result<(), NoMemory>)
    requires home { AreHome (files_of seals.old.items) lane.files }
    requires sixteen { length seals.old.items ≡ 16 }
    requires some_kinds { 0 < length kinds.now }
    requires few_kinds { length kinds.now ≤ 64 }
    requires shares { length buckets.now ≡ 16 }
    requires fit { (b : ℕ) → b < 16 → All (Fits kinds.now) (rows_at buckets.now b) }
    requires quiet { IsQuiet store.old }
    ensures sixteen { length seals.new.items ≡ 16 }
    ensures home { AreHome (files_of seals.new.items) result.0.files }
    ensures added { OnOk result.1 ((b : ℕ) → b < 16 → IsAdded kinds.now (rows_at buckets.now b) (bytes_in (files_of seals.old.items) b) (bytes_in (files_of seals.new.items) b)) }
    ensures err { OnErr result.1 (seals.new.items ≡ seals.old.items) }
    ensures quiet { IsQuiet store.new }
{
    match lane.part(alloc, &[0; 16]) {
        Err((lane, NoMemory)) => (lane, Err(NoMemory)),
        Ok(parts) => {
            let mut parts = parts;
            let written = write(alloc, store, &mut parts[0], kinds, buckets);
            parts_make_a_lane();
            let mut whole = LanePart::whole(parts);
            let ended = settle(store, &mut whole, seals, written);
            (whole, ended)
        }
    }
}
