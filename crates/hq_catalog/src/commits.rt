//! Lanes that are committed.
ghost use Rattle.std.specs.Prelude.{◌≡◌, ◌+◌, ◌*◌, ◌^◌, ◌<◌, ◌≤◌, ◌&&◌, ◌++◌, ℕ, length, slice_set, vec_len, vec_capacity};
ghost use Rattle.std.specs.List.{AllByRecursion};
ghost use Rattle.hq_lane.specs.Lanes.{id_of, file_of, AreSealed};
ghost use Rattle.hq_lane.specs.BucketFiles.{IsSealed, IsSound, published};
ghost use Rattle.hq_snap.specs.Snaps.{changes_in};
ghost use Rattle.hq_catalog.specs.Asks.{MayCommit};
ghost use Rattle.hq_catalog.specs.CatStep.{CommitStep};
ghost use Rattle.hq_catalog.specs.Commits.{with_seal, with_change, grown_if_any, grown_in_lane, grown_of, AreApart, AreCommitted, AreTaken, IsReady, IsWell};
ghost use Rattle.hq_catalog.specs.Kept.{IsBooks, IsTable, owed, told_by};
ghost use Rattle.hq_catalog.specs.State.{table_in};

use crate::ask::Answer;
use crate::books::Books;
use crate::kept::Grown;
use crate::table::Table;
use hq_lane::Lane;
use hq_snap::{Changed, LaneSeals};
use hq_store::{SealCopy, StoredFile};
use hq_value::{BUCKETS, Entry, EntryKind, FileId};

impl<F: StoredFile, Z: SealCopy> Books<F, Z> {
    /// Commits all lanes that the session has to write. They come home clean.
    pub(crate) fn commit(
        &mut self,
        session: u32,
        statement: u32,
        lanes: Vec<Lane<F, Z>>,
    ) -> Answer<F, Z>
        requires books { IsBooks (F.tells && Z.tells) self.old }
        requires may { MayCommit F.tells Z.tells session (told_by (F.tells && Z.tells) self.old) lanes.items }
        ensures kept { IsBooks (F.tells && Z.tells) self.new }
        ensures nodes { length self.new.marks ≡ length self.old.marks }
        ensures step { CommitStep (F.tells && Z.tells) (length self.old.marks) session statement (told_by (F.tells && Z.tells) self.old) (told_by (F.tells && Z.tells) self.new) lanes.items result }
    {
        let place = self.log.len() as u64;
        commit_lanes(&mut self.tables, &mut self.grown, place, lanes);
        self.log.push_reserved(Entry {
            session,
            statement,
            kind: EntryKind::Commit,
        });
        Answer::Done
    }
}

// Commits the lanes in order, by the entry at this place of the log.
fn commit_lanes<F: StoredFile, Z: SealCopy>(
    tables: &mut Vec<Table<F, Z>>,
    grown: &mut Vec<Grown>,
    place: u64,
    lanes: Vec<Lane<F, Z>>,
)
    requires behind { place + 1 < 2 ^ 64 }
    requires tables { (t : ℕ) → t < length tables.old.items → IsTable (F.tells && Z.tells) t (table_in tables.old.items t) }
    requires ready { AllByRecursion (IsReady F.tells Z.tells tables.old.items) lanes.items }
    requires apart { AreApart lanes.items }
    requires room { 16 * owed tables.old.items + vec_len grown.old ≤ vec_capacity grown.old }
    ensures well { AllByRecursion (IsWell (F.tells && Z.tells)) lanes.items }
    ensures taken { AreTaken (F.tells && Z.tells) place lanes.items tables.old.items tables.new.items }
    ensures grown { grown.new.items ≡ grown.old.items ++ grown_of place lanes.items }
    ensures paid { owed tables.new.items + length lanes.items ≤ owed tables.old.items }
    ensures room { 16 * owed tables.new.items + vec_len grown.new ≤ vec_capacity grown.new }
{
    let mut left = lanes;
    left.reverse();
    while let Some(lane) = left.pop() {
        let table = lane.table();
        tables[table as usize].commit(place, lane, grown);
    }
    left.destroy_empty();
}

/// Commits the files of a lane that have grown, by the entry at this place of the log.
pub(crate) fn commit_files<F: StoredFile, Z: SealCopy>(
    place: u64,
    lane: &mut Lane<F, Z>,
    seals: &mut LaneSeals<Z>,
    changed: &mut Changed,
    grown: &mut Vec<Grown>,
)
    requires behind { place + 1 < 2 ^ 64 }
    requires within { lane.old.number < 64 }
    requires sealed { AreSealed F.tells Z.tells lane.old.files }
    requires seal_places { length seals.old ≡ 16 }
    requires lanes { length changed.old ≡ 64 }
    requires places { length (changes_in changed.old lane.old.number) ≡ 16 }
    requires room { vec_len grown.old + 16 ≤ vec_capacity grown.old }
    ensures sixteen { length lane.old.files ≡ 16 }
    ensures ids { (b : ℕ) → b < 16 → (file_of lane.old.files b).id ≡ id_of lane.old.table lane.old.number b }
    ensures sound { (b : ℕ) → b < 16 → IsSound F.tells Z.tells (file_of lane.old.files b) }
    ensures committed { AreCommitted 16 (place + 1) lane.old lane.new seals.old seals.new changed.old changed.new }
    ensures grown { grown.new.items ≡ grown.old.items ++ grown_in_lane place lane.old }
    ensures grown_len { vec_len grown.new ≤ vec_len grown.old + 16 }
    ensures grown_room { vec_capacity grown.new ≡ vec_capacity grown.old }
{
    lane.stands();
    for bucket in 0..BUCKETS as u8 {
        commit_file(place, lane, bucket, seals, changed, grown);
    }
}

// Commits the file of a bucket, if it has grown.
fn commit_file<F: StoredFile, Z: SealCopy>(
    place: u64,
    lane: &mut Lane<F, Z>,
    bucket: u8,
    seals: &mut LaneSeals<Z>,
    changed: &mut Changed,
    grown: &mut Vec<Grown>,
)
    requires behind { place + 1 < 2 ^ 64 }
    requires within { bucket < 16 }
    requires lane_within { lane.old.number < 64 }
    requires id { (file_of lane.old.files bucket).id ≡ id_of lane.old.table lane.old.number bucket }
    requires sealed { IsSealed F.tells Z.tells (file_of lane.old.files bucket) }
    requires seal_places { length seals.old ≡ 16 }
    requires room { vec_len grown.old < vec_capacity grown.old }
    ensures sixteen { length lane.old.files ≡ 16 }
    ensures sound { IsSound F.tells Z.tells (file_of lane.old.files bucket) }
    ensures lane { lane.new ≡ record lane.old { files = slice_set lane.old.files bucket (published (file_of lane.old.files bucket)) } }
    ensures seals { seals.new ≡ with_seal (file_of lane.old.files bucket) bucket seals.old }
    ensures changed { changed.new ≡ with_change (file_of lane.old.files bucket) (place + 1) lane.old.number bucket changed.old }
    ensures grown { grown.new.items ≡ grown.old.items ++ grown_if_any place (file_of lane.old.files bucket) }
    ensures grown_len { vec_len grown.new ≤ vec_len grown.old + 1 }
    ensures grown_room { vec_capacity grown.new ≡ vec_capacity grown.old }
{
    let before = lane.committed(bucket);
    let Some(seal) = lane.publish(bucket) else {
        return;
    };
    let after = lane.committed(bucket);
    if after == before {
        return;
    }
    let file = FileId {
        table: lane.table(),
        lane: lane.number(),
        bucket,
    };
    seals.put(bucket, seal);
    changed.note(lane.number(), bucket, place + 1);
    grown.push_reserved(Grown {
        file,
        place,
        before,
        after,
    });
}
