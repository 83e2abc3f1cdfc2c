//! What changed of a table since an earlier look.
ghost use Rattle.std.specs.Prelude.{◌≡◌, ◌<◌, ◌≤◌, ◌++◌, ℕ, length, IfOk, OnOk};
ghost use Rattle.hq_snap.specs.Snaps.{lane_in, AreSince};
ghost use Rattle.hq_snap.specs.Deltas.{file_if, files_in, files_since, seal_since, OthersAreAtMost};

use crate::LaneSeals;
use crate::changes::{Changed, LaneChanges};
use crate::file_seal::FileSeal;
use hq_store::SealCopy;
use hq_value::{NoMemory, TableDef};
use std::alloc::Global;
use std::marker::Model;

/// What a look brings of a table: its number, its definition, and the seals of the files that changed since an earlier
/// look, one for each file. It is seen as the 64 lanes of the table, where a file that did not change has no seal.
#[derive(Drop)]
pub struct TableDelta<Z: SealCopy> {
    table: u32,
    def: TableDef,
    files: Vec<FileSeal<Z>>,
}

impl<Z: SealCopy> Model for TableDelta<Z> {
    ghost use Rattle.hq_snap.specs.Snaps.{TableSnapState};
    ghost use Rattle.hq_snap.specs.Deltas.{lanes_of};

    ghost Value = { TableSnapState };

    ghost view = { λ d. record { table = d.table; def = d.def; lanes = lanes_of d.files.items } };
}

impl<Z: SealCopy> TableDelta<Z> {
    ghost use Rattle.hq_snap.specs.Deltas.{lanes_of};

    /// The table's number.
    pub fn table(&self) -> u32
        ensures { result ≡ self.now.table }
    {
        self.table
    }

    pub fn def(&self) -> &TableDef
        ensures { result.now ≡ self.now.def }
    {
        &self.def
    }

    /// The seals of the files that changed.
    pub fn files(&self) -> &[FileSeal<Z>]
        ensures { self.now.lanes ≡ lanes_of result.now }
    {
        &self.files
    }

    /// Gives the definition and the seals.
    pub(crate) fn into_parts(self) -> (TableDef, Vec<FileSeal<Z>>)
        ensures def { result.0 ≡ self.def }
        ensures files { self.lanes ≡ lanes_of result.1.items }
    {
        let TableDelta {
            table: _,
            def,
            files,
        } = self;
        (def, files)
    }
}

/// A table with an equal definition, and seals of the same bytes for the files that a Commit at this place of the log or
/// behind it changed. Other files have none.
#[tactic(auto, using(crate::proofs::Files::since_all))]
pub fn copy_since<Z: SealCopy>(
    alloc: Global,
    table: u32,
    def: &TableDef,
    lanes: &[LaneSeals<Z>],
    changed: &Changed,
    at: u64,
) -> Result<TableDelta<Z>, NoMemory>
    requires { length lanes.now ≡ 64 }
    ensures table { IfOk result (λ delta. delta.table ≡ table) }
    ensures def { IfOk result (λ delta. delta.def ≡ def.now) }
    ensures seals { IfOk result (λ delta. AreSince changed.now at lanes.now delta.lanes) }
{
    let def = def.copy()?;
    let files = copy_files(alloc, lanes, changed, at)?;
    Ok(TableDelta { table, def, files })
}

// The seals of the files that changed, lane by lane.
fn copy_files<Z: SealCopy>(
    alloc: Global,
    lanes: &[LaneSeals<Z>],
    changed: &Changed,
    at: u64,
) -> Result<Vec<FileSeal<Z>>, NoMemory>
    requires { length lanes.now ≡ 64 }
    ensures files { IfOk result (λ files. files.items ≡ files_since changed.now at lanes.now (length lanes.now)) }
    ensures few { IfOk result (λ files. (n : ℕ) → n < 64 → length (lane_in lanes.now n) ≤ 16) }
{
    let mut files = Vec::with_capacity(alloc, changed.lanes_since(at))?;
    for n in 0..64usize {
        add_lane(&mut files, n as u8, &lanes[n], changed.lane(n), at)?;
    }
    Ok(files)
}

// Adds the seals of a lane's files that changed.
#[tactic(auto, using(crate::proofs::Files::still_all))]
fn add_lane<Z: SealCopy>(
    files: &mut Vec<FileSeal<Z>>,
    lane: u8,
    seals: &LaneSeals<Z>,
    changes: &LaneChanges,
    at: u64,
) -> Result<(), NoMemory>
    requires { lane < 64 }
    ensures files { OnOk result (files.new.items ≡ files.old.items ++ files_in lane changes.now at seals.now (length seals.now)) }
    ensures few { length seals.now ≤ 16 }
{
    let _places = seals.places();
    if changes.is_still(at) {
        return Ok(());
    }
    match changes.only(at) {
        Some(bucket) => add_only(files, lane, bucket, seals, changes, at),
        None => add_files(files, lane, seals, changes, at),
    }
}

// The same, where no other file than this one changed.
fn add_only<Z: SealCopy>(
    files: &mut Vec<FileSeal<Z>>,
    lane: u8,
    bucket: u8,
    seals: &LaneSeals<Z>,
    changes: &LaneChanges,
    at: u64,
) -> Result<(), NoMemory>
    requires lane { lane < 64 }
    requires bucket { bucket < 16 }
    requires others { OthersAreAtMost at bucket changes.now }
    ensures { OnOk result (files.new.items ≡ files.old.items ++ files_in lane changes.now at seals.now (length seals.now)) }
{
    add_file(files, lane, bucket, seals, changes, at)?;
    Ok(())
}

#[tactic(auto, using(crate::proofs::Files::files_more))]
fn add_files<Z: SealCopy>(
    files: &mut Vec<FileSeal<Z>>,
    lane: u8,
    seals: &LaneSeals<Z>,
    changes: &LaneChanges,
    at: u64,
) -> Result<(), NoMemory>
    requires { lane < 64 }
    ensures { OnOk result (files.new.items ≡ files.old.items ++ files_in lane changes.now at seals.now (length seals.now)) }
{
    for bucket in 0..seals.places() {
        add_file(files, lane, bucket, seals, changes, at)?;
    }
    Ok(())
}

// Adds the seal of a file, if it changed and has one.
fn add_file<Z: SealCopy>(
    files: &mut Vec<FileSeal<Z>>,
    lane: u8,
    bucket: u8,
    seals: &LaneSeals<Z>,
    changes: &LaneChanges,
    at: u64,
) -> Result<(), NoMemory>
    requires lane { lane < 64 }
    requires bucket { bucket < 16 }
    ensures { OnOk result (files.new.items ≡ files.old.items ++ file_if lane bucket (seal_since changes.now at seals.now bucket)) }
{
    if at < changes.of(bucket as usize) {
        if let Some(seal) = seals.get(bucket) {
            files.push(FileSeal::of(lane, bucket, seal.copy()?))?;
        }
    }
    Ok(())
}
