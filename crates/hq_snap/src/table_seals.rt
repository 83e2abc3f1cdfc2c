//! The seals of a table, with a place for each.
ghost use Rattle.std.specs.Prelude.{◌≡◌, ◌<◌, length, replicate, slice_set, Some, None, IfOk};
ghost use Rattle.hq_snap.specs.Snaps.{lane_in, AreMerged};
ghost use Rattle.hq_snap.specs.Deltas.{lanes_of, ArePlaces, IsPut};

use crate::LaneSeals;
use crate::file_seal::FileSeal;
use hq_store::SealCopy;
use hq_value::NoMemory;
use std::alloc::Global;
use std::marker::Model;

/// The seals of a table's 64 lanes, with 16 places in each.
#[derive(Drop)]
pub(crate) struct TableSeals<Z: SealCopy> {
    lanes: Vec<LaneSeals<Z>>,
}

impl<Z: SealCopy> Model for TableSeals<Z> {
    ghost use Rattle.std.specs.Prelude.{List, Option};
    ghost use Rattle.hq_store.specs.FileStep.{SealState};
    ghost use Rattle.hq_snap.specs.Deltas.{ArePlaces};

    ghost Value = { List (List (Option SealState)) };

    ghost view = { λ s. s.lanes.items };

    ghost invariant = { λ s. ArePlaces s.lanes.items };
}

impl<Z: SealCopy> TableSeals<Z> {
    /// No file has a seal.
    #[tactic(auto, using(crate::proofs::Placed::blank_of))]
    pub(crate) fn none(alloc: Global) -> Result<TableSeals<Z>, NoMemory>
        ensures { IfOk result (λ seals. seals ≡ replicate 64 (replicate 16 None)) }
    {
        let lanes = empty_lanes(alloc)?;
        Ok(TableSeals { lanes })
    }

    pub(crate) fn lanes(&self) -> &[LaneSeals<Z>]
        ensures lanes { result.now ≡ self.now }
        ensures count { length result.now ≡ 64 }
    {
        &self.lanes
    }

    /// Takes these seals in the place of those that are there.
    pub(crate) fn merge(&mut self, files: Vec<FileSeal<Z>>)
        ensures { AreMerged (lanes_of files.items) self.old self.new }
    {
        merge_files(&mut self.lanes, files);
    }
}

#[tactic(auto, using(crate::proofs::Placed::none_back))]
fn merge_files<Z: SealCopy>(lanes: &mut Vec<LaneSeals<Z>>, files: Vec<FileSeal<Z>>)
    requires { ArePlaces lanes.old.items }
    ensures places { ArePlaces lanes.new.items }
    ensures merged { AreMerged (lanes_of files.items) lanes.old.items lanes.new.items }
{
    let mut files = files;
    while let Some(file) = files.pop() {
        put_file(lanes, file);
    }
}

#[tactic(auto, using(crate::proofs::Placed::lane_within, crate::proofs::Placed::bucket_within, crate::proofs::Placed::file_put, crate::proofs::Placed::file_places))]
fn put_file<Z: SealCopy>(lanes: &mut Vec<LaneSeals<Z>>, file: FileSeal<Z>)
    requires { ArePlaces lanes.old.items }
    ensures places { ArePlaces lanes.new.items }
    ensures put { IsPut file lanes.old.items lanes.new.items }
{
    let (lane, bucket, seal) = file.into_parts();
    put_seal(lanes, lane, bucket, seal);
}

fn put_seal<Z: SealCopy>(lanes: &mut Vec<LaneSeals<Z>>, lane: u8, bucket: u8, seal: Z)
    requires lane { lane < length lanes.old.items }
    requires bucket { bucket < length (lane_in lanes.old.items lane) }
    ensures { lanes.new.items ≡ slice_set lanes.old.items lane (slice_set (lane_in lanes.old.items lane) bucket (Some (Z.state seal))) }
{
    lanes[lane as usize].put(bucket, seal);
}

fn empty_lanes<Z: SealCopy>(alloc: Global) -> Result<Vec<LaneSeals<Z>>, NoMemory>
    ensures { IfOk result (λ lanes. lanes.items ≡ replicate 64 (replicate 16 None)) }
{
    let mut lanes = Vec::with_capacity(alloc, 64)?;
    for _ in 0..64usize {
        lanes.push(LaneSeals::empty(alloc)?)?;
    }
    Ok(lanes)
}
