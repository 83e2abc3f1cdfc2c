//! The seals of a lane.
ghost use Rattle.std.specs.Prelude.{◌≡◌, ◌*◌, ◌^◌, ◌<◌, ◌≤◌, Some, None, length, replicate, slice_set, option_map, IfOk, nat_lt};
ghost use Rattle.hq_snap.specs.Snaps.{seals_length, seal_at};

use crate::SealSlot;
use hq_store::SealCopy;
use hq_value::NoMemory;
use std::alloc::Global;
use std::marker::Model;

/// The seals of a lane's files: one place for each of the 16 buckets, or none at all where no file has a seal.
#[derive(Drop)]
pub struct LaneSeals<Z: SealCopy> {
    seals: Vec<SealSlot<Z>>,
}

impl<Z: SealCopy> Model for LaneSeals<Z> {
    ghost use Rattle.std.specs.Prelude.{◌≡◌, ◌<◌, List, Option, length};
    ghost use Rattle.hq_store.specs.FileStep.{SealState};

    ghost Value = { List (Option SealState) };

    ghost view = { λ l. l.seals.items };

    ghost invariant = { λ l. 0 < length l.seals.items → length l.seals.items ≡ 16 };
}

impl<Z: SealCopy> LaneSeals<Z> {
    /// How many buckets a lane has.
    pub const BUCKETS: usize = 16;

    /// A lane of which no file has a seal, with 16 places for them.
    pub fn empty(alloc: Global) -> Result<LaneSeals<Z>, NoMemory>
        ensures { IfOk result (λ seals. seals ≡ replicate 16 None) }
    {
        let seals = empty_slots(alloc)?;
        Ok(LaneSeals { seals })
    }

    /// The seal of a bucket's file, where it has one.
    pub fn get(&self, bucket: u8) -> Option<&Z>
        ensures { option_map (λ seal. Z.state seal.now) result ≡ seal_at self.now bucket }
    {
        match self.seals.get(bucket as usize) {
            None => None,
            Some(slot) => slot.get(),
        }
    }

    /// Whether there is a place for the seal of a bucket's file.
    pub fn has_place(&self, bucket: u8) -> bool
        ensures { result ≡ nat_lt bucket (length self.now) }
    {
        (bucket as usize) < self.seals.len()
    }

    /// Puts a seal in the place of a bucket's, and gives up the one before. There has to be a place.
    pub fn put(&mut self, bucket: u8, seal: Z)
        requires { bucket < length self.old }
        ensures { self.new ≡ slice_set self.old bucket (Some (Z.state seal)) }
    {
        self.seals[bucket as usize] = SealSlot::of(seal);
    }

    /// How many places there are, which are no more than buckets.
    pub(crate) fn places(&self) -> u8
        ensures places { result ≡ length self.now }
        ensures few { result ≤ 16 }
    {
        self.seals.len() as u8
    }

    /// How many bytes lie under the lane's seals.
    pub fn length(&self) -> u128
        ensures length { result ≡ seals_length self.now }
        ensures fits { result ≤ 16 * 2 ^ 64 }
    {
        length_of_slots(&self.seals)
    }
}

fn empty_slots<Z: SealCopy>(alloc: Global) -> Result<Vec<SealSlot<Z>>, NoMemory>
    ensures { IfOk result (λ slots. slots.items ≡ replicate 16 None) }
{
    let mut slots = Vec::with_capacity(alloc, 16)?;
    for _ in 0..16usize {
        slots.push(SealSlot::empty())?;
    }
    Ok(slots)
}

fn length_of_slots<Z: SealCopy>(slots: &[SealSlot<Z>]) -> u128
    requires { length slots.now ≤ 16 }
    ensures length { result ≡ seals_length slots.now }
    ensures fits { result ≤ 16 * 2 ^ 64 }
{
    let mut total = 0;
    for slot in slots {
        total += u128::from(slot.len());
    }
    total
}
