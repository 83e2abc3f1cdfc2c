//! When files changed.
ghost use Rattle.std.specs.Prelude.{◌≡◌, ◌<◌, ◌≤◌, ℕ, true, length, replicate, slice_set, IfOk};
ghost use Rattle.std.specs.Option.{ForSome};
ghost use Rattle.hq_snap.specs.Snaps.{change_at, changes_in};
ghost use Rattle.hq_snap.specs.Deltas.{OthersAreAtMost};

use hq_value::NoMemory;
use std::alloc::Global;
use std::marker::Model;

/// Of each file of a lane the place of the log behind the last Commit that changed it, or 0.
#[derive(Drop)]
pub struct LaneChanges {
    // None of the places is above it, so that a look passes over a lane that did not change.
    latest: u64,
    // The bucket of the file that was noted last. Of the other files no place is above `others`, so that a look passes
    // over them where they did not change.
    last: u8,
    others: u64,
    places: [u64; 16],
}

impl Model for LaneChanges {
    ghost use Rattle.std.specs.Prelude.{◌<◌, ℕ, List};
    ghost use Rattle.hq_snap.specs.Deltas.{AreAtMost, OthersAreAtMost};

    ghost Value = { List ℕ };

    ghost view = { λ changes. changes.places };

    ghost invariant = { λ changes. AreAtMost changes.latest changes.places × OthersAreAtMost changes.others changes.last changes.places × (changes.last < 16) };
}

/// Of each file of the 64 lanes of a table the place of the log behind the last Commit that changed it, or 0. It is seen
/// as a list of lanes, each a list of buckets.
#[derive(Drop)]
pub struct Changed {
    lanes: Vec<LaneChanges>,
}

impl Model for Changed {
    ghost use Rattle.std.specs.Prelude.{◌≡◌, ℕ, List, length};

    ghost Value = { List (List ℕ) };

    ghost view = { λ changed. changed.lanes.items };

    ghost invariant = { λ changed. length changed.lanes.items ≡ 64 };
}

impl LaneChanges {
    fn none() -> LaneChanges
        ensures { result ≡ replicate 16 0 }
    {
        LaneChanges {
            latest: 0,
            last: 0,
            others: 0,
            places: [0; 16],
        }
    }

    // Whether no file has changed since.
    pub(crate) fn is_still(&self, at: u64) -> bool
        ensures { result ≡ true → (b : ℕ) → change_at self.now b ≤ at }
    {
        self.latest <= at
    }

    pub(crate) fn of(&self, bucket: usize) -> u64
        requires { bucket < 16 }
        ensures { result ≡ change_at self.now bucket }
    {
        self.places[bucket]
    }

    // The bucket of the only file that may have changed since, where that is known.
    pub(crate) fn only(&self, at: u64) -> Option<u8>
        ensures { ForSome result (λ bucket. (bucket < 16) × OthersAreAtMost at bucket self.now) }
    {
        if self.others <= at {
            Some(self.last)
        } else {
            None
        }
    }

    fn note(&mut self, bucket: u8, place: u64)
        requires { bucket < 16 }
        ensures { self.new ≡ slice_set self.old bucket place }
    {
        if bucket != self.last {
            self.others = self.latest;
            self.last = bucket;
        }
        self.places[bucket as usize] = place;
        self.latest = self.latest.max(place);
    }
}

impl Changed {
    /// No file has changed.
    pub fn none(alloc: Global) -> Result<Changed, NoMemory>
        ensures { IfOk result (λ changed. changed ≡ replicate 64 (replicate 16 0)) }
    {
        let lanes = none_in(alloc)?;
        Ok(Changed { lanes })
    }

    /// A file has changed: `place` is behind the Commit.
    pub fn note(&mut self, lane: u8, bucket: u8, place: u64)
        requires lane { lane < 64 }
        requires bucket { bucket < 16 }
        ensures { self.new ≡ slice_set self.old lane (slice_set (changes_in self.old lane) bucket place) }
    {
        self.lanes[lane as usize].note(bucket, place);
    }

    /// How many lanes may have changed since. No clause says more of it: it tells how much room to begin with.
    pub(crate) fn lanes_since(&self, at: u64) -> usize {
        let mut count = 0usize;
        for lane in &self.lanes {
            if !lane.is_still(at) {
                count = count.saturating_add(1);
            }
        }
        count
    }

    pub(crate) fn lane(&self, lane: usize) -> &LaneChanges
        requires { lane < 64 }
        ensures { result.now ≡ changes_in self.now lane }
    {
        &self.lanes[lane]
    }
}

fn none_in(alloc: Global) -> Result<Vec<LaneChanges>, NoMemory>
    ensures { IfOk result (λ lanes. lanes.items ≡ replicate 64 (replicate 16 0)) }
{
    let mut lanes = Vec::with_capacity(alloc, 64)?;
    for _ in 0..64usize {
        lanes.push(LaneChanges::none())?;
    }
    Ok(lanes)
}
