//! What a session has of lanes, and what it does to them itself.
ghost use Rattle.std.specs.Prelude.{◌≡◌, ◌<◌, ◌≤◌, [], false, All, IfOk, IfErr, length};
ghost use Rattle.hq_value.specs.Kinds.{Fits};
ghost use Rattle.hq_lane.specs.Lanes.{AreSealed, AreWhole};
ghost use Rattle.hq_catalogtests.specs.Turns.{GetsNoSeal, IsReady, IsSameLane, Stays, StaysHeld, are_below, has_table};

use hq_lane::{Lane, LanePart, parts_make_a_lane};
use hq_untold::{UntoldFile, UntoldSeal, UntoldStore};
use hq_value::{Kinds, NoMemory, Row};
use std::alloc::Global;

pub(crate) type UntoldLane = Lane<UntoldFile, UntoldSeal>;

/// What a session works on: no lane, one to write that is whole or may be torn, or one to sweep.
pub(crate) enum Held {
    Nothing,
    Writes(UntoldLane),
    Torn(UntoldLane),
    Sweeps(UntoldLane),
}

/// What a session has: the lanes that it has sealed, and what it works on.
pub(crate) struct Hand {
    pub(crate) sealed: Vec<UntoldLane>,
    pub(crate) held: Held,
}

impl Held {
    /// Gives up the lane, if there is one.
    pub(crate) fn give_up(self) {
        match self {
            Held::Nothing => {}
            Held::Writes(lane) | Held::Torn(lane) | Held::Sweeps(lane) => lane.abandon(),
        }
    }
}

impl Hand {
    /// No lane at all.
    pub(crate) fn empty(alloc: Global) -> Hand
        ensures sealed { result.sealed.items ≡ [] }
        ensures held { result.held ≡ Held.Nothing }
    {
        Hand {
            sealed: Vec::new(alloc),
            held: Held::Nothing,
        }
    }

    /// Gives up all lanes.
    pub(crate) fn give_up(self) {
        let Hand { mut sealed, held } = self;
        held.give_up();
        while let Some(lane) = sealed.pop() {
            lane.abandon();
        }
        sealed.destroy_empty();
    }
}

/// Whether one of the lanes is of the table.
pub(crate) fn has_table(lanes: &[UntoldLane], table: u32) -> bool
    ensures { result ≡ has_table lanes.now table }
{
    lanes.iter().any(|lane| lane.table() == table)
}

/// Whether the lanes are of the first tables, of which there are so many.
pub(crate) fn are_below(lanes: &[UntoldLane], tables: u32) -> bool
    ensures { result ≡ are_below lanes.now tables }
{
    lanes.iter().all(|lane| lane.table() < tables)
}

// Adds rows to the file of a bucket.
fn append(
    alloc: Global,
    store: &mut UntoldStore,
    lane: UntoldLane,
    kinds: &Kinds,
    bucket: u8,
    rows: &[Row],
) -> Held
    requires in_range { bucket < 16 }
    requires whole { AreWhole lane.files }
    requires some_kinds { 0 < length kinds.now }
    requires few_kinds { length kinds.now ≤ 64 }
    requires fit { All (Fits kinds.now) rows.now }
    ensures { StaysHeld (Held.Writes lane) result }
{
    match lane.part(alloc, &[0; 16]) {
        Err((lane, NoMemory)) => Held::Writes(lane),
        Ok(parts) => {
            let mut parts = parts;
            let written = parts[0].append_rows(alloc, store, kinds, bucket, rows);
            parts_make_a_lane();
            let lane = LanePart::whole(parts);
            match written {
                Ok(()) => Held::Writes(lane),
                Err(_) => Held::Torn(lane),
            }
        }
    }
}

/// Adds rows to the file of a bucket, if the session writes a lane that is whole.
pub(crate) fn write(
    alloc: Global,
    store: &mut UntoldStore,
    held: Held,
    kinds: &Kinds,
    bucket: u8,
    rows: &[Row],
) -> Held
    requires in_range { bucket < 16 }
    requires ready { IsReady held }
    requires some_kinds { 0 < length kinds.now }
    requires few_kinds { length kinds.now ≤ 64 }
    requires fit { All (Fits kinds.now) rows.now }
    ensures { StaysHeld held result }
{
    match held {
        Held::Writes(lane) => append(alloc, store, lane, kinds, bucket, rows),
        other => other,
    }
}

/// Seals the lane that the session writes, if it is whole.
pub(crate) fn seal(store: &mut UntoldStore, hand: Hand) -> Hand
    requires { IsReady hand.held }
    ensures { Stays hand result }
{
    let Hand { mut sealed, held } = hand;
    match held {
        Held::Writes(lane) => {
            if sealed.reserve(1).is_err() {
                let held = Held::Writes(lane);
                return Hand { sealed, held };
            }
            match sealed_lane(store, lane) {
                Ok(lane) => {
                    sealed.push_reserved(lane);
                    let held = Held::Nothing;
                    Hand { sealed, held }
                }
                Err(lane) => {
                    let held = Held::Torn(lane);
                    Hand { sealed, held }
                }
            }
        }
        other => Hand {
            sealed,
            held: other,
        },
    }
}

// Seals a whole lane. One whose flush failed may be torn.
fn sealed_lane(store: &mut UntoldStore, lane: UntoldLane) -> Result<UntoldLane, UntoldLane>
    requires { AreWhole lane.files }
    ensures sealed { IfOk result (λ new. IsSameLane lane new × AreSealed false false new.files) }
    ensures torn { IfErr result (λ new. IsSameLane lane new × GetsNoSeal lane new) }
{
    let mut lane = lane;
    match lane.flush_all(store) {
        Ok(()) => {
            lane.seal_all(store);
            Ok(lane)
        }
        Err(_) => Err(lane),
    }
}

/// Cuts the lane back to its committed bytes, if the session has one to sweep.
pub(crate) fn cut(store: &mut UntoldStore, held: Held) -> Held
    requires { IsReady held }
    ensures { StaysHeld held result }
{
    match held {
        Held::Sweeps(lane) => {
            let mut lane = lane;
            let _ = lane.cut_back(store).is_ok();
            Held::Sweeps(lane)
        }
        other => other,
    }
}
