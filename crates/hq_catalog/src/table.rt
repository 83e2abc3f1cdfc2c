//! One table.
ghost use Rattle.std.specs.Prelude.{◌≡◌, ℕ, ◌+◌, ◌^◌, ◌<◌, ◌≤◌, ◌&&◌, ◌++◌, true, length, replicate, slice_get, slice_set, position, Some, None, IfOk, vec_len, vec_capacity};
ghost use Rattle.hq_lane.specs.Lanes.{are_clean, AreSealed};
ghost use Rattle.hq_log.specs.Places.{is_dirty, is_out, next_place, passes_at};
ghost use Rattle.hq_snap.specs.Snaps.{AreSince};
ghost use Rattle.hq_catalog.specs.Commits.{grown_in_lane, Begins, IsTaken, IsWell};
ghost use Rattle.hq_catalog.specs.Kept.{home_slot, IsTable};

use crate::commits::commit_files;
use crate::kept::Grown;
use hq_lane::Lane;
use hq_pool::{Lent, Next, Pool, Slot};
use hq_snap::{Changed, LaneSeals, TableDelta, copy_since};
use hq_store::{SealCopy, StoredFile};
use hq_value::{NoMemory, TableDef};
use std::alloc::Global;
use std::marker::Model;

/// A table's number and definition, its 64 lanes, their committed seals, and when each file changed.
pub(crate) struct Table<F: StoredFile, Z: SealCopy> {
    number: u32,
    def: TableDef,
    pool: Pool<Lane<F, Z>>,
    seals: Vec<LaneSeals<Z>>,
    changed: Changed,
}

impl<F: StoredFile, Z: SealCopy> Model for Table<F, Z> {
    ghost use Rattle.hq_catalog.specs.State.{TableState};

    ghost Value = { TableState };

    ghost view = { λ t. record { number = t.number; def = t.def; slots = t.pool; seals = t.seals.items; changed = t.changed } };
}

impl<F: StoredFile, Z: SealCopy> Table<F, Z> {
    ghost use Rattle.hq_log.specs.declared.place.Place.TheVariants as place;
    ghost use Rattle.hq_pool.specs.Slots.{places};
    ghost use Rattle.hq_pool.specs.Lends.{LendsTo, SweepsAny};

    /// A table of which no lane was lent yet, with room for all seals.
    pub(crate) fn new(alloc: Global, number: u32, def: TableDef) -> Result<Self, NoMemory>
        ensures number { IfOk result (λ t. t.number ≡ number) }
        ensures def { IfOk result (λ t. t.def ≡ def) }
        ensures slots { IfOk result (λ t. t.slots ≡ replicate 64 Slot.Unborn) }
        ensures seals { IfOk result (λ t. t.seals ≡ replicate 64 (replicate 16 None)) }
        ensures changed { IfOk result (λ t. t.changed ≡ replicate 64 (replicate 16 0)) }
    {
        let seals = no_seals(alloc)?;
        let changed = Changed::none(alloc)?;
        let pool = Pool::new(alloc)?;
        Ok(Table {
            number,
            def,
            pool,
            seals,
            changed,
        })
    }

    pub(crate) fn number(&self) -> u32
        ensures { result ≡ self.now.number }
    {
        self.number
    }

    pub(crate) fn def(&self) -> &TableDef
        ensures { result.now ≡ self.now.def }
    {
        &self.def
    }

    /// Gives it another definition.
    pub(crate) fn define(&mut self, def: TableDef)
        ensures { self.new ≡ record self.old { def = def } }
    {
        self.def = def;
    }

    /// Its definition, and the seals of the files that changed since.
    pub(crate) fn since(&self, alloc: Global, at: u64) -> Result<TableDelta<Z>, NoMemory>
        requires { length self.now.seals ≡ 64 }
        ensures table { IfOk result (λ snap. snap.table ≡ self.now.number) }
        ensures def { IfOk result (λ snap. snap.def ≡ self.now.def) }
        ensures seals { IfOk result (λ snap. AreSince self.now.changed at self.now.seals snap.lanes) }
    {
        copy_since(
            alloc,
            self.number,
            &self.def,
            &self.seals,
            &self.changed,
            at,
        )
    }

    /// The lane that is lent next.
    pub(crate) fn next(&self) -> Next
        ensures { result ≡ next_place (places self.now.slots) }
    {
        self.pool.next()
    }

    /// The lowest lane with a tail.
    pub(crate) fn lowest_dirty(&self) -> Option<u8>
        requires { length self.now.slots ≡ 64 }
        ensures { result ≡ position is_dirty (places self.now.slots) }
    {
        for n in 0..64u8 {
            if self.has_tail(n) {
                return Some(n);
            }
        }
        None
    }

    fn has_tail(&self, n: u8) -> bool
        ensures { result ≡ passes_at is_dirty (places self.now.slots) n }
    {
        match self.pool.place(n) {
            Some(place) => place.is_dirty(),
            None => false,
        }
    }

    /// Lends session `k` the lane that is next.
    pub(crate) fn lend(&mut self, k: u32) -> Lent<Lane<F, Z>>
        ensures lent { LendsTo k self.old.slots result self.new.slots }
        ensures same { self.new ≡ record self.old { slots = self.new.slots } }
    {
        self.pool.lend(k)
    }

    /// Lends session `k` the lowest lane with a tail, to be swept.
    pub(crate) fn sweep_any(&mut self, k: u32) -> Option<(u8, Lane<F, Z>)>
        ensures swept { SweepsAny k self.old.slots result self.new.slots }
        ensures same { self.new ≡ record self.old { slots = self.new.slots } }
    {
        self.pool.sweep_any(k)
    }

    /// Lane `n`, which session `k` has swept, is lent to it.
    pub(crate) fn adopt(&mut self, n: u8, k: u32)
        requires { slice_get (places self.old.slots) n ≡ Some (place.Sweeping k) }
        ensures { self.new ≡ record self.old { slots = slice_set self.old.slots n (Slot.Out k) } }
    {
        self.pool.adopt(n, k);
    }

    /// A lane that is out comes home, and it is told whether it is clean.
    pub(crate) fn back(&mut self, lane: Lane<F, Z>) -> bool
        requires { passes_at is_out (places self.old.slots) lane.number ≡ true }
        ensures clean { result ≡ are_clean lane.files }
        ensures home { self.new ≡ record self.old { slots = slice_set self.old.slots lane.number (home_slot lane) } }
    {
        let n = lane.number();
        if lane.is_clean() {
            self.pool.back_clean(n, lane);
            true
        } else {
            self.pool.back_dirty(n, lane);
            false
        }
    }

    /// A lane that is out and sealed comes home clean, committed by the entry at this place of the log.
    pub(crate) fn commit(&mut self, place: u64, lane: Lane<F, Z>, grown: &mut Vec<Grown>)
        requires behind { place + 1 < 2 ^ 64 }
        requires table { IsTable (F.tells && Z.tells) lane.table self.old }
        requires out { passes_at is_out (places self.old.slots) lane.number ≡ true }
        requires begins { Begins (F.tells && Z.tells) self.old.seals lane }
        requires sealed { AreSealed F.tells Z.tells lane.files }
        requires room { vec_len grown.old + 16 ≤ vec_capacity grown.old }
        ensures well { IsWell (F.tells && Z.tells) lane }
        ensures taken { IsTaken (F.tells && Z.tells) place lane self.old self.new }
        ensures grown { grown.new.items ≡ grown.old.items ++ grown_in_lane place lane }
        ensures grown_len { vec_len grown.new ≤ vec_len grown.old + 16 }
        ensures grown_room { vec_capacity grown.new ≡ vec_capacity grown.old }
    {
        let n = lane.number();
        let mut lane = lane;
        commit_files(
            place,
            &mut lane,
            &mut self.seals[n as usize],
            &mut self.changed,
            grown,
        );
        self.pool.back_clean(n, lane);
    }
}

fn no_seals<Z: SealCopy>(alloc: Global) -> Result<Vec<LaneSeals<Z>>, NoMemory>
    ensures { IfOk result (λ seals. seals.items ≡ replicate 64 (replicate 16 None)) }
{
    let mut seals = Vec::with_capacity(alloc, 64)?;
    for _ in 0..64usize {
        seals.push(LaneSeals::empty(alloc)?)?;
    }
    Ok(seals)
}

impl<F: StoredFile, Z: SealCopy> Drop for Table<F, Z> {
    fn drop(self) {
        let Table {
            number: _,
            def: _def,
            pool,
            seals: _seals,
            changed: _changed,
        } = self;
        abandon_all(pool.into_slots());
    }
}

// Gives up the lanes that are at home.
fn abandon_all<F: StoredFile, Z: SealCopy>(slots: Vec<Slot<Lane<F, Z>>>) {
    let mut slots = slots;
    while let Some(slot) = slots.pop() {
        match slot {
            Slot::Clean(lane) | Slot::Dirty(lane) => lane.abandon(),
            Slot::Unborn | Slot::Out(_) | Slot::Sweeping(_) => (),
        }
    }
    slots.destroy_empty();
}
