//! The lanes of a table.
ghost use Rattle.std.specs.Prelude.{◌≡◌, ◌↔◌, ℕ, true, false, length, replicate, slice_get, slice_set, Some, IfOk, IfSome, IsNone, vec_len, vec_capacity, ◌+◌, ◌<◌, ◌≤◌, ◌++◌, ◌∷◌, []};
ghost use Rattle.std.specs.List.{list_any, list_all};
ghost use Rattle.hq_value.specs.declared.entry.EntryKind.TheVariants as entry;
ghost use Rattle.hq_log.specs.Places.{is_dirty, is_out, passes_at, next_place};
ghost use Rattle.hq_log.specs.Pools.{places_after};

use crate::lend::{lend_next, put_home, sweep_lowest};
use crate::next::next_lane;
use crate::{Lent, Slot};
use hq_log::{Next, Place};
use hq_value::NoMemory;
use std::alloc::Global;
use std::marker::Model;

/// The 64 lanes of a table. A lane in hand has to come back: a pool never drops one.
#[derive(Debug, Drop)]
pub struct Pool<T> {
    slots: Vec<Slot<T>>,
}

impl<T> Model for Pool<T> {
    ghost use Rattle.std.specs.Prelude.{◌≡◌, length, List};
    ghost use Rattle.hq_pool.specs.declared.slot.Slot.{Slot};

    ghost Value = { List (Slot T) };

    ghost view = { λ p. p.slots.items };

    ghost invariant = { λ p. length p.slots.items ≡ 64 };
}

impl<T> Pool<T> {
    ghost use Rattle.hq_pool.specs.Slots.{places};
    ghost use Rattle.hq_pool.specs.Lends.{LendsTo, SweepsAny, entry_of};

    /// How many lanes a table has.
    pub const LANES: usize = 64;

    /// A pool of which no lane was lent yet.
    pub fn new(alloc: Global) -> Result<Pool<T>, NoMemory>
        ensures { IfOk result (λ pool. pool ≡ replicate 64 Slot.Unborn) }
    {
        let slots = unborn_slots(alloc)?;
        Ok(Pool { slots })
    }

    /// Where lane `n` is. None where there is no such lane.
    pub fn place(&self, n: u8) -> Option<Place>
        ensures { result ≡ slice_get (places self.now) n }
    {
        self.slots.get(n as usize).map(|slot| slot.place())
    }

    /// The lane that is lent next: the lowest clean one, else the lowest with a tail, else the lowest that was never
    /// lent. There is none exactly where all 64 are out.
    pub fn next(&self) -> Next
        ensures next { result ≡ next_place (places self.now) }
        ensures all_out { (result ≡ Next.AllOut) ↔ (list_all is_out (places self.now) ≡ true) }
        ensures lanes { length self.now ≡ 64 }
    {
        next_lane(&self.slots)
    }

    /// Lends session `k` the lane that `next` says, with its value where it has one. One with a tail is lent to be
    /// swept. Where all are out nothing changes.
    pub fn lend(&mut self, k: u32) -> Lent<T>
        ensures lent { LendsTo k self.old result self.new }
        ensures all_out { (result ≡ Lent.AllOut 64) ↔ (list_all is_out (places self.old) ≡ true) }
        ensures entry { (t : ℕ) → places self.new ≡ places_after t (places self.old) k (entry_of t result) }
    {
        lend_next(&mut self.slots, k)
    }

    /// Lane `n`, which session `k` has swept, is lent to it.
    pub fn adopt(&mut self, n: u8, k: u32)
        requires { slice_get (places self.old) n ≡ Some (Place.Sweeping k) }
        ensures adopted { self.new ≡ slice_set self.old n (Slot.Out k) }
        ensures entry { (t : ℕ) → places self.new ≡ places_after t (places self.old) k (entry.Adopt t n) }
    {
        put_home(&mut self.slots, n, Slot::Out(k));
    }

    /// Lane `n`, which is out, comes home without a tail.
    pub fn back_clean(&mut self, n: u8, value: T)
        requires { passes_at is_out (places self.old) n ≡ true }
        ensures home { self.new ≡ slice_set self.old n (Slot.Clean value) }
        ensures entry { (t k : ℕ) → places self.new ≡ places_after t (places self.old) k (entry.Back t n true) }
    {
        put_home(&mut self.slots, n, Slot::Clean(value));
    }

    /// Lane `n`, which is out, comes home with a tail.
    pub fn back_dirty(&mut self, n: u8, value: T)
        requires { passes_at is_out (places self.old) n ≡ true }
        ensures home { self.new ≡ slice_set self.old n (Slot.Dirty value) }
        ensures entry { (t k : ℕ) → places self.new ≡ places_after t (places self.old) k (entry.Back t n false) }
    {
        put_home(&mut self.slots, n, Slot::Dirty(value));
    }

    /// Lends session `k` the lowest lane with a tail, to be swept. None comes exactly where there is none, and then
    /// nothing changes.
    pub fn sweep_any(&mut self, k: u32) -> Option<(u8, T)>
        ensures swept { SweepsAny k self.old result self.new }
        ensures none { IsNone result ↔ (list_any is_dirty (places self.old) ≡ false) }
        ensures entry { IfSome result (λ lane. (t : ℕ) →
            places self.new ≡ places_after t (places self.old) k (entry.Sweep t lane.0)) }
    {
        sweep_lowest(&mut self.slots, k)
    }

    /// Gives up the pool for its slots, with the lanes that are at home.
    pub fn into_slots(self) -> Vec<Slot<T>>
        ensures { result.items ≡ self }
    {
        let Pool { slots } = self;
        slots
    }
}

fn unborn_slots<T>(alloc: Global) -> Result<Vec<Slot<T>>, NoMemory>
    ensures { IfOk result (λ slots. slots.items ≡ replicate 64 Slot.Unborn) }
{
    let mut slots = Vec::with_capacity(alloc, 64)?;
    for _ in 0..64usize {
        push_unborn(&mut slots);
    }
    Ok(slots)
}

// Adds a lane for which there is room.
fn push_unborn<T>(slots: &mut Vec<Slot<T>>)
    requires { vec_len slots.old < vec_capacity slots.old }
    ensures items { slots.new.items ≡ slots.old.items ++ Slot.Unborn ∷ [] }
    ensures len { vec_len slots.new ≡ vec_len slots.old + 1 }
    ensures room { vec_capacity slots.old ≤ vec_capacity slots.new }
{
    match slots.push(Slot::Unborn) {
        Ok(()) => (),
        Err(_refused) => unreachable!(),
    }
}
