//! Lanes taken out of their slots.
ghost use Rattle.std.specs.Prelude.{◌≡◌, true, length, slice_get, slice_set, Some};
ghost use Rattle.hq_log.specs.Places.{is_unborn, is_clean, is_dirty, is_out, passes_at};
ghost use Rattle.hq_pool.specs.Slots.{places};
ghost use Rattle.hq_pool.specs.Lends.{LendsTo, SweepsAny};

use crate::next::{lowest_dirty, next_lane};
use crate::{Lent, Slot};
use hq_log::Next;
use std::mem;

/// Lends session `k` the lane that is next.
pub(crate) fn lend_next<T>(slots: &mut Vec<Slot<T>>, k: u32) -> Lent<T>
    requires { length slots.old.items ≡ 64 }
    ensures lent { LendsTo k slots.old.items result slots.new.items }
    ensures lanes { length slots.new.items ≡ 64 }
{
    match next_lane(slots) {
        Next::Clean(n) => Lent::Clean(n, take_clean(slots, n, k)),
        Next::Dirty(n) => Lent::Sweep(n, take_dirty(slots, n, k)),
        Next::Unborn(n) => {
            take_unborn(slots, n, k);
            Lent::Fresh(n)
        }
        Next::AllOut => Lent::AllOut { out: 64 },
    }
}

/// Lends session `k` the lowest lane with a tail, to be swept.
pub(crate) fn sweep_lowest<T>(slots: &mut Vec<Slot<T>>, k: u32) -> Option<(u8, T)>
    requires { length slots.old.items ≡ 64 }
    ensures swept { SweepsAny k slots.old.items result slots.new.items }
    ensures lanes { length slots.new.items ≡ 64 }
{
    match lowest_dirty(slots) {
        None => None,
        Some(n) => {
            let n = n as u8;
            Some((n, take_dirty(slots, n, k)))
        }
    }
}

fn take_clean<T>(slots: &mut Vec<Slot<T>>, n: u8, k: u32) -> T
    requires { passes_at is_clean (places slots.old.items) n ≡ true }
    ensures value { slice_get slots.old.items n ≡ Some (Slot.Clean result) }
    ensures out { slots.new.items ≡ slice_set slots.old.items n (Slot.Out k) }
{
    match mem::replace(&mut slots[n as usize], Slot::Out(k)) {
        Slot::Clean(value) => value,
        _other => unreachable!(),
    }
}

fn take_dirty<T>(slots: &mut Vec<Slot<T>>, n: u8, k: u32) -> T
    requires { passes_at is_dirty (places slots.old.items) n ≡ true }
    ensures value { slice_get slots.old.items n ≡ Some (Slot.Dirty result) }
    ensures swept { slots.new.items ≡ slice_set slots.old.items n (Slot.Sweeping k) }
{
    match mem::replace(&mut slots[n as usize], Slot::Sweeping(k)) {
        Slot::Dirty(value) => value,
        _other => unreachable!(),
    }
}

fn take_unborn<T>(slots: &mut Vec<Slot<T>>, n: u8, k: u32)
    requires { passes_at is_unborn (places slots.old.items) n ≡ true }
    ensures unborn { slice_get slots.old.items n ≡ Some Slot.Unborn }
    ensures out { slots.new.items ≡ slice_set slots.old.items n (Slot.Out k) }
{
    match mem::replace(&mut slots[n as usize], Slot::Out(k)) {
        Slot::Unborn => (),
        _other => unreachable!(),
    }
}

/// Puts what a slot has become in the place of a lane that is out.
pub(crate) fn put_home<T>(slots: &mut Vec<Slot<T>>, n: u8, slot: Slot<T>)
    requires { passes_at is_out (places slots.old.items) n ≡ true }
    ensures { slots.new.items ≡ slice_set slots.old.items n slot }
{
    match mem::replace(&mut slots[n as usize], slot) {
        Slot::Out(_) | Slot::Sweeping(_) => (),
        _other => unreachable!(),
    }
}
