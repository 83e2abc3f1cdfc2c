//! Which lane is lent next.
ghost use Rattle.std.specs.Prelude.{◌≡◌, ◌≤◌, length, position};
ghost use Rattle.hq_log.specs.Places.{is_unborn, is_clean, is_dirty, next_place};
ghost use Rattle.hq_pool.specs.Slots.{places};

use crate::Slot;
use hq_log::Next;

/// The lowest clean lane, else the lowest with a tail, else the lowest that was never lent.
pub(crate) fn next_lane<T>(slots: &[Slot<T>]) -> Next
    requires { length slots.now ≤ 64 }
    ensures { result ≡ next_place (places slots.now) }
{
    if let Some(n) = lowest_clean(slots) {
        return Next::Clean(n as u8);
    }
    if let Some(n) = lowest_dirty(slots) {
        return Next::Dirty(n as u8);
    }
    if let Some(n) = lowest_unborn(slots) {
        return Next::Unborn(n as u8);
    }
    Next::AllOut
}

fn lowest_clean<T>(slots: &[Slot<T>]) -> Option<usize>
    ensures { result ≡ position is_clean (places slots.now) }
{
    slots.iter().position(|slot| slot.is_clean())
}

pub(crate) fn lowest_dirty<T>(slots: &[Slot<T>]) -> Option<usize>
    ensures { result ≡ position is_dirty (places slots.now) }
{
    slots.iter().position(|slot| slot.is_dirty())
}

fn lowest_unborn<T>(slots: &[Slot<T>]) -> Option<usize>
    ensures { result ≡ position is_unborn (places slots.now) }
{
    slots.iter().position(|slot| slot.is_unborn())
}
