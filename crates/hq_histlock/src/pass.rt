//! Passes.
use crate::view::View;
use atomic_table::{Badge, Seat};

/// A session's right to the lock, with what it knows of the history: see `View`. It has no more bytes than its
/// number, and for pass 0 the number of the next pass that it makes.
#[derive(Drop)]
pub struct Pass {
    pub number: u32,
    pub made: u32,
    pub badge: Badge<View>,
}

/// The value while a pass has the turn. It must be given back by `HistLock::leave`.
pub struct Held<V> {
    pub value: V,
    pub seat: Seat<Option<V>, View>,
}

impl Pass {
    ghost use Rattle.std.specs.Prelude.{◌≡◌, [], ◌∷◌};
    ghost use Rattle.hq_histlock.specs.Passes.{view, IsWhole};

    pub(crate) fn take_seat<V>(&mut self) -> Seat<Option<V>, View>
        requires { IsWhole self.old }
        ensures same { (self.new.number ≡ self.old.number) × (self.new.made ≡ self.old.made) }
        ensures table { result.table_id ≡ self.old.badge.table_id }
        ensures view { result.me.0 ≡ view self.old }
        ensures home { result.me.1 ≡ [] }
    {
        let badge = std::mem::replace(&mut self.badge, Badge::blank());
        badge.into_seat::<Option<V>>()
    }

    pub(crate) fn put_seat<V>(&mut self, seat: Seat<Option<V>, View>)
        requires { seat.me.1 ≡ [] }
        ensures same { (self.new.number ≡ self.old.number) × (self.new.made ≡ self.old.made) }
        ensures table { self.new.badge.table_id ≡ seat.table_id }
        ensures view { view self.new ≡ seat.me.0 }
        ensures whole { IsWhole self.new }
    {
        self.badge = seat.into_badge();
    }
}
