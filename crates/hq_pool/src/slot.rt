//! Lanes in a pool.
ghost use Rattle.std.specs.Prelude.{◌≡◌};

use hq_log::Place;

/// A lane of a pool: where it is, and the lane itself where it is at home.
#[derive(Debug, Drop)]
pub enum Slot<T> {
    Unborn,
    Clean(T),
    Dirty(T),
    Out(u32),
    Sweeping(u32),
}

impl<T> Slot<T> {
    ghost use Rattle.hq_log.specs.Places.{is_unborn, is_clean, is_dirty};
    ghost use Rattle.hq_pool.specs.Slots.{place_of};

    /// Where the lane is.
    pub fn place(&self) -> Place
        ensures { result ≡ place_of self.now }
    {
        match self {
            Slot::Unborn => Place::Unborn,
            Slot::Clean(_) => Place::Clean,
            Slot::Dirty(_) => Place::Dirty,
            Slot::Out(session) => Place::Out(*session),
            Slot::Sweeping(session) => Place::Sweeping(*session),
        }
    }

    pub(crate) fn is_unborn(&self) -> bool
        ensures { result ≡ is_unborn (place_of self.now) }
    {
        self.place().is_unborn()
    }

    pub(crate) fn is_clean(&self) -> bool
        ensures { result ≡ is_clean (place_of self.now) }
    {
        self.place().is_clean()
    }

    pub(crate) fn is_dirty(&self) -> bool
        ensures { result ≡ is_dirty (place_of self.now) }
    {
        self.place().is_dirty()
    }
}
