//! Room for a table that a cache has not yet.
ghost use Rattle.std.specs.Prelude.{◌≡◌, true, false, replicate, None, IfOk};

use crate::table_seals::TableSeals;
use hq_store::SealCopy;
use hq_value::NoMemory;
use std::alloc::Global;
use std::marker::Model;

/// The places for the seals of a table, or none. It is seen as whether there are some.
#[derive(Drop)]
pub(crate) struct Room<Z: SealCopy> {
    places: Option<TableSeals<Z>>,
}

impl<Z: SealCopy> Model for Room<Z> {
    ghost use Rattle.std.specs.Prelude.{◌≡◌, Bool, None, is_some, replicate};
    ghost use Rattle.std.specs.Option.{ForSome};

    ghost Value = { Bool };

    ghost view = { λ r. is_some r.places };

    ghost invariant = { λ r. ForSome r.places (λ p. p ≡ replicate 64 (replicate 16 None)) };
}

impl<Z: SealCopy> Room<Z> {
    pub(crate) fn none() -> Room<Z>
        ensures { result ≡ false }
    {
        Room { places: None }
    }

    pub(crate) fn new(alloc: Global) -> Result<Room<Z>, NoMemory>
        ensures { IfOk result (λ room. room ≡ true) }
    {
        let places = TableSeals::none(alloc)?;
        Ok(Room {
            places: Some(places),
        })
    }

    pub(crate) fn into_places(self) -> TableSeals<Z>
        requires { self ≡ true }
        ensures { result ≡ replicate 64 (replicate 16 None) }
    {
        match self.places {
            Some(places) => places,
            None => unreachable!(),
        }
    }
}
