//! A table as a look saw it.
ghost use Rattle.std.specs.Prelude.{◌≡◌, ◌*◌, ◌^◌, ◌≤◌, [], length};
ghost use Rattle.hq_snap.specs.Snaps.{table_length, AreMerged};

use crate::LaneSeals;
use crate::room::Room;
use crate::table_delta::TableDelta;
use crate::table_seals::TableSeals;
use hq_store::SealCopy;
use hq_value::TableDef;
use std::marker::Model;

/// A table as a look saw it: its number, its definition, and the seals of its 64 lanes.
#[derive(Drop)]
pub struct TableSnap<Z: SealCopy> {
    table: u32,
    def: TableDef,
    seals: TableSeals<Z>,
}

impl<Z: SealCopy> Model for TableSnap<Z> {
    ghost use Rattle.hq_snap.specs.Snaps.{TableSnapState};

    ghost Value = { TableSnapState };

    ghost view = { λ s. record { table = s.table; def = s.def; lanes = s.seals } };
}

impl<Z: SealCopy> TableSnap<Z> {
    ghost use Rattle.std.specs.Prelude.{true};

    /// What was brought of a table that was not known before. There has to be room.
    pub(crate) fn new(delta: TableDelta<Z>, room: Room<Z>) -> TableSnap<Z>
        requires { room ≡ true }
        ensures table { result.table ≡ delta.table }
        ensures def { result.def ≡ delta.def }
        ensures seals { AreMerged delta.lanes [] result.lanes }
    {
        let table = delta.table();
        let (def, files) = delta.into_parts();
        let mut seals = room.into_places();
        seals.merge(files);
        TableSnap { table, def, seals }
    }

    /// The table's number.
    pub fn table(&self) -> u32
        ensures { result ≡ self.now.table }
    {
        self.table
    }

    pub fn def(&self) -> &TableDef
        ensures { result.now ≡ self.now.def }
    {
        &self.def
    }

    /// The seals of the lanes, lane by lane.
    pub fn lanes(&self) -> &[LaneSeals<Z>]
        ensures lanes { result.now ≡ self.now.lanes }
        ensures count { length result.now ≡ 64 }
    {
        self.seals.lanes()
    }

    /// How many bytes lie under the table's seals.
    pub fn length(&self) -> u128
        ensures { result ≡ table_length self.now.lanes }
    {
        length_of_lanes(self.seals.lanes())
    }

    /// The same table as a later look saw it: `newest` has its definition, and the seals of the files that changed.
    #[tactic(auto, using(crate::proofs::Placed::merged_of))]
    pub fn merge(&mut self, newest: TableDelta<Z>)
        ensures table { self.new.table ≡ self.old.table }
        ensures def { self.new.def ≡ newest.def }
        ensures seals { AreMerged newest.lanes self.old.lanes self.new.lanes }
    {
        let (def, files) = newest.into_parts();
        self.def = def;
        self.seals.merge(files);
    }
}

fn length_of_lanes<Z: SealCopy>(lanes: &[LaneSeals<Z>]) -> u128
    requires { length lanes.now ≤ 64 }
    ensures { result ≡ table_length lanes.now }
{
    let mut total = 0;
    for lane in lanes {
        total += lane.length();
    }
    total
}
