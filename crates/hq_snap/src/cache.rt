//! Tables as looks saw them, kept.
ghost use Rattle.std.specs.Prelude.{◌≡◌, ◌≢◌, ◌+◌, ◌<◌, ◌≤◌, ◌++◌, ◌∷◌, ℕ, true, false, [], length, take, vec_len, vec_capacity, position, IfOk, IsSome, OnOk, OnErr};
ghost use Rattle.hq_snap.specs.Caches.{have_of, have_one, is_table, cached, IsMerged, MergesAll};
ghost use Rattle.hq_snap.specs.Deltas.{HaveRoom, room_at};

use crate::room::Room;
use crate::{Have, Scope, TableDelta, TableSnap};
use hq_store::SealCopy;
use hq_value::NoMemory;
use std::alloc::Global;
use std::marker::Model;

/// Tables as looks saw them, and of each the place of its last look in the log.
#[derive(Drop)]
pub struct SnapCache<Z: SealCopy> {
    tables: Vec<TableSnap<Z>>,
    places: Vec<u64>,
}

impl<Z: SealCopy> Model for SnapCache<Z> {
    ghost use Rattle.std.specs.Prelude.{◌≡◌, length};
    ghost use Rattle.hq_snap.specs.Caches.{CacheState};

    ghost Value = { CacheState };

    ghost view = { λ c. record { tables = c.tables.items; places = c.places.items } };

    ghost invariant = { λ c. length c.places.items ≡ length c.tables.items };
}

impl<Z: SealCopy> SnapCache<Z> {
    /// No table. It takes no memory.
    pub fn new(alloc: Global) -> SnapCache<Z>
        ensures { result ≡ record { tables = []; places = [] } }
    {
        SnapCache {
            tables: Vec::new(alloc),
            places: Vec::new(alloc),
        }
    }

    /// The tables.
    pub fn tables(&self) -> &[TableSnap<Z>]
        ensures { result.now ≡ self.now.tables }
    {
        &self.tables
    }

    /// The tables of the scope, with their places.
    pub fn have(&self, alloc: Global, scope: &Scope) -> Result<Vec<Have>, NoMemory>
        ensures { IfOk result (λ have. have.items ≡ have_of scope.now self.now.tables self.now.places) }
    {
        have_in(alloc, scope, &self.tables, &self.places)
    }

    /// Takes what a look at place `at` of the log brought. Without memory the cache stays as it was.
    pub fn merge(&mut self, at: u64, delta: Vec<TableDelta<Z>>) -> Result<(), NoMemory>
        ensures same { OnErr result (self.new ≡ self.old) }
        ensures merged { OnOk result (MergesAll at delta.items self.old self.new) }
    {
        if self.tables.reserve(delta.len()).is_err() {
            return Err(NoMemory);
        }
        if self.places.reserve(delta.len()).is_err() {
            return Err(NoMemory);
        }
        let rooms = rooms_for(&self.tables, &self.places, &delta)?;
        merge_all(&mut self.tables, &mut self.places, at, delta, rooms);
        Ok(())
    }
}

fn have_in<Z: SealCopy>(
    alloc: Global,
    scope: &Scope,
    tables: &[TableSnap<Z>],
    places: &[u64],
) -> Result<Vec<Have>, NoMemory>
    requires { length places.now ≡ length tables.now }
    ensures { IfOk result (λ have. have.items ≡ have_of scope.now tables.now places.now) }
{
    let mut have = Vec::new(alloc);
    for i in 0..tables.len() {
        add_have(&mut have, scope, &tables[i], places[i])?;
    }
    Ok(have)
}

// Adds a table, if the scope has it.
fn add_have<Z: SealCopy>(
    have: &mut Vec<Have>,
    scope: &Scope,
    snap: &TableSnap<Z>,
    at: u64,
) -> Result<(), NoMemory>
    ensures { OnOk result (have.new.items ≡ have.old.items ++ have_one scope.now snap.now at) }
{
    if scope.has(snap.def().name()) {
        have.push(Have {
            table: snap.table(),
            at,
        })?;
    }
    Ok(())
}

// Of each of these tables room for it, if it is not there yet.
fn rooms_for<Z: SealCopy>(
    tables: &Vec<TableSnap<Z>>,
    places: &Vec<u64>,
    delta: &Vec<TableDelta<Z>>,
) -> Result<Vec<Room<Z>>, NoMemory>
    requires { length places.now.items ≡ length tables.now.items }
    ensures { IfOk result (λ rooms. HaveRoom delta.now.items rooms.items tables.now.items places.now.items) }
{
    let alloc = *tables.allocator();
    let mut rooms = Vec::with_capacity(alloc, delta.len())?;
    for i in 0..delta.len() {
        rooms.push(room_for(alloc, tables, places, delta[i].table())?)?;
    }
    Ok(rooms)
}

#[tactic(auto, using(crate::proofs::Cached::there_found))]
fn room_for<Z: SealCopy>(
    alloc: Global,
    tables: &[TableSnap<Z>],
    places: &[u64],
    table: u32,
) -> Result<Room<Z>, NoMemory>
    requires { length places.now ≡ length tables.now }
    ensures { IfOk result (λ room. room ≡ false → IsSome (cached table tables.now places.now)) }
{
    // Its clause says how many places there are.
    let _ = places.len();
    match position_of(tables, table) {
        Some(_) => Ok(Room::none()),
        None => Room::new(alloc),
    }
}

// Merges each of these tables. There is room for all.
fn merge_all<Z: SealCopy>(
    tables: &mut Vec<TableSnap<Z>>,
    places: &mut Vec<u64>,
    at: u64,
    delta: Vec<TableDelta<Z>>,
    rooms: Vec<Room<Z>>,
)
    requires same { length places.old.items ≡ length tables.old.items }
    requires room { vec_len tables.old + vec_len delta ≤ vec_capacity tables.old }
    requires more_room { vec_len places.old + vec_len delta ≤ vec_capacity places.old }
    requires rooms { HaveRoom delta.items rooms.items tables.old.items places.old.items }
    ensures same { length places.new.items ≡ length tables.new.items }
    ensures merged { MergesAll at delta.items (record { tables = tables.old.items; places = places.old.items }) (record { tables = tables.new.items; places = places.new.items }) }
{
    let mut delta = delta;
    let mut rooms = rooms;
    while let Some(newest) = delta.pop() {
        let room = last_room(&mut rooms);
        merge_one(tables, places, at, newest, room);
    }
}

fn last_room<Z: SealCopy>(rooms: &mut Vec<Room<Z>>) -> Room<Z>
    requires { 0 < vec_len rooms.old }
    ensures room { result ≡ room_at rooms.old.items (vec_len rooms.new) }
    ensures rest { rooms.new.items ≡ take (vec_len rooms.new) rooms.old.items }
    ensures len { vec_len rooms.new + 1 ≡ vec_len rooms.old }
{
    match rooms.pop() {
        Some(room) => room,
        None => unreachable!(),
    }
}

// Merges a table. There is room for it.
fn merge_one<Z: SealCopy>(
    tables: &mut Vec<TableSnap<Z>>,
    places: &mut Vec<u64>,
    at: u64,
    newest: TableDelta<Z>,
    room: Room<Z>,
)
    requires same { length places.old.items ≡ length tables.old.items }
    requires room { vec_len tables.old < vec_capacity tables.old }
    requires more_room { vec_len places.old < vec_capacity places.old }
    requires there { room ≡ false → IsSome (cached newest.table tables.old.items places.old.items) }
    ensures same { length places.new.items ≡ length tables.new.items }
    ensures len { vec_len tables.new ≤ vec_len tables.old + 1 }
    ensures room { vec_capacity tables.old ≤ vec_capacity tables.new }
    ensures more_room { vec_capacity places.old ≤ vec_capacity places.new }
    ensures merged { IsMerged at newest (cached newest.table tables.old.items places.old.items) (cached newest.table tables.new.items places.new.items) }
    ensures others { (t : ℕ) → t ≢ newest.table → cached t tables.new.items places.new.items ≡ cached t tables.old.items places.old.items }
{
    match position_of(tables, newest.table()) {
        Some(i) => {
            tables[i].merge(newest);
            places[i] = at;
        }
        None => {
            push_snap(tables, TableSnap::new(newest, room));
            push_place(places, at);
        }
    }
}

fn position_of<Z: SealCopy>(tables: &[TableSnap<Z>], table: u32) -> Option<usize>
    ensures { result ≡ position (is_table table) tables.now }
{
    tables.iter().position(|snap| snap.table() == table)
}

// Adds a table for which there is room.
fn push_snap<Z: SealCopy>(tables: &mut Vec<TableSnap<Z>>, snap: TableSnap<Z>)
    requires { vec_len tables.old < vec_capacity tables.old }
    ensures items { tables.new.items ≡ tables.old.items ++ snap ∷ [] }
    ensures len { vec_len tables.new ≡ vec_len tables.old + 1 }
    ensures room { vec_capacity tables.old ≤ vec_capacity tables.new }
{
    match tables.push(snap) {
        Ok(()) => {}
        Err(_refused) => unreachable!(),
    }
}

// Adds a place for which there is room.
fn push_place(places: &mut Vec<u64>, at: u64)
    requires { vec_len places.old < vec_capacity places.old }
    ensures items { places.new.items ≡ places.old.items ++ at ∷ [] }
    ensures len { vec_len places.new ≡ vec_len places.old + 1 }
    ensures room { vec_capacity places.old ≤ vec_capacity places.new }
{
    match places.push(at) {
        Ok(()) => {}
        Err(_refused) => unreachable!(),
    }
}
