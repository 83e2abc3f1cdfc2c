//! A table and its lane.
ghost use Rattle.std.specs.Prelude.{◌≡◌, ◌<◌, ◌≤◌, ◌++◌, ◌↔◌, ℕ, [], All, IsTrue, length, replicate, None, Some, IfOk, OnOk, OnErr};
ghost use Rattle.std.specs.Str.{bytes_eq};
ghost use Rattle.hq_value.specs.Kinds.{Fits, are_fit, kinds_of};
ghost use Rattle.hq_value.specs.Bucket.{Buckets, share, rows_of};
ghost use Rattle.hq_table.specs.Kept.{Keeps};
ghost use Rattle.hq_table.specs.Home.{IsQuiet};

use crate::append::append;
use crate::scan::scan;
use crate::spread::spread;
use hq_block::files_grow_by_blocks;
use hq_lane::Lane;
use hq_store::{MemFile, MemSeal, MemStore};
use hq_value::{Kinds, Name, NoMemory, Row, TableDef, all_fit, kinds_of};
use std::alloc::Global;
use std::marker::Model;
use std::mem;

/// A table whose rows lie in the 16 files of lane 0, seen as its definition and the committed bytes of each bucket.
pub struct Table {
    def: TableDef,
    kinds: Kinds,
    lane: Option<Lane<MemFile, MemSeal>>,
    seals: Vec<Option<MemSeal>>,
}

impl Model for Table {
    ghost use Rattle.hq_table.specs.Kept.{TableState};
    ghost use Rattle.hq_table.specs.Home.{IsTable, files_of};

    ghost Value = { TableState };

    ghost view = { λ t. record { name = t.def.name; columns = t.def.columns; keys = t.def.keys; files = files_of t.seals.items } };

    ghost invariant = { λ t. IsTable t.def.columns t.def.keys t.kinds t.lane t.seals.items };
}

impl Drop for Table {
    fn drop(self) {
        let Table {
            def: _def,
            kinds: _kinds,
            lane,
            seals: _seals,
        } = self;
        if let Some(lane) = lane {
            lane.abandon();
        }
    }
}

// Puts a lane where none is.
fn put(slot: &mut Option<Lane<MemFile, MemSeal>>, lane: Lane<MemFile, MemSeal>)
    requires { slot.old ≡ None }
    ensures { slot.new ≡ Some lane }
{
    match mem::replace(slot, Some(lane)) {
        None => {}
        Some(_lane) => unreachable!(),
    }
}

fn no_seals(alloc: Global) -> Result<Vec<Option<MemSeal>>, NoMemory>
    ensures { IfOk result (λ seals. seals.items ≡ replicate 16 None) }
{
    let mut seals = Vec::with_capacity(alloc, 16)?;
    for _ in 0..16usize {
        seals.push(None)?;
    }
    Ok(seals)
}

impl Table {
    /// A table with no rows.
    pub fn new(alloc: Global, number: u32, def: TableDef) -> Result<Table, NoMemory>
        ensures name { IfOk result (λ table. table.name ≡ def.name) }
        ensures columns { IfOk result (λ table. table.columns ≡ def.columns) }
        ensures keys { IfOk result (λ table. table.keys ≡ def.keys) }
        ensures empty { IfOk result (λ table. Keeps table (λ b. [])) }
    {
        def.keeps_the_rules();
        let kinds = kinds_of(alloc, def.columns().as_slice())?;
        let seals = no_seals(alloc)?;
        files_grow_by_blocks();
        let lane = Lane::fresh(alloc, number, 0)?;
        Ok(Table {
            def,
            kinds,
            lane: Some(lane),
            seals,
        })
    }

    /// Whether it has this name.
    pub fn is_named(&self, name: &Name) -> bool
        ensures { result ≡ bytes_eq self.now.name name.now }
    {
        self.def.name() == name
    }

    /// Whether each row has as many values as columns, each NULL or of its column's kind.
    pub fn fits(&self, rows: &[Row]) -> bool
        ensures test { result ≡ are_fit (kinds_of self.now.columns) rows.now }
        ensures fact { IsTrue result ↔ All (Fits (kinds_of self.now.columns)) rows.now }
    {
        all_fit(&self.kinds, rows)
    }

    /// Adds rows, each to the bucket of its keys, or of its place in the statement where the table has none. Without
    /// memory nothing changes.
    pub fn insert(
        &mut self,
        alloc: Global,
        store: &mut MemStore,
        rows: Vec<Row>,
    ) -> Result<(), NoMemory>
        requires fit { All (Fits (kinds_of self.old.columns)) rows.items }
        requires quiet { IsQuiet store.old }
        ensures def { self.new ≡ record self.old { files = self.new.files } }
        ensures added { OnOk result ((kept : Buckets) → Keeps self.old kept → Keeps self.new (λ b. kept b ++ share self.old.keys rows.items b)) }
        ensures err { OnErr result (self.new ≡ self.old) }
        ensures quiet { IsQuiet store.new }
    {
        let buckets = spread(alloc, rows, self.def.keys())?;
        let Some(lane) = self.lane.take() else {
            unreachable!();
        };
        files_grow_by_blocks();
        let (lane, added) = append(alloc, store, lane, &mut self.seals, &self.kinds, &buckets);
        put(&mut self.lane, lane);
        added
    }

    /// Its rows, bucket after bucket.
    pub fn scan(&self, alloc: Global, store: &mut MemStore) -> Result<Vec<Row>, NoMemory>
        requires { IsQuiet store.old }
        ensures rows { IfOk result (λ rows. (kept : Buckets) → Keeps self.now kept → rows.items ≡ rows_of kept) }
        ensures quiet { IsQuiet store.new }
    {
        scan(alloc, store, &self.seals, &self.kinds)
    }
}
