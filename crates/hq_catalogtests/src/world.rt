//! A catalogue over a store that tells nothing, and the sessions that ask it.
ghost use Rattle.std.specs.Prelude.{◌≡◌, ◌<◌, ◌≤◌, List, Some, IfOk, length, vec_len, slice_get, slice_set};
ghost use Rattle.hq_history.specs.declared.noted.Noted.{Noted as OneNoted};
ghost use Rattle.hq_history.specs.Deposits.{tables_left};
ghost use Rattle.hq_catalogtests.specs.Turns.{AreEmpty, IsMadeIn, IsReady, Stays, StaysHeld};

use crate::asks::{Turn, ask};
use crate::hand::{Hand, Held, cut, seal, write};
use crate::turns::{Said, Untold};
use hq_catalog::Catalogue;
use hq_untold::{Reads, UntoldStore};
use hq_value::{
    Column, Columns, Entry, Keys, Kind, Kinds, Name, NoMemory, Row, TableDef, Value, all_fit,
    kinds_of,
};
use std::alloc::Global;
use std::marker::Model;
use std::mem;

/// What a session does to the lane that it has.
#[derive(Clone, Copy)]
pub(crate) enum Work {
    /// So many rows to the file of a bucket.
    Write { bucket: u8, rows: u32 },
    Seal,
    Cut,
}

/// The catalogue, and what its sessions have, each at its number.
pub(crate) struct World {
    alloc: Global,
    catalogue: Untold,
    store: UntoldStore,
    kinds: Kinds,
    hands: Vec<Hand>,
    nodes: u8,
    tables: u32,
    statement: u32,
}

impl Model for World {
    ghost use Rattle.std.specs.Prelude.{◌≡◌, ℕ, false, length};
    ghost use Rattle.hq_catalog.specs.History.{history};
    ghost use Rattle.hq_catalogtests.specs.Turns.{IsWorld};

    ghost Value = { ℕ };

    ghost view = { λ w. w.tables };

    ghost invariant = { λ w. IsWorld (history false w.catalogue) w.hands.items w.tables × (w.nodes ≡ length w.catalogue.marks) };
}

/// A name of 1 to 63 bytes.
pub(crate) fn name_of(alloc: Global, text: &str) -> Result<Option<Name>, NoMemory> {
    let bytes = text.as_bytes();
    if bytes.is_empty() || bytes.len() > Name::MOST {
        return Ok(None);
    }
    Ok(Some(Name::new(bytes.to_vec(alloc)?)))
}

/// A column of integers.
pub(crate) fn column_of(name: Name) -> Column {
    Column {
        name,
        kind: Kind::Int,
        not_null: false,
    }
}

/// A table of one column of integers, `a`.
pub(crate) fn table_of(alloc: Global, name: Name) -> Result<TableDef, NoMemory> {
    let mut columns = Columns::new(alloc);
    columns.push(column_of(Name::new(b"a".to_vec(alloc)?)))?;
    TableDef::new(alloc, name, columns, Keys::new(alloc))
}

// The kinds of one column of integers.
fn one_kind(alloc: Global) -> Result<Kinds, NoMemory> {
    let def = table_of(alloc, Name::new(b"t".to_vec(alloc)?))?;
    kinds_of(alloc, def.columns().as_slice())
}

// So many hands without a lane.
fn empty_hands(alloc: Global, count: usize) -> Result<Vec<Hand>, NoMemory>
    ensures { IfOk result (λ hands. AreEmpty hands.items) }
{
    let mut hands = Vec::with_capacity(alloc, count)?;
    for _ in 0..count {
        hands.push_reserved(Hand::empty(alloc));
    }
    Ok(hands)
}

// Takes what a session has out of its place, and puts something else there.
fn exchange(hands: &mut Vec<Hand>, session: u32, hand: Hand) -> Hand
    requires { session < vec_len hands.old }
    ensures had { slice_get hands.old.items session ≡ Some result }
    ensures len { vec_len hands.new ≡ vec_len hands.old }
    ensures has { hands.new.items ≡ slice_set hands.old.items session hand }
{
    mem::replace(&mut hands[session as usize], hand)
}

// How many tables are known to be made, once a session is told something.
fn made_by(tables: u32, said: &Said) -> u32
    ensures { (history : List OneNoted) → tables ≤ length (tables_left history) → IsMadeIn history said.now → result ≤ length (tables_left history) }
{
    match said {
        Said::Made(table) => table.saturating_add(1),
        _ => tables,
    }
}

// So many rows of one integer.
fn rows_of(alloc: Global, count: u32) -> Result<Vec<Row>, NoMemory> {
    let mut rows = Vec::new(alloc);
    for place in 0..count {
        rows.push(Row::one(alloc, Value::Int(i64::from(place))))?;
    }
    Ok(rows)
}

// Writes rows of one integer, if they fit.
fn write_rows(
    alloc: Global,
    store: &mut UntoldStore,
    kinds: &Kinds,
    held: Held,
    bucket: u8,
    count: u32,
) -> Held
    requires { IsReady held }
    ensures { StaysHeld held result }
{
    let Ok(rows) = rows_of(alloc, count) else {
        return held;
    };
    if bucket > 15 || kinds.len() != 1 || !all_fit(kinds, &rows) {
        return held;
    }
    write(alloc, store, held, kinds, bucket, &rows)
}

// What a session has behind the work.
fn worked(alloc: Global, store: &mut UntoldStore, kinds: &Kinds, hand: Hand, work: Work) -> Hand
    requires { IsReady hand.held }
    ensures { Stays hand result }
{
    match work {
        Work::Seal => seal(store, hand),
        Work::Write { bucket, rows } => {
            let Hand { sealed, held } = hand;
            let held = write_rows(alloc, store, kinds, held, bucket, rows);
            Hand { sealed, held }
        }
        Work::Cut => {
            let Hand { sealed, held } = hand;
            let held = cut(store, held);
            Hand { sealed, held }
        }
    }
}

impl World {
    /// The most sessions that there may be.
    const SESSIONS: usize = 80;

    /// A catalogue of so many nodes, which are 1 to 16, and sessions without lanes.
    pub(crate) fn new(alloc: Global, nodes: u8) -> Result<World, NoMemory>
        requires some { 0 < nodes }
        requires few { nodes ≤ 16 }
    {
        Ok(World {
            alloc,
            catalogue: Catalogue::new(alloc, nodes)?,
            store: UntoldStore::new(alloc, Reads::Zeros),
            kinds: one_kind(alloc)?,
            hands: empty_hands(alloc, World::SESSIONS)?,
            nodes,
            tables: 0,
            statement: 0,
        })
    }

    /// The log of the catalogue.
    pub(crate) fn log(&self) -> &[Entry] {
        self.catalogue.log()
    }

    /// A session asks.
    pub(crate) fn turn(&mut self, session: u32, turn: Turn) -> Said {
        if session as usize >= self.hands.len() {
            return Said::MayNotAsk;
        }
        self.statement = self.statement.saturating_add(1);
        let hand = exchange(&mut self.hands, session, Hand::empty(self.alloc));
        let (hand, said) = ask(
            self.alloc,
            &mut self.catalogue,
            self.tables,
            self.nodes,
            session,
            self.statement,
            turn,
            hand,
        );
        let none = exchange(&mut self.hands, session, hand);
        none.give_up();
        self.tables = made_by(self.tables, &said);
        said
    }

    /// A session works on the lane that it has.
    pub(crate) fn work(&mut self, session: u32, work: Work) {
        if session as usize >= self.hands.len() {
            return;
        }
        let hand = exchange(&mut self.hands, session, Hand::empty(self.alloc));
        let hand = worked(self.alloc, &mut self.store, &self.kinds, hand, work);
        let none = exchange(&mut self.hands, session, hand);
        none.give_up();
    }

    /// Gives up all lanes, and ends.
    pub(crate) fn end(self) {
        let World {
            alloc: _,
            catalogue: _catalogue,
            store: _store,
            kinds: _kinds,
            hands,
            nodes: _,
            tables: _,
            statement: _,
        } = self;
        let mut hands = hands;
        while let Some(hand) = hands.pop() {
            hand.give_up();
        }
        hands.destroy_empty();
    }
}
