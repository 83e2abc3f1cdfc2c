//! Tables in memory and the answers to statements over them.
ghost use Rattle.std.specs.Prelude.{◌≡◌, ◌<◌, ◌++◌, ◌∷◌, [], length, Some, IfSome, IfOk, OnOk, OnErr};
ghost use Rattle.hq_value.specs.Order.{in_row_order};
ghost use Rattle.hq_value.specs.Tables.{IsDefinition};
ghost use Rattle.hq_value.specs.Bucket.{Buckets, rows_of};
ghost use Rattle.hq_table.specs.Kept.{TableState, Keeps};
ghost use Rattle.hq_table.specs.Home.{IsQuiet};
ghost use Rattle.hq_server.specs.Tables.{place_of};
ghost use Rattle.hq_server.specs.Places.{Inserts, Selects};
ghost use Rattle.hq_server.specs.Stands.{IsEmpty, kept_names};

use hq_forms::{Form, ParseFault, read_form};
use hq_reply::{Fault, Reply};
use hq_store::MemStore;
use hq_table::Table;
use hq_value::{
    Columns, Keys, Name, NoMemory, Row, Sequence, TableDef, shares_are_the_rows, sort_in_row_order,
    sorting_forgets_the_order,
};
use std::alloc::Global;
use std::marker::Model;

/// The most tables that there may be.
const MOST_TABLES: usize = 64;

/// The tables of a session, seen as they are kept, in the order in which they were made.
#[derive(Drop)]
pub struct Database {
    store: MemStore,
    tables: Vec<Table>,
}

impl Model for Database {
    ghost use Rattle.std.specs.Prelude.{List};
    ghost use Rattle.hq_table.specs.Kept.{TableState};
    ghost use Rattle.hq_table.specs.Home.{IsQuiet};

    ghost Value = { List TableState };

    ghost view = { λ d. d.tables.items };

    ghost invariant = { λ d. IsQuiet d.store };
}

impl Database {
    ghost use Rattle.hq_server.specs.Stands.{AnswersTo};
    ghost use Rattle.hq_forms.specs.Forms.{form_in};

    /// No tables.
    pub fn new(alloc: Global) -> Database
        ensures { result ≡ [] }
    {
        Database {
            store: MemStore::new(alloc, Vec::new(alloc)),
            tables: Vec::new(alloc),
        }
    }

    /// The reply to a statement's text. Without memory it is that fault, and nothing changes.
    pub fn answer(&mut self, alloc: Global, text: &[u8]) -> Reply
        ensures { AnswersTo (form_in text.now) self.old result self.new }
    {
        match read_form(alloc, text) {
            Ok(
                Form::Create {
                    name,
                    columns,
                    keys,
                },
            ) => self.create(alloc, name, columns, keys),
            Ok(Form::Insert { name, rows }) => self.insert(alloc, &name, rows),
            Ok(Form::Select { name }) => self.select(alloc, &name),
            Err(ParseFault::Syntax) => Reply::Error(Fault::Syntax),
            Err(ParseFault::NoMemory) => Reply::Error(Fault::NoMemory),
        }
    }

    fn create(&mut self, alloc: Global, name: Name, columns: Columns, keys: Keys) -> Reply
        requires { IsDefinition (record { name = name; columns = columns; keys = keys }) }
        ensures { AnswersTo (Some (Form.Create name columns keys)) self.old result self.new }
    {
        if place_of(&self.tables, &name).is_some() {
            return Reply::Error(Fault::TableExists);
        }
        if self.tables.len() >= MOST_TABLES {
            return Reply::Error(Fault::TooManyTables);
        }
        match add_table(alloc, &mut self.tables, name, columns, keys) {
            Ok(()) => Reply::Created,
            Err(NoMemory) => Reply::Error(Fault::NoMemory),
        }
    }

    fn insert(&mut self, alloc: Global, name: &Name, rows: Sequence<Row>) -> Reply
        ensures { AnswersTo (Some (Form.Insert name.now rows)) self.old result self.new }
    {
        shares_are_the_rows();
        match place_of(&self.tables, name) {
            Some(place) => insert_at(
                alloc,
                &mut self.store,
                &mut self.tables,
                place,
                rows.into_vec(),
            ),
            None => Reply::Error(Fault::UndefinedTable),
        }
    }

    fn select(&mut self, alloc: Global, name: &Name) -> Reply
        ensures { AnswersTo (Some (Form.Select name.now)) self.old result self.new }
    {
        sorting_forgets_the_order();
        match place_of(&self.tables, name) {
            Some(place) => select_at(alloc, &mut self.store, &self.tables, place),
            None => Reply::Error(Fault::UndefinedTable),
        }
    }
}

// The place of the first table of this name.
fn place_of(tables: &[Table], name: &Name) -> Option<usize>
    ensures place { result ≡ place_of name.now (kept_names tables.now) }
    ensures within { IfSome result (λ place. place < length tables.now) }
{
    match tables {
        [] => None,
        [first, rest @ ..] => {
            if first.is_named(name) {
                return Some(0);
            }
            match place_of(rest, name) {
                Some(place) => Some(place + 1),
                None => None,
            }
        }
    }
}

// Adds a table with no rows.
fn add_table(
    alloc: Global,
    tables: &mut Vec<Table>,
    name: Name,
    columns: Columns,
    keys: Keys,
) -> Result<(), NoMemory>
    requires columns { IsDefinition (record { name = name; columns = columns; keys = keys }) }
    requires tables { length tables.old.items < 64 }
    ensures ok { OnOk result ((kept : TableState) × IsEmpty name columns keys kept × (tables.new.items ≡ tables.old.items ++ kept ∷ [])) }
    ensures err { OnErr result (tables.new.items ≡ tables.old.items) }
{
    let def = TableDef::new(alloc, name, columns, keys)?;
    let table = Table::new(alloc, tables.len() as u32, def)?;
    match tables.push(table) {
        Ok(()) => Ok(()),
        Err(_) => Err(NoMemory),
    }
}

// Inserts rows into the table at a place.
fn insert_at(
    alloc: Global,
    store: &mut MemStore,
    tables: &mut Vec<Table>,
    place: usize,
    rows: Vec<Row>,
) -> Reply
    requires quiet { IsQuiet store.old }
    requires place { place < length tables.old.items }
    ensures answer { Inserts rows.items place tables.old.items result tables.new.items }
    ensures quiet { IsQuiet store.new }
{
    let table = &mut tables[place];
    let count = rows.len();
    if !table.fits(&rows) {
        return Reply::Error(Fault::TypeMismatch);
    }
    match table.insert(alloc, store, rows) {
        Ok(()) => Reply::Inserted(count as u64),
        Err(NoMemory) => Reply::Error(Fault::NoMemory),
    }
}

// The rows of the table at a place, in row order.
fn select_at(alloc: Global, store: &mut MemStore, tables: &[Table], place: usize) -> Reply
    requires quiet { IsQuiet store.old }
    requires place { place < length tables.now }
    ensures answer { Selects place tables.now result }
    ensures quiet { IsQuiet store.new }
{
    match sorted(alloc, store, &tables[place]) {
        Ok(rows) => Reply::Rows(rows),
        Err(NoMemory) => Reply::Error(Fault::NoMemory),
    }
}

fn sorted(alloc: Global, store: &mut MemStore, table: &Table) -> Result<Sequence<Row>, NoMemory>
    requires quiet { IsQuiet store.old }
    ensures rows { IfOk result (λ rows. (kept : Buckets) → Keeps table.now kept → rows ≡ in_row_order (rows_of kept)) }
    ensures quiet { IsQuiet store.new }
{
    let mut rows = table.scan(alloc, store)?;
    sort_in_row_order(&mut rows);
    Ok(Sequence::from_vec(rows))
}
