//! What is asked of a catalogue, and what it answers.
use hq_lane::Lane;
use hq_snap::{Have, Scope, TableDelta};
use hq_store::{SealCopy, StoredFile};
use hq_value::{Column, Marks, Name, TableDef};

/// What a session asks of the catalogue. Each ask, and what it answers, is one step and leaves one entry in the log, but
/// where the answer is `NoMemory`.
pub enum Ask<F: StoredFile, Z: SealCopy> {
    /// The tables of a scope. `have` names tables that the session has as they were at a place of the log, each once.
    Look { scope: Scope, have: Vec<Have> },
    /// A new table.
    Create(TableDef),
    /// One column more for a table.
    Alter { table: Name, column: Column },
    /// A lane of this table, of which the session has none.
    Lend(u32),
    /// To keep a lane that the session has swept, and that is clean now.
    Adopt(Lane<F, Z>),
    /// To commit all lanes that the session has out. They are sealed, and none is being swept by it.
    Commit(Vec<Lane<F, Z>>),
    /// To take back a lane that the session has out or has swept.
    Back(Lane<F, Z>),
    /// Any lane with a tail, to be swept.
    SweepAny,
    /// To mark a node.
    Mark { node: u8, up: bool },
}

/// What the catalogue answers. `NoMemory` changes nothing, and comes to `Look`, `Create`, `Alter`, `Lend`, `SweepAny`
/// and `Mark` alone.
pub enum Answer<F: StoredFile, Z: SealCopy> {
    /// The tables of the scope, with the seals of the files that changed since the session had them, the marks of the
    /// nodes, and the place of the look's own entry.
    Seen {
        at: u64,
        marks: Marks,
        tables: Vec<TableDelta<Z>>,
    },
    Made {
        table: u32,
    },
    /// A table has the name.
    Exists,
    /// There are 64 tables.
    TooManyTables {
        made: u8,
    },
    Altered {
        table: u32,
    },
    /// No table has the name.
    NoTable,
    /// The table has 64 columns.
    TooManyColumns {
        columns: u8,
    },
    /// The table has a column of the name.
    ColumnThere,
    /// A lane that has just its committed bytes.
    Clean(Lane<F, Z>),
    /// A lane with a tail that has to be cut off first.
    Sweep(Lane<F, Z>),
    /// A lane that was never lent, without files.
    Fresh(Lane<F, Z>),
    /// All lanes of the table are out, and how many these are.
    AllOut {
        out: u8,
    },
    Adopted(Lane<F, Z>),
    Done,
    /// No lane of any table has a tail.
    Nothing,
    NoMemory,
}
