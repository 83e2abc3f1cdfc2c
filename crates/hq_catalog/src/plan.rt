//! An ask that has all the memory that it wants.
use crate::table::Table;
use hq_lane::Lane;
use hq_snap::TableDelta;
use hq_store::{SealCopy, StoredFile};
use hq_value::{Column, Name, TableDef};

/// What is left of an ask once all the memory that it wants is there: one step that can't fail.
pub(crate) enum Plan<F: StoredFile, Z: SealCopy> {
    /// The tables that a look sees.
    Look(Vec<TableDelta<Z>>),
    /// A table, and its name and definition once more, to be kept.
    Make {
        name: Name,
        def: TableDef,
        table: Table<F, Z>,
    },
    Exists,
    TooManyTables,
    /// The definition of a table with a column more, and the column once more, to be kept.
    Add {
        table: u32,
        def: TableDef,
        column: Column,
    },
    NoTable,
    TooManyColumns(u8),
    ColumnThere,
    Lend(u32),
    Adopt(Lane<F, Z>),
    Commit(Vec<Lane<F, Z>>),
    Back(Lane<F, Z>),
    SweepAny,
    Mark {
        node: u8,
        up: bool,
    },
}

impl<F: StoredFile, Z: SealCopy> Plan<F, Z> {
    /// Gives it up, with the lanes in it.
    pub(crate) fn give_up(self) {
        match self {
            Plan::Look(_tables) => {}
            Plan::Make {
                name: _name,
                def: _def,
                table: _table,
            } => {}
            Plan::Add {
                table: _,
                def: _def,
                column: _column,
            } => {}
            Plan::Adopt(lane) => lane.abandon(),
            Plan::Back(lane) => lane.abandon(),
            Plan::Commit(lanes) => abandon_lanes(lanes),
            Plan::Exists => {}
            Plan::TooManyTables => {}
            Plan::NoTable => {}
            Plan::TooManyColumns(_) => {}
            Plan::ColumnThere => {}
            Plan::Lend(_) => {}
            Plan::SweepAny => {}
            Plan::Mark { node: _, up: _ } => {}
        }
    }
}

fn abandon_lanes<F: StoredFile, Z: SealCopy>(lanes: Vec<Lane<F, Z>>) {
    let mut lanes = lanes;
    while let Some(lane) = lanes.pop() {
        lane.abandon();
    }
    lanes.destroy_empty();
}
