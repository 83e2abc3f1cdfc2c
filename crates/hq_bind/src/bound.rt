//! What a statement is bound to.
use hq_algebra::{Aggregates, Exprs, Query};
use hq_value::{Row, Sequence, TableDef};

/// For each column of a table the place of its value among those given, or none.
pub type Places = Sequence<Option<u16>>;

/// A statement over the tables that are there.
#[derive(Debug, Drop)]
pub enum Bound {
    /// The table that a CREATE TABLE makes.
    Create(TableDef),
    /// A SELECT.
    Query(Query),
    /// An INSERT of tuples: rows of all columns in order.
    Values {
        table: u32,
        rows: Vec<Row>,
    },
    /// An INSERT of a SELECT: for each column of the table its place in the query's row, or none.
    InsertQuery {
        table: u32,
        places: Places,
        query: Query,
    },
}

/// The output columns of a query, its aggregates, and HAVING.
#[derive(Debug, Drop)]
pub struct Outputs {
    pub items: Exprs,
    pub aggregates: Aggregates,
    pub having: Exprs,
}
