//! Statements as trees.

use hq_expr::{ColumnRef, Literal, SqlExpr};
use hq_value::{Column, Columns, Name, Sequence};

/// A statement.
#[derive(Debug, Drop)]
pub enum Statement {
    Create(CreateStatement),
    /// ALTER TABLE: the column is added last, and takes NULL.
    Alter { table: Name, column: Column },
    Insert(InsertStatement),
    Select(SelectStatement),
    Begin { snapshot: bool },
    Commit,
    Rollback,
}

/// CREATE TABLE. `keys` is empty where rows are spread at random.
#[derive(Debug, Drop)]
pub struct CreateStatement {
    pub name: Name,
    pub columns: Columns,
    pub keys: Names,
}

/// INSERT. `columns` is empty where no columns are named.
#[derive(Debug, Drop)]
pub struct InsertStatement {
    pub name: Name,
    pub columns: Names,
    pub input: InsertInput,
}

/// What an INSERT puts into its table.
#[derive(Debug, Drop)]
pub enum InsertInput {
    Tuples(Tuples),
    Select(SelectStatement),
}

/// SELECT. A list is empty where its clause is missing, and `items` for `*`. `conds` has the conditions of ON in
/// order, and then that of WHERE.
#[derive(Debug, Drop)]
pub struct SelectStatement {
    pub distinct: bool,
    pub items: Items,
    pub sources: Sources,
    pub conds: Conds,
    pub groups: ColumnRefs,
    pub having: Option<SqlExpr>,
    pub keys: OrderKeys,
    pub limit: Option<u64>,
}

/// One output column of a SELECT.
#[derive(Debug, Drop)]
pub struct Item {
    pub expr: SqlExpr,
    pub alias: Option<Name>,
}

/// One table of a SELECT.
#[derive(Debug, Drop)]
pub struct SourceName {
    pub table: Name,
    pub alias: Option<Name>,
}

/// One key of ORDER BY.
#[derive(Debug, Drop)]
pub struct OrderKey {
    pub by: OrderBy,
    pub descending: bool,
}

/// What rows are ordered by: an output column by its name, or by its place, from 1.
#[derive(Debug, Drop)]
pub enum OrderBy {
    Column(Name),
    Place(u64),
}

pub type Names = Sequence<Name>;

pub type Literals = Sequence<Literal>;

pub type Tuples = Sequence<Literals>;

pub type Items = Sequence<Item>;

pub type Sources = Sequence<SourceName>;

pub type Conds = Sequence<SqlExpr>;

pub type ColumnRefs = Sequence<ColumnRef>;

pub type OrderKeys = Sequence<OrderKey>;
