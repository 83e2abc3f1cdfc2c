//! A statement that can be answered.

use hq_value::{Columns, Keys, Name, Row, Sequence};

/// A statement of one of the forms that are answered. Names are in lower case, and keys are places of columns.
#[derive(Debug, Drop)]
pub enum Form {
    Create {
        name: Name,
        columns: Columns,
        keys: Keys,
    },
    Insert {
        name: Name,
        rows: Sequence<Row>,
    },
    Select {
        name: Name,
    },
}
