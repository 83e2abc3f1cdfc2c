//! Values, rows and their order; names, tables and the entries of the catalogue's log.
#![tactic(auto)]

mod causes;
mod cells;
mod chars;
mod entry;
mod fault;
mod fields;
mod key;
mod kind;
mod laws;
mod marks;
mod name;
mod operator;
mod row;
mod sequence;
mod table;
mod value;

pub use causes::rises_add_up;
pub use chars::Chars;
pub use entry::{Entry, EntryKind, FileId, LANES};
pub use fault::{DoorFault, Failed, NoMemory};
pub use fields::{read_u16, read_u32, read_u64};
pub use key::{BUCKETS, bucket_at, bucket_of, bucket_of_places, put_key};
pub use kind::{Kind, Kinds, all_fit, fits, kinds_of};
pub use laws::{
    orders_are_total, rows_that_fit_have_their_keys, shares_are_the_rows, sorting_forgets_the_order,
};
pub use marks::Marks;
pub use name::Name;
pub use operator::{ArithKind, CompareKind};
pub use row::{Row, compare_rows, sort_in_row_order};
pub use sequence::Sequence;
pub use table::{Column, ColumnFault, Columns, Keys, Keys16, TableDef};
pub use value::{Value, compare_values};
