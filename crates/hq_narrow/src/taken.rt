//! A source of which only some columns are taken.
use hq_algebra::Keys16;

/// A table, and the places of the columns of it that are taken, in order.
#[derive(Drop)]
pub struct Taken {
    pub table: u32,
    pub columns: Keys16,
}
