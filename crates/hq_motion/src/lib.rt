//! The rows of a slice on their way to others: shared out to receivers, and in bytes.
#![tactic(auto)]

mod bytes;
mod laws;
mod split;

pub use bytes::{bytes_to_rows, rows_to_bytes};
pub use laws::rows_have_one_spelling;
pub use split::split_rows;
