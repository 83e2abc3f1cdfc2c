//! Slices of a plan on one node: rows are read block by block and pass through the operators, and nothing is kept between
//! calls.
#![tactic(auto)]

mod builds;
mod end;
mod feed;
mod held;
mod inputs;
mod laws;
mod leaf;
mod line;
mod lists;
mod out;
mod pipes;
mod run;
mod skips;
mod slice;

pub use end::{FlowEnd, SliceEnd};
pub use laws::skipping_keeps_the_slice;
pub use out::{RowList, RowOut};
pub use slice::{flow_slice, run_slice};
