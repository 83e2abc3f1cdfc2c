//! The operators of a plan over rows in memory.
#![tactic(auto)]

mod begin;
mod best;
mod chains;
mod column;
mod distinct;
mod end;
mod filter;
mod finals;
mod gathered;
mod gathering;
mod groups;
mod guesses;
mod halves;
mod join;
mod laws;
mod partial;
mod parts;
mod pipe;
mod project;
mod rest;
mod running;
mod sort;
mod standing;
mod take;
mod total;
mod work;

pub use distinct::distinct_rows;
pub use end::OpEnd;
pub use filter::filter_rows;
pub use finals::final_rows;
pub use join::join_rows;
pub use laws::what_a_pipe_gave_stays;
pub use partial::partial_rows;
pub use pipe::Pipe;
pub use project::project_rows;
pub use sort::sort_rows;
