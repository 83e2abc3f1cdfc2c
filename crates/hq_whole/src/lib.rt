//! Plans of bound queries, in which all columns of their sources travel.
#![tactic(auto)]

mod checking;
mod choosing;
mod gathering;
mod homes;
mod making;
mod ordering;
mod planning;
mod renaming;
mod sent;
mod source;
mod spreading;
mod stages;
mod step;
mod steps;
mod tables;
mod turn;

pub use choosing::size_of;
pub use planning::plan_whole;
pub use tables::{def_of, kinds_by, width_of, width_of_all};
