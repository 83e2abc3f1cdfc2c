//! Plans of bound queries, in which only the columns that a query names travel.
#![tactic(auto)]

mod fitting;
mod keeping;
mod making;
mod marking;
mod narrowing;
mod not_narrowed;
mod part;
mod planning;
mod renaming;
mod taking;
mod widening;

pub use planning::plan;
