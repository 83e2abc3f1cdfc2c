//! What operators give of rows, and what queries and plans mean.
#![tactic(auto)]

mod laws;

pub use laws::tables_are_bags;
