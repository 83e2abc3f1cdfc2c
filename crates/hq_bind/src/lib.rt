//! What a statement is over the definitions of tables: the first refusal, or what it is bound to.
#![tactic(auto)]

mod binding;
mod bound;
mod create;
mod faults;
mod findings;
mod insert;
mod laws;
mod outputs;
mod placed;
mod query;
mod query_faults;
mod reading;
mod refusal;
mod scope;
mod select;
mod targets;

pub use binding::bind;
pub use bound::{Bound, Outputs, Places};
pub use faults::Faults;
pub use findings::Findings;
pub use laws::{bound_queries_have_plans, inserted_rows_fit};
pub use refusal::Refusal;
pub use scope::{SourceColumn, SourceColumns};
