//! The forms of a statement that are answered: CREATE TABLE, INSERT of rows, and SELECT * of one table.
#![tactic(auto)]

mod create;
mod form;
mod insert;
mod laws;
mod reading;
mod select;

pub use form::Form;
pub use hq_sql::ParseFault;
pub use laws::forms_are_statements;
pub use reading::read_form;
