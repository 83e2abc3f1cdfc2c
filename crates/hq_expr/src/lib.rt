//! Expressions of SQL, and the lexemes that they are read from.
#![tactic(auto)]

mod conds;
mod cursor;
mod fault;
mod kinds;
mod laws;
mod leaves;
mod lexeme;
mod lexing;
mod long_text;
mod mark;
mod marks;
mod nodes;
mod number;
mod quoted;
mod sign;
mod sums;
mod tree;
mod uses;
mod whole;
mod word;

pub use cursor::{Cursor, Peek};
pub use fault::ParseFault;
pub use hq_value::{ArithKind, CompareKind};
pub use laws::{conditions_are_exact, items_are_exact, values_are_exact};
pub use leaves::reference;
pub use lexeme::Lexeme;
pub use lexing::lexemes;
pub use long_text::LongText;
pub use mark::Mark;
pub use marks::are_marks;
pub use tree::{AggregateKind, ColumnRef, Literal, SqlExpr};
pub use uses::{Uses, uses_of};
pub use whole::{condition, item_sum, value};
