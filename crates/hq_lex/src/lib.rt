//! Cuts a text of SQL into tokens.
#![tactic(auto)]

mod cutting;
mod front;
mod laws;
mod step;
mod token;

pub use cutting::tokens;
pub use laws::{one_cutting, places_are_exact, tokens_are_slices};
pub use step::{Step, next_step};
pub use token::{LexFault, Token, TokenKind};
