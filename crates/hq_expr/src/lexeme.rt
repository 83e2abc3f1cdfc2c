//! Tokens, as the grammar reads them.

use crate::long_text::LongText;
use crate::mark::Mark;
use hq_value::Name;

/// A token, as the grammar reads it.
#[derive(Debug, Drop)]
pub enum Lexeme {
    /// A reserved word or a sign.
    Mark(Mark),
    /// A word that is a name, in lower case.
    Name(Name),
    /// Digits. A number above 2 ^ 64 - 1 is taken for that number.
    Digits(u64),
    /// The text between the quotes, in which `''` is one quote.
    Text(LongText),
    /// A word that is neither reserved nor short enough to be a name.
    Long,
}
