//! Tokens.
use std::alloc::AllocError;

#[derive(Clone, Copy, Debug, PartialEq, Eq)]
pub enum TokenKind {
    /// A letter or `_`, and letters, digits and `_`.
    Word,
    /// Digits, perhaps with leading zeros.
    Digits,
    /// A text between two `'`, in which `''` stands for one.
    Text,
    /// One of `( ) , . * + - = <> != < <= > >=`.
    Sign,
}

/// The bytes of a text from `start` up to `end`.
#[derive(Clone, Copy, Debug, PartialEq, Eq)]
pub struct Token {
    pub kind: TokenKind,
    pub start: u32,
    pub end: u32,
}

#[derive(Clone, Copy, Debug, PartialEq, Eq)]
pub enum LexFault {
    /// At this place there is something, and no token begins.
    NoToken { at: u32 },
    NoMemory,
}

impl From<AllocError> for LexFault {
    ghost use Rattle.std.specs.Prelude.{◌≡◌};
    ghost use Rattle.hq_lex.specs.declared.token.LexFault.TheVariants.{NoMemory};

    ghost from_gives = { λ _ e. e ≡ NoMemory };

    fn from(_: AllocError) -> LexFault {
        LexFault::NoMemory
    }
}
