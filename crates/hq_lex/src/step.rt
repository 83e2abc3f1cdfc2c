//! The next token of a text.

ghost use Rattle.std.specs.Prelude.{◌≡◌, ◌<◌, ◌≤◌, length, drop};
ghost use Rattle.hq_lex.specs.Step.{step_at, Advances};

use crate::front::{front, gap};
use crate::token::TokenKind;

/// What stands at a place, behind spaces and comments. Places are counted from the text's beginning.
#[derive(Clone, Copy, Debug, PartialEq, Eq)]
pub enum Step {
    /// Nothing but spaces and comments.
    End,
    /// A token.
    Token {
        kind: TokenKind,
        start: usize,
        end: usize,
    },
    /// Something that begins no token.
    Fault {
        at: usize,
    },
}

/// What stands at the place `at`. It takes no memory.
pub fn next_step(text: &[u8], at: usize) -> Step
    requires { at ≤ length text.now }
    ensures value { result ≡ step_at at (drop at text.now) }
    ensures advances { Advances at (length text.now) result }
{
    let start = at + gap(&text[at..]);
    if start == text.len() {
        return Step::End;
    }
    match front(&text[start..]) {
        Some((kind, len)) => Step::Token {
            kind,
            start,
            end: start + len,
        },
        None => Step::Fault { at: start },
    }
}
