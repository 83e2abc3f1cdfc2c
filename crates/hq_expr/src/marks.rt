//! Texts of words and signs alone. Nothing here takes memory.
ghost use Rattle.std.specs.Prelude.{◌≡◌, ◌≤◌, ◌∷◌, [], List, length, IfSome, IfNone};
ghost use Rattle.std.specs.Bool.{OnTrue, OnFalse};
ghost use Rattle.hq_expr.specs.Lexemes as spec;
ghost use Rattle.hq_expr.specs.Lexemes.{IsLexed, IsLexedFrom, Passes};
ghost use Rattle.hq_expr.specs.declared.lexeme.Lexeme.{Lexeme as LexemeType};

use crate::lexeme::Lexeme;
use crate::mark::Mark;
use crate::sign::sign;
use crate::word::reserved;
use hq_lex::{Step, TokenKind, next_step};

/// Whether a text is just these words and signs.
pub fn are_marks(text: &[u8], marks: &[Mark]) -> bool
    ensures yes { OnTrue result (IsLexed text.now (spec.marks_alone marks.now)) }
    ensures no { OnFalse result (IsLexed text.now (spec.marks_alone marks.now) → ⊥) }
{
    let mut at = 0;
    for mark in marks {
        match behind_mark(text, at, *mark) {
            Some(end) => at = end,
            None => return false,
        }
    }
    is_end(text, at)
}

// The place behind this word or sign, where it comes next.
fn behind_mark(text: &[u8], at: usize, mark: Mark) -> Option<usize>
    requires { at ≤ length text.now }
    ensures some { IfSome result (λ end. Passes text.now at mark end) }
    ensures none { IfNone result ((ls : List LexemeType) → IsLexedFrom text.now at (Lexeme.Mark mark ∷ ls) → ⊥) }
{
    match next_step(text, at) {
        Step::End => None,
        Step::Fault { at: _ } => None,
        Step::Token { kind, start, end } => {
            if is_mark(kind, &text[start..end], mark) {
                Some(end)
            } else {
                None
            }
        }
    }
}

// Whether nothing but spaces and comments is left.
fn is_end(text: &[u8], at: usize) -> bool
    requires { at ≤ length text.now }
    ensures yes { OnTrue result (IsLexedFrom text.now at []) }
    ensures no { OnFalse result (IsLexedFrom text.now at [] → ⊥) }
{
    match next_step(text, at) {
        Step::End => true,
        Step::Fault { at: _ } => false,
        Step::Token {
            kind: _,
            start: _,
            end: _,
        } => false,
    }
}

fn is_mark(kind: TokenKind, token: &[u8], mark: Mark) -> bool
    ensures { result ≡ spec.is_mark mark (spec.mark_in (spec.lexeme kind token.now)) }
{
    match mark_of(kind, token) {
        Some(found) => found == mark,
        None => false,
    }
}

fn mark_of(kind: TokenKind, token: &[u8]) -> Option<Mark>
    ensures { result ≡ spec.mark_in (spec.lexeme kind token.now) }
{
    match kind {
        TokenKind::Word => reserved(token),
        TokenKind::Digits => None,
        TokenKind::Text => None,
        TokenKind::Sign => sign(token),
    }
}
