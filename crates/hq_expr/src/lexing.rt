//! A text as lexemes.
ghost use Rattle.std.specs.Prelude.{◌≡◌, ◌≢◌, ◌<◌, ◌≤◌, ◌-◌, ◌∷◌, ◌++◌, [], List, Some, length, take, drop, IfOk, OnOk, IsErrOf};
ghost use Rattle.hq_lex.specs.Front.{front};
ghost use Rattle.hq_lex.specs.Step.{step_at, Advances};
ghost use Rattle.hq_expr.specs.Lexemes as spec;
ghost use Rattle.hq_expr.specs.Lexemes.{IsLexed};
ghost use Rattle.hq_expr.specs.declared.lexeme.Lexeme.{Lexeme as LexemeType};

use crate::fault::ParseFault;
use crate::lexeme::Lexeme;
use crate::number::digits_value;
use crate::quoted::text_between;
use crate::sign::sign;
use crate::word::word;
use hq_lex::{Step, TokenKind, next_step};
use std::alloc::Global;

/// The lexemes of a text in order.
pub fn lexemes(alloc: Global, text: &str) -> Result<Vec<Lexeme>, ParseFault>
    ensures found { IfOk result (λ v. IsLexed text.now v.items) }
    ensures refused { IsErrOf result ParseFault.Syntax → (ls : List LexemeType) → IsLexed text.now ls → ⊥ }
{
    let mut out = Vec::new(alloc);
    let mut at = 0;
    'lex: while at < text.len() {
        match step_in(text, at) {
            Step::End => return Ok(out),
            Step::Fault { at: _ } => return Err(ParseFault::Syntax),
            Step::Token { kind, start, end } => {
                let next = lexeme(alloc, text, kind, start, end)?;
                push(&mut out, next)?;
                at = end;
            }
        }
    }
    Ok(out)
}

// What stands at the place `at`.
#[inline(always)]
fn step_in(text: &str, at: usize) -> Step
    requires { at ≤ length text.now }
    ensures value { result ≡ step_at at (drop at text.now) }
    ensures advances { Advances at (length text.now) result }
{
    next_step(text.as_bytes(), at)
}

#[inline(always)]
fn push(out: &mut Vec<Lexeme>, next: Lexeme) -> Result<(), ParseFault>
    ensures ok { OnOk result (out.new.items ≡ out.old.items ++ next ∷ []) }
    ensures err { IsErrOf result ParseFault.Syntax → ⊥ }
{
    match out.push(next) {
        Ok(()) => Ok(()),
        Err(_) => Err(ParseFault::NoMemory),
    }
}

// A token of a text as the grammar reads it.
#[inline(always)]
fn lexeme(
    alloc: Global,
    text: &str,
    kind: TokenKind,
    start: usize,
    end: usize,
) -> Result<Lexeme, ParseFault>
    requires some { start < end }
    requires within { end ≤ length text.now }
    requires token { front (drop start text.now) ≡ Some (kind, end - start) }
    ensures ok { IfOk result (λ l. l ≡ spec.lexeme kind (take (end - start) (drop start text.now))) }
    ensures err { IsErrOf result ParseFault.Syntax → ⊥ }
{
    match kind {
        TokenKind::Text => quoted(alloc, text, start, end),
        _ => plain(alloc, kind, &text.as_bytes()[start..end]),
    }
}

// A text between quotes.
fn quoted(alloc: Global, text: &str, start: usize, end: usize) -> Result<Lexeme, ParseFault>
    requires { front (drop start text.now) ≡ Some (TokenKind.Text, end - start) }
    ensures ok { IfOk result (λ l. l ≡ spec.lexeme TokenKind.Text (take (end - start) (drop start text.now))) }
    ensures err { IsErrOf result ParseFault.Syntax → ⊥ }
{
    match text_between(alloc, &text[start..end]) {
        Ok(text) => Ok(Lexeme::Text(text)),
        Err(fault) => Err(fault),
    }
}

// A word, digits or a sign.
#[inline(always)]
fn plain(alloc: Global, kind: TokenKind, token: &[u8]) -> Result<Lexeme, ParseFault>
    requires some { 0 < length token.now }
    requires plain { kind ≢ TokenKind.Text }
    ensures ok { IfOk result (λ l. l ≡ spec.lexeme kind token.now) }
    ensures err { IsErrOf result ParseFault.Syntax → ⊥ }
{
    match kind {
        TokenKind::Word => word(alloc, token),
        TokenKind::Digits => Ok(Lexeme::Digits(digits_value(token))),
        TokenKind::Sign => match sign(token) {
            Some(mark) => Ok(Lexeme::Mark(mark)),
            None => Ok(Lexeme::Long),
        },
        TokenKind::Text => Err(ParseFault::NoMemory),
    }
}
