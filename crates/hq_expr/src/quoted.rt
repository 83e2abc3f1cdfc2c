//! Texts between quotes.
ghost use Rattle.std.specs.Prelude.{◌≡◌, Some, false, length, position, slice_index, string_bytes, IfOk, IsErrOf};
ghost use Rattle.hq_lex.specs.Front.{IsQuoted};
ghost use Rattle.hq_expr.specs.Lexemes as spec;

use crate::fault::ParseFault;
use crate::long_text::LongText;
use hq_value::NoMemory;
use std::alloc::{AllocError, Global};

/// The text that a token between quotes stands for.
pub fn text_between(alloc: Global, token: &str) -> Result<LongText, ParseFault>
    requires { IsQuoted token.now (length token.now) }
    ensures ok { IfOk result (λ text. text ≡ spec.without_doubles false (spec.between_quotes token.now)) }
    ensures err { IsErrOf result ParseFault.Syntax → ⊥ }
{
    match without_doubles(alloc, between_quotes(token)) {
        Ok(text) => held(text),
        Err(_) => Err(ParseFault::NoMemory),
    }
}

fn held(text: String) -> Result<LongText, ParseFault>
    ensures ok { IfOk result (λ long. long ≡ string_bytes text) }
    ensures err { IsErrOf result ParseFault.Syntax → ⊥ }
{
    match LongText::new(text) {
        Ok(long) => Ok(long),
        Err(NoMemory) => Err(ParseFault::NoMemory),
    }
}

fn between_quotes(token: &str) -> &str
    requires { IsQuoted token.now (length token.now) }
    ensures { result.now ≡ spec.between_quotes token.now }
{
    &token[1..token.len() - 1]
}

// Of two quotes in a row the second is left out.
#[tactic(auto, using(crate::proofs::Quotes::piece_on, crate::proofs::Quotes::piece_all))]
fn without_doubles(alloc: Global, content: &str) -> Result<String, AllocError>
    ensures { IfOk result (λ text. string_bytes text ≡ spec.without_doubles false content.now) }
{
    let mut text = String::with_capacity(alloc, content.len())?;
    let mut rest = content;
    'pieces: while let Some(place) = first_quote(rest) {
        text.push_str(up_to_quote(rest, place))?;
        rest = behind_quote(rest, place);
    }
    text.push_str(rest)?;
    Ok(text)
}

fn first_quote(text: &str) -> Option<usize>
    ensures { result ≡ position spec.is_quote text.now }
{
    text.as_bytes().iter().position(|b| *b == b'\'')
}

// The text up to its first quote, with it.
fn up_to_quote(text: &str, place: usize) -> &str
    requires { position spec.is_quote text.now ≡ Some place }
    ensures { result.now ≡ spec.up_to_quote text.now place }
{
    &text[..place + 1]
}

// The text behind its first quote, and behind a second one that follows at once.
fn behind_quote(text: &str, place: usize) -> &str
    requires { position spec.is_quote text.now ≡ Some place }
    ensures { result.now ≡ spec.behind_quote text.now place }
{
    if is_quote_at(text.as_bytes(), place + 1) {
        &text[place + 2..]
    } else {
        &text[place + 1..]
    }
}

fn is_quote_at(bytes: &[u8], place: usize) -> bool
    ensures { result ≡ spec.is_quote (slice_index bytes.now place) }
{
    match bytes.get(place) {
        Some(b) => *b == b'\'',
        None => false,
    }
}
