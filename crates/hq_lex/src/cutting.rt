//! All tokens of a text.

ghost use Rattle.std.specs.Prelude.{◌≡◌, ◌<◌, ◌^◌, ℕ, IfOk, OnOk, ◌++◌, ◌∷◌, [], length};
ghost use Rattle.hq_lex.specs.Cut.{IsTokens, NoTokenAt};

use crate::step::{Step, next_step};
use crate::token::{LexFault, Token, TokenKind};
use std::alloc::{AllocError, Global};

const MOST: usize = 0xffff_ffff;

/// The tokens of a text in order. NoToken comes exactly at the first place where no token begins. A text whose
/// places pass 32 bits answers NoMemory.
pub fn tokens(alloc: Global, text: &str) -> Result<Vec<Token>, LexFault>
    ensures found { IfOk result (λ v. IsTokens text.now 0 v.items) }
    ensures fault { (at : ℕ) → result ≡ Err (LexFault.NoToken at) → NoTokenAt text.now 0 at }
{
    let text = text.as_bytes();
    if text.len() > MOST {
        return Err(LexFault::NoMemory);
    }
    cut(alloc, text)
}

fn cut(alloc: Global, text: &[u8]) -> Result<Vec<Token>, LexFault>
    requires { length text.now < 2 ^ 32 }
    ensures found { IfOk result (λ v. IsTokens text.now 0 v.items) }
    ensures fault { (at : ℕ) → result ≡ Err (LexFault.NoToken at) → NoTokenAt text.now 0 at }
{
    let mut out = Vec::new(alloc);
    let mut at = 0;
    'cut: while at < text.len() {
        match next_step(text, at) {
            Step::End => return Ok(out),
            Step::Fault { at } => return Err(LexFault::NoToken { at: at as u32 }),
            Step::Token { kind, start, end } => {
                push(&mut out, kind, start, end)?;
                at = end;
            }
        }
    }
    Ok(out)
}

fn push(out: &mut Vec<Token>, kind: TokenKind, start: usize, end: usize) -> Result<(), AllocError>
    requires start { start < 2 ^ 32 }
    requires end { end < 2 ^ 32 }
    ensures { OnOk result (out.new.items ≡ out.old.items ++ record { kind = kind; start = start; end = end } ∷ []) }
{
    out.push(Token {
        kind,
        start: start as u32,
        end: end as u32,
    })?;
    Ok(())
}
