//! Signs.
ghost use Rattle.std.specs.Prelude.{◌≡◌};
ghost use Rattle.hq_expr.specs.Lexemes as spec;

use crate::mark::Mark;

/// The sign that a token's bytes are.
pub fn sign(token: &[u8]) -> Option<Mark>
    ensures { result ≡ spec.sign_of token.now }
{
    match token {
        [b] => sign_of_one(*b),
        [b, c] => sign_of_two(*b, *c),
        _ => None,
    }
}

fn sign_of_one(b: u8) -> Option<Mark>
    ensures { result ≡ spec.sign_of_one b }
{
    match b {
        b'(' => Some(Mark::Open),
        b')' => Some(Mark::Close),
        b',' => Some(Mark::Comma),
        b'.' => Some(Mark::Dot),
        b'*' => Some(Mark::Star),
        b'+' => Some(Mark::Plus),
        b'-' => Some(Mark::Minus),
        b'=' => Some(Mark::Equal),
        b'<' => Some(Mark::Less),
        b'>' => Some(Mark::Greater),
        _ => None,
    }
}

fn sign_of_two(b: u8, c: u8) -> Option<Mark>
    ensures { result ≡ spec.sign_of_two b c }
{
    match (b, c) {
        (b'<', b'=') => Some(Mark::AtMost),
        (b'<', b'>') => Some(Mark::NotEqual),
        (b'>', b'=') => Some(Mark::AtLeast),
        (b'!', b'=') => Some(Mark::NotEqual),
        _ => None,
    }
}
