//! The text of a literal.
ghost use Rattle.std.specs.Prelude.{◌≡◌, ◌<◌, length, nat_lt, string_bytes, IfOk, IfSome, IfNone};

use hq_value::{Chars, NoMemory};
use std::marker::Model;

/// A text of any length, seen as its bytes, which are UTF-8. One that is short enough for a value is held as such,
/// so that values share it.
#[derive(Debug, Drop)]
pub struct LongText {
    held: Held,
}

#[derive(Debug, Drop)]
enum Held {
    Short(Chars),
    Long(String),
}

impl Model for LongText {
    ghost use Rattle.std.specs.Prelude.{ℕ, List};
    ghost use Rattle.hq_expr.specs.Held.{held_bytes, IsHeld};

    ghost Value = { List ℕ };

    ghost view = { λ t. held_bytes t.held };

    ghost invariant = { λ t. IsHeld t.held };
}

impl LongText {
    pub fn new(text: String) -> Result<LongText, NoMemory>
        ensures { IfOk result (λ long. long ≡ string_bytes text) }
    {
        if text.len() > Chars::MOST {
            return Ok(LongText {
                held: Held::Long(text),
            });
        }
        let chars = Chars::new(text)?;
        Ok(LongText {
            held: Held::Short(chars),
        })
    }

    pub fn as_bytes(&self) -> &[u8]
        ensures { result.now ≡ self.now }
    {
        match &self.held {
            Held::Short(chars) => chars.as_bytes(),
            Held::Long(text) => text.as_bytes(),
        }
    }

    /// Whether it is too long for a value.
    pub fn is_long(&self) -> bool
        ensures { result ≡ nat_lt 1000 (length self.now) }
    {
        self.as_bytes().len() > Chars::MOST
    }

    /// It as the text of a value, which shares it. None exactly where it is too long for one.
    pub fn chars(&self) -> Option<&Chars>
        ensures some { IfSome result (λ chars. chars.now ≡ self.now) }
        ensures none { IfNone result (1000 < length self.now) }
    {
        match &self.held {
            Held::Short(chars) => Some(chars),
            Held::Long(_) => None,
        }
    }
}
