//! The bytes up to the `;` that ends a piece.
ghost use Rattle.std.specs.Prelude.{◌≡◌, ◌<◌, ◌≤◌, ◌^◌, [], length, IfOk, OnErr, vec_capacity};
ghost use Rattle.std.specs.Io.KnownBytes.{prepend_known};
ghost use Rattle.hq_value.specs.Causes.{HasCause};
ghost use Rattle.hq_io.specs.Gathering.{Stopped, Uncut};

use crate::chunk::Chunk;
use crate::held::{Part, take_part};
use crate::scan::Spot;
use crate::{Kind, Source, is_blank};
use hq_value::Failed;

/// What ended the bytes: a `;`, the end, or one byte more than an input may have. They may be too long for a piece.
#[derive(Clone, Copy, Debug, PartialEq, Eq)]
pub enum Stop {
    Ended(bool),
    Rest(bool),
    Limit,
}

impl Stop {
    ghost use Rattle.hq_io.specs.Gathering.{kind_of, is_rest};

    /// What the reader answers.
    pub fn kind(&self, text: &[u8]) -> Kind
        ensures { result ≡ kind_of self.now text.now }
    {
        match self {
            Stop::Ended(true) => Kind::TooLong,
            Stop::Ended(false) => Kind::Statement,
            Stop::Rest(true) => Kind::TooLong,
            Stop::Rest(false) => {
                if is_blank(text) {
                    Kind::End
                } else {
                    Kind::Unended
                }
            }
            Stop::Limit => Kind::Limit,
        }
    }

    /// Whether the input has ended.
    pub fn is_rest(&self) -> bool
        ensures { result ≡ is_rest self.now }
    {
        matches!(self, Stop::Rest(_))
    }
}

/// Takes the bytes up to the `;` that ends the piece, and keeps as many as a piece may have.
pub fn gather<S: Source>(
    chunk: &mut Chunk,
    text: &mut Vec<u8>,
    taken: &mut u64,
    source: &mut S,
) -> Result<Stop, Failed>
    requires room { 65536 ≤ vec_capacity text.old }
    requires taken { taken.old ≤ 2 ^ 32 }
    ensures stop { IfOk result (λ stop. Stopped stop (prepend_known chunk.old (S.left source.old)) (prepend_known chunk.new (S.left source.new)) text.new.items taken.old taken.new) }
    ensures more { IfOk result (λ stop. stop ≡ Stop.Limit → 0 < length chunk.new) }
    ensures fault { OnErr result (Uncut (prepend_known chunk.old (S.left source.old)) (prepend_known chunk.new (S.left source.new)) taken.old taken.new) }
    ensures held { OnErr result (chunk.new ≡ []) }
    ensures room { 65536 ≤ vec_capacity text.new }
    ensures taken { taken.new ≤ 2 ^ 32 }
    ensures label { S.label source.new ≡ S.label source.old }
    ensures cause { HasCause (S.faults source.old) (S.faults source.new) result }
    ensures sound { S.sound source.old → (S.faults source.new ≡ S.faults source.old) × S.sound source.new }
{
    text.clear();
    let mut long = false;
    let mut spot = Spot::Outside;
    loop {
        if !chunk.fill(source)? {
            return Ok(Stop::Rest(long));
        }
        match take_part(chunk, text, long, spot, taken) {
            Part::Inside(longer, next) => {
                long = longer;
                spot = next;
            }
            Part::Ended(long) => return Ok(Stop::Ended(long)),
            Part::Limit => return Ok(Stop::Limit),
        }
    }
}
