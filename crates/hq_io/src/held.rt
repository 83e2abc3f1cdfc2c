//! What the bytes that a reader holds bring to the text of a piece.
ghost use Rattle.std.specs.Prelude.{◌≡◌, ◌≢◌, ◌≤◌, ◌<◌, ◌+◌, ◌^◌, ◌++◌, ℕ, List, length, MatchOption, vec_capacity};
ghost use Rattle.hq_io.specs.Scanning.{Passes};
ghost use Rattle.hq_io.specs.Gathering.{Gathered, TakesPart};

use crate::chunk::Chunk;
use crate::scan::{Found, Spot, find_end};

/// The bytes of a piece are at most these.
pub const MOST: usize = 65_536;

/// The bytes of an input are at most these.
pub const MOST_BYTES: u64 = 1 << 32;

/// A part inside a piece and the spot behind it, the end of a piece at its `;`, or the last byte that an input may have
/// where more follow. The piece may be too long.
#[derive(Clone, Copy, Debug, PartialEq, Eq)]
pub enum Part {
    Inside(bool, Spot),
    Ended(bool),
    Limit,
}

// Adds bytes for which there is room.
fn append(text: &mut Vec<u8>, bytes: &[u8])
    requires fits { length text.old.items + length bytes.now ≤ 65536 }
    requires room { 65536 ≤ vec_capacity text.old }
    ensures items { text.new.items ≡ text.old.items ++ bytes.now }
    ensures room { 65536 ≤ vec_capacity text.new }
{
    match text.extend_from_slice(bytes) {
        Ok(()) => {}
        Err(_) => unreachable!(),
    }
}

// Keeps as many of the bytes as a piece may have, and says whether there are more.
fn keep(text: &mut Vec<u8>, long: bool, bytes: &[u8]) -> bool
    requires room { 65536 ≤ vec_capacity text.old }
    requires fits { length text.old.items ≤ 65536 }
    ensures gathered { (seen : List ℕ) (from to : Spot) → Gathered seen from long text.old.items → Passes from bytes.now to → Gathered (seen ++ bytes.now) to result text.new.items }
    ensures room { 65536 ≤ vec_capacity text.new }
{
    let room = MOST - text.len();
    if bytes.len() <= room {
        append(text, bytes);
        return long;
    }
    append(text, &bytes[..room]);
    true
}

/// Takes the held bytes up to the `;` that ends the piece, or all of them, and no more than an input may have.
pub fn take_part(
    chunk: &mut Chunk,
    text: &mut Vec<u8>,
    long: bool,
    spot: Spot,
    taken: &mut u64,
) -> Part
    requires room { 65536 ≤ vec_capacity text.old }
    requires fits { length text.old.items ≤ 65536 }
    requires taken { taken.old ≤ 2 ^ 32 }
    ensures part { (seen : List ℕ) → Gathered seen spot long text.old.items → TakesPart result seen text.new.items chunk.old chunk.new taken.old taken.new }
    ensures more { result ≡ Part.Limit → 0 < length chunk.new }
    ensures room { 65536 ≤ vec_capacity text.new }
    ensures taken { taken.new ≤ 2 ^ 32 }
{
    let held = chunk.as_slice();
    let most = (MOST_BYTES - *taken) as usize;
    let within = &held[..held.len().min(most)];
    match find_end(within, spot) {
        Found::Cut(at) => {
            let long = keep(text, long, &within[..at]);
            *taken += at as u64 + 1;
            chunk.skip(at + 1);
            Part::Ended(long)
        }
        Found::Through(spot) => {
            let more = held.len() > most;
            let long = keep(text, long, within);
            let count = within.len();
            *taken += count as u64;
            chunk.skip(count);
            if more {
                Part::Limit
            } else {
                Part::Inside(long, spot)
            }
        }
    }
}
