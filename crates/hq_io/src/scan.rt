//! Which `;` ends a piece.
ghost use Rattle.std.specs.Prelude.{◌≡◌, ◌==◌, ◌&&◌, ◌<◌, length};
ghost use Rattle.hq_io.specs.Scanning.{Scans, Steps, Stays, after, is_outside};

use memchr::{memchr, memchr3};

/// Where the next byte stands, as far as the bytes before it tell: behind a `-` outside texts and comments that depends
/// on the byte itself.
#[derive(Clone, Copy, Debug, PartialEq, Eq)]
pub enum Spot {
    Outside,
    Dash,
    Text,
    Comment,
}

/// The `;` that ends a piece, by its place among the bytes, or where the byte behind all of them stands.
#[derive(Clone, Copy, Debug, PartialEq, Eq)]
pub enum Found {
    Cut(usize),
    Through(Spot),
}

// A scan's next step: the `;` that ends the piece, or so many bytes that end none.
#[derive(Clone, Copy, Debug, PartialEq, Eq)]
enum Step {
    Cut(usize),
    Past(usize, Spot),
}

impl Spot {
    // Whether this byte here ends a piece.
    fn ends_piece(self, byte: u8) -> bool
        ensures { result ≡ (byte == 59 && is_outside self) }
    {
        byte == b';' && matches!(self, Spot::Outside | Spot::Dash)
    }

    // Behind this byte, which ends no piece.
    fn after(self, byte: u8) -> Spot
        ensures { result ≡ after self byte }
    {
        match self {
            Spot::Outside if byte == b'\'' => Spot::Text,
            Spot::Outside if byte == b'-' => Spot::Dash,
            Spot::Outside => Spot::Outside,
            Spot::Dash if byte == b'\'' => Spot::Text,
            Spot::Dash if byte == b'-' => Spot::Comment,
            Spot::Dash => Spot::Outside,
            Spot::Text if byte == b'\'' => Spot::Outside,
            Spot::Text => Spot::Text,
            Spot::Comment if byte == b'\n' => Spot::Outside,
            Spot::Comment => Spot::Comment,
        }
    }

    // The first byte that may end a piece or change the spot.
    fn mark(self, bytes: &[u8]) -> Option<usize>
        requires { 0 < length bytes.now }
        ensures { Stays self bytes.now result }
    {
        match self {
            Spot::Outside => memchr3(b';', b'\'', b'-', bytes),
            Spot::Dash => Some(0),
            Spot::Text => memchr(b'\'', bytes),
            Spot::Comment => memchr(b'\n', bytes),
        }
    }

    // Up to the `;` that ends the piece, or to the next byte that changes the spot.
    fn step(self, bytes: &[u8]) -> Step
        requires { 0 < length bytes.now }
        ensures { Steps self bytes.now result }
    {
        let Some(at) = self.mark(bytes) else {
            return Step::Past(bytes.len(), self);
        };
        if self.ends_piece(bytes[at]) {
            return Step::Cut(at);
        }
        Step::Past(at + 1, self.after(bytes[at]))
    }
}

/// Looks for the `;` that ends a piece, where the first byte stands at this spot.
pub fn find_end(bytes: &[u8], spot: Spot) -> Found
    ensures { Scans spot bytes.now result }
{
    let mut spot = spot;
    let mut at = 0;
    while at < bytes.len() {
        match spot.step(&bytes[at..]) {
            Step::Cut(count) => return Found::Cut(at + count),
            Step::Past(count, next) => {
                at += count;
                spot = next;
            }
        }
    }
    Found::Through(spot)
}
