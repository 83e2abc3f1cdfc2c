//! Where a byte of an input stands.
ghost use Rattle.std.specs.Prelude.{◌≡◌};
ghost use Rattle.hq_io.specs.Pieces.{begins, behind, says_nothing, is_space, is_blank};

/// Outside texts and comments, inside a text, or inside a comment.
#[derive(Clone, Copy, Debug, PartialEq, Eq)]
pub enum Place {
    Outside,
    Text,
    Comment,
}

fn is_space(byte: u8) -> bool
    ensures { result ≡ is_space byte }
{
    byte == b' ' || byte == b'\t' || byte == b'\n' || byte == b'\r'
}

fn begins(byte: u8, bytes: &[u8]) -> bool
    ensures { result ≡ begins byte bytes.now }
{
    match bytes {
        [] => false,
        [first, ..] => *first == byte,
    }
}

impl Place {
    // Whether the byte is a space or one of a comment.
    fn says_nothing(self, byte: u8, rest: &[u8]) -> bool
        ensures { result ≡ says_nothing self byte rest.now }
    {
        match self {
            Place::Outside => is_space(byte) || byte == b'-' && begins(b'-', rest),
            Place::Text => false,
            Place::Comment => true,
        }
    }

    // Where the byte behind this one stands.
    fn behind(self, byte: u8, rest: &[u8]) -> Place
        ensures { result ≡ behind self byte rest.now }
    {
        match self {
            Place::Outside if byte == b'\'' => Place::Text,
            Place::Outside if byte == b'-' && begins(b'-', rest) => Place::Comment,
            Place::Outside => Place::Outside,
            Place::Text if byte == b'\'' => Place::Outside,
            Place::Text => Place::Text,
            Place::Comment if byte == b'\n' => Place::Outside,
            Place::Comment => Place::Comment,
        }
    }
}

/// Whether a text holds only spaces, tabs, line feeds, carriage returns and comments.
pub fn is_blank(text: &[u8]) -> bool
    ensures { result ≡ is_blank text.now }
{
    let mut place = Place::Outside;
    for at in 0..text.len() {
        let rest = &text[at + 1..];
        if !place.says_nothing(text[at], rest) {
            return false;
        }
        place = place.behind(text[at], rest);
    }
    true
}
