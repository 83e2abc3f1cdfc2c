//! What a session is handed, and what it does next.

use hq_catalog::{Answer, Ask};
use hq_io::Piece;
use hq_reply::Reply;
use hq_store::{SealCopy, StoredFile};

/// What a session is handed: a piece of its input, or the answer to what it asked.
pub enum Input<'a, F: StoredFile, Z: SealCopy> {
    Piece(Piece<'a>),
    Answer(Answer<F, Z>),
}

/// What a session does next.
pub enum Turn<F: StoredFile, Z: SealCopy> {
    /// It asks the catalogue, and waits for the answer.
    Ask(Ask<F, Z>),
    /// It answers its piece, and waits for the next one.
    Reply(Reply),
    /// It has no answer: the piece was blank, or the session has ended.
    Nothing,
}
