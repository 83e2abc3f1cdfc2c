//! What a session waits for.

use hq_reply::Reply;

/// What a session waits for. It has no lane: lanes are in the transaction or in what was asked.
#[derive(Drop)]
pub enum Awaited {
    /// A piece of its input.
    Piece,
    /// What became of a new table.
    Create,
    /// What became of a new column.
    Alter,
    /// That something is done at a statement's end. Then the lanes in hand go back, if so, and then it replies.
    Ending { reply: Option<Reply>, give: bool },
}
