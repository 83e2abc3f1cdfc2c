//! What is opened, and what an opening gives.

/// What doors are asked to open: a file by its name, or a script.
#[derive(Clone, Copy)]
pub enum Opening<'a> {
    File(&'a str),
    Script(&'a [u8]),
}

/// A session's source and sink.
#[derive(Drop)]
pub struct Parts<A, B> {
    pub source: A,
    pub sink: B,
}
