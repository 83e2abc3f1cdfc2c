//! Sources and sinks, and the pieces of what a source gives.
#![tactic(auto)]

mod chunk;
mod file_fault;
mod file_sink;
mod file_source;
mod gather;
mod held;
mod kind;
mod label;
mod laws;
mod memory_sink;
mod memory_source;
mod piece;
mod place;
mod reader;
mod scan;
mod traits;

pub use file_sink::FileSink;
pub use file_source::FileSource;
pub use kind::Kind;
pub use label::{Bytes, Label, Opened};
pub use laws::{comments_are_blank, semicolons_in_texts_and_comments_end_no_piece};
pub use memory_sink::MemSink;
pub use memory_source::MemSource;
pub use piece::Piece;
pub use place::{Place, is_blank};
pub use reader::{ReadFault, StatementReader};
pub use traits::{Sink, Source};
