//! The files of a lane, one for each bucket: rows are appended to them in blocks, cut back, sealed and read again.
#![tactic(auto)]

mod append;
mod block;
mod bucket_file;
mod bucket_files;
mod cursor;
mod lane;
mod laws;
mod part;
mod parts;
mod pass;
mod range;
mod scan;
mod scan_end;
mod slot;

pub use cursor::BlockCursor;
pub use lane::{Lane, OwnFile};
pub use laws::{files_have_their_blocks, parts_make_a_lane, skipping_loses_no_row};
pub use part::LanePart;
pub use scan::scan_seal;
pub use scan_end::{ScanEnd, ScanFault};
