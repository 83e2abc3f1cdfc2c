//! A store of files that grow at their end and can be cut.
#![tactic(auto)]

mod group;
mod growing;
mod laws;
mod mem_file;
mod mem_seal;
mod mem_store;
mod pages;
mod read;
mod store;
mod tail;

pub use laws::{calls_are_steps, sealed_bytes_stay};
pub use mem_file::MemFile;
pub use mem_seal::MemSeal;
pub use mem_store::{MemStore, Planned};
pub use store::{SealCopy, Store, StoreFault, StoredFile};
