//! A store over the files of a folder, and hosts over its folders.
#![tactic(auto)]

mod dir_file;
mod dir_host;
mod dir_seal;
mod dir_store;
mod folder;
mod handle;
mod laws;
mod names;

pub use dir_file::DirFile;
pub use dir_host::DirHost;
pub use dir_seal::DirSeal;
pub use dir_store::DirStore;
pub use folder::{begins_as_lane, prepare_folder, prepare_node};
pub use laws::lane_files_have_names_of_their_own;
