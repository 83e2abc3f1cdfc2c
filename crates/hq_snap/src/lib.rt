//! A table as a look at the catalogue saw it: its definition, and the seals of its lanes. A look brings the seals that
//! changed since an earlier one, and a cache puts them behind those that it has.
#![tactic(auto)]

mod cache;
mod changes;
mod file_seal;
mod lane_seals;
mod laws;
mod room;
mod scope;
mod seal_slot;
mod table_delta;
mod table_seals;
mod table_snap;

pub use cache::SnapCache;
pub use changes::Changed;
pub use file_seal::FileSeal;
pub use lane_seals::LaneSeals;
pub use laws::what_changed_brings_a_look_up_to_date;
pub use scope::{Have, Scope};
pub use seal_slot::SealSlot;
pub use table_delta::{TableDelta, copy_since};
pub use table_snap::TableSnap;
