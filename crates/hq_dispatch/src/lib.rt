//! Queries over nodes (`run_query`).
//!
//! How a query flows. The nodes in use are those that are up, and each bucket belongs to one of them. The slices of the
//! plan run one after another, each on all nodes in use at once, and one that receives a Gather on the lowest alone (`parts`). A
//! node checks its host once for a slice, and works from the plan's bytes, the seals, the own lanes and what it received,
//! and from nothing else. The rows that it gives are put in bytes, a list for each receiver (`parcels`). Then each receiver
//! takes the lists of all senders, its own too, in one exchange over its link, and reads rows as the bytes come (`arrivals`):
//! a list for each sender, joined by ascending sender. A Gather goes to the lowest node in use.
//!
//! The number of a motion is that of its slice. So each exchange of a query has a pair of query and motion above those of
//! all that its link carries from before, and a datagram of an earlier motion, or of an earlier query, belongs to no stream
//! of it (`laws`).
//!
//! Of several faults that one slice met the answer is that of the lowest node, there the store's before the host's before
//! the link's, and it goes before an evaluation that faults (`specs/Ends.antt`).
#![tactic(auto)]

mod arrivals;
mod basis;
mod buckets;
mod end;
mod flow;
mod laws;
mod moves;
mod owners;
mod packing;
mod parcels;
mod parts;
mod query;
mod receive;
mod settle;
mod spread;
mod task;

pub use end::QueryEnd;
pub use laws::motions_follow_one_another;
pub use query::run_query;
