//! The lanes in hand.
ghost use Rattle.std.specs.Prelude.{◌≡◌, ◌<◌, true, length};
ghost use Rattle.hq_txn.specs.Transactions.{has_lane, place_of};

use hq_lane::Lane;
use hq_store::{SealCopy, StoredFile};

/// The place of the table's lane.
pub(crate) fn find_lane<F: StoredFile, Z: SealCopy>(lanes: &[Lane<F, Z>], table: u32) -> usize
    requires { has_lane lanes.now table ≡ true }
    ensures place { result ≡ place_of lanes.now table }
    ensures within { result < length lanes.now }
{
    for place in 0..lanes.len() {
        if lanes[place].table() == table {
            return place;
        }
    }
    unreachable!()
}

/// Whether one of the lanes is of the table.
pub(crate) fn is_there<F: StoredFile, Z: SealCopy>(lanes: &[Lane<F, Z>], table: u32) -> bool
    ensures { result ≡ has_lane lanes.now table }
{
    for place in 0..lanes.len() {
        if lanes[place].table() == table {
            return true;
        }
    }
    false
}
