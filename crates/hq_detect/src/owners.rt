//! Which node owns which bucket.
ghost use Rattle.std.specs.Prelude.{◌≡◌, ◌<◌, ◌≤◌, ℕ, IsTrue, length, slice_index_or};
ghost use Rattle.hq_value.specs.Marks.{some_up};
ghost use Rattle.hq_detect.specs.Assign.{nodes_up, owner_of};

use hq_value::Marks;

/// The node that owns each bucket: with so many nodes up, the one at the bucket's place modulo their number among
/// them, in ascending order.
pub fn assign(marks: &Marks) -> [u8; 16]
    requires { IsTrue (some_up marks.now) }
    ensures { (bucket : ℕ) → bucket < 16 → slice_index_or result bucket 0 ≡ owner_of marks.now bucket }
{
    let count = count_up(marks);
    let mut owners = [0u8; 16];
    for bucket in 0..16u8 {
        owners[bucket as usize] = nth_up(marks, bucket % count);
    }
    owners
}

// How many nodes are up.
fn count_up(marks: &Marks) -> u8
    requires { IsTrue (some_up marks.now) }
    ensures count { result ≡ length (nodes_up marks.now) }
    ensures some { 0 < result }
{
    let mut count = 0;
    for node in 0..marks.nodes() {
        if marks.is_up(node) {
            count += 1;
        }
    }
    count
}

// The node at this place among those that are up; node 0 where there are not so many.
fn nth_up(marks: &Marks, place: u8) -> u8
    ensures { result ≡ slice_index_or (nodes_up marks.now) place 0 }
{
    let mut left = place;
    for node in 0..marks.nodes() {
        if marks.is_up(node) {
            if left == 0 {
                return node;
            }
            left -= 1;
        }
    }
    0
}
