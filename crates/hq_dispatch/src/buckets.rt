//! The buckets of a node.
ghost use Rattle.std.specs.Prelude.{◌≡◌, ◌<◌, ◌≤◌, ◌+◌, ◌++◌, ◌∷◌, [], take, length, if◌then◌else◌};
ghost use Rattle.hq_dispatch.specs.Basis.{buckets_at};

use hq_value::BUCKETS;

/// The buckets of a node, ascending, in front of an array, and how many they are.
pub(crate) fn buckets_of(owner: &[u8; BUCKETS], node: u8) -> ([u8; BUCKETS], usize)
    ensures within { result.1 ≤ 16 }
    ensures are { take result.1 result.0 ≡ buckets_at owner.now node }
{
    let mut all = [0u8; BUCKETS];
    let mut count = 0;
    for bucket in 0..16u8 {
        count = add_bucket(&mut all, count, bucket, owner[bucket as usize] == node);
    }
    (all, count)
}

// Puts a bucket behind those so far, if it is one of the node's, and tells how many they are then.
fn add_bucket(all: &mut [u8; BUCKETS], count: usize, bucket: u8, is_own: bool) -> usize
    requires { count < 16 }
    ensures within { result ≤ count + 1 }
    ensures are { take result all.new ≡ take count all.old ++ (if is_own then bucket ∷ [] else []) }
{
    if !is_own {
        return count;
    }
    all[count] = bucket;
    count + 1
}
