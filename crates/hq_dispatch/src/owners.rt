//! Which node owns which bucket, and which nodes are in use.
ghost use Rattle.std.specs.Prelude.{◌≡◌, ◌<◌, ◌≤◌, All, IsTrue, length, slice_index};
ghost use Rattle.hq_value.specs.Marks.{some_up};
ghost use Rattle.hq_meaning.specs.Nodes.{nodes_of, lowest};
ghost use Rattle.hq_motion.specs.Split.{nodes_up};
ghost use Rattle.hq_dispatch.specs.Owners.{owners};

use hq_detect::assign;
use hq_laws::dealt_nodes_are_in_use;
use hq_value::{BUCKETS, Marks};

/// The node that owns each bucket. The nodes in use are those that are up, and the lowest of them owns the first bucket.
pub(crate) fn owners(marks: &Marks) -> [u8; BUCKETS]
    requires { IsTrue (some_up marks.now) }
    ensures owner { result ≡ owners marks.now }
    ensures in_use { nodes_of result ≡ nodes_up marks.now }
    ensures first { slice_index result 0 ≡ lowest result }
    ensures some { 0 < length (nodes_up marks.now) }
    ensures few { length marks.now ≤ 16 }
    ensures below { All (λ node. node < 16) result }
{
    let _nodes = marks.nodes();
    dealt_nodes_are_in_use();
    assign(marks)
}
