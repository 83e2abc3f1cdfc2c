//! Which nodes run a slice, and which receive its rows.
ghost use Rattle.std.specs.Prelude.{◌≡◌, ◌<◌, ◌||◌, ◌∷◌, [], true, false, length, slice_index, if◌then◌else◌};
ghost use Rattle.std.specs.List.{list_any};
ghost use Rattle.hq_algebra.specs.Plans.{gathers};
ghost use Rattle.hq_algebra.specs.declared.plan.Motion.TheVariants as motions;
ghost use Rattle.hq_meaning.specs.Nodes.{nodes_of, lowest};
ghost use Rattle.hq_meaning.specs.Slices.{receives};
ghost use Rattle.hq_motion.specs.Split.{nodes_up, receivers};
ghost use Rattle.hq_dispatch.specs.Owners.{flagged, has_flag};

use hq_algebra::{Motion, Op, Slice};
use hq_value::{BUCKETS, Marks};

// Whether a node is up.
fn is_up(marks: &Marks, node: usize) -> bool
    requires { node < 16 }
    ensures { result ≡ has_flag marks.now node }
{
    node < marks.nodes() as usize && marks.is_up(node as u8)
}

// The nodes that are up.
fn ups(marks: &Marks) -> [bool; BUCKETS]
    ensures { flagged result ≡ nodes_up marks.now }
{
    let mut flags = [false; BUCKETS];
    for node in 0..BUCKETS {
        flags[node] = is_up(marks, node);
    }
    flags
}

// One node alone.
fn only(node: u8) -> [bool; BUCKETS]
    requires { node < 16 }
    ensures { flagged result ≡ node ∷ [] }
{
    let mut flags = [false; BUCKETS];
    flags[node as usize] = true;
    flags
}

/// The nodes that run a slice: all in use, or where it receives a Gather the lowest. The first bucket belongs to that one.
pub(crate) fn runners(marks: &Marks, owner: &[u8; BUCKETS], gathers: bool) -> [bool; BUCKETS]
    requires first { slice_index owner.now 0 ≡ lowest owner.now }
    requires below { slice_index owner.now 0 < 16 }
    requires in_use { nodes_of owner.now ≡ nodes_up marks.now }
    ensures { flagged result ≡ (if gathers then lowest owner.now ∷ [] else nodes_of owner.now) }
{
    if gathers {
        return only(owner[0]);
    }
    ups(marks)
}

/// The nodes that receive the rows of a slice: the lowest in use for a Gather, and else all in use.
pub(crate) fn takers(marks: &Marks, owner: &[u8; BUCKETS], out: &Motion) -> [bool; BUCKETS]
    requires first { slice_index owner.now 0 ≡ lowest owner.now }
    requires below { slice_index owner.now 0 < 16 }
    requires in_use { nodes_of owner.now ≡ nodes_up marks.now }
    requires moves { out.now ≡ motions.Result → ⊥ }
    ensures { flagged result ≡ receivers out.now owner.now }
{
    match out {
        Motion::Gather => only(owner[0]),
        Motion::Broadcast => ups(marks),
        Motion::Redistribute(_) => ups(marks),
        Motion::Result => unreachable!(),
    }
}

// Whether a slice sends its rows to the lowest node.
fn gathers(before: &[Slice], slice: u8) -> bool
    ensures { result ≡ gathers before.now slice }
{
    match before.get(slice as usize) {
        Some(sender) => matches!(sender.out, Motion::Gather),
        None => false,
    }
}

fn either(a: bool, b: bool) -> bool
    ensures { result ≡ (a || b) }
{
    a || b
}

/// Whether an operator, or one below it, receives a Gather of the slices before. The call is nested at most as deep as the
/// operator.
pub(crate) fn receives_gather(before: &[Slice], op: &Op) -> bool
    ensures { result ≡ list_any (gathers before.now) (receives op.now) }
{
    match op {
        Op::Scan { .. } => false,
        Op::Receive { slice, .. } => gathers(before, *slice),
        Op::Filter { input, .. } => receives_gather(before, input.get()),
        Op::Project { input, .. } => receives_gather(before, input.get()),
        Op::Join { left, right, .. } => either(
            receives_gather(before, left.get()),
            receives_gather(before, right.get()),
        ),
        Op::Partial { input, .. } => receives_gather(before, input.get()),
        Op::Final { input, .. } => receives_gather(before, input.get()),
        Op::Distinct(input) => receives_gather(before, input.get()),
        Op::Sort { input, .. } => receives_gather(before, input.get()),
    }
}
