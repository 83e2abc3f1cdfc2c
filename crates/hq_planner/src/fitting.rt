//! Whether operators fit.
ghost use Rattle.std.specs.Prelude.{◌≡◌, ◌+◌, ◌≤◌, IfSome, IsTrue, Some, length, slice_get};
ghost use Rattle.hq_algebra.specs.Operators.{keys_kinds};
ghost use Rattle.hq_algebra.specs.Plans.{operators};

use hq_algebra::Op;
use hq_value::Kind;

// The most operators of a slice.
const MOST: u16 = 64;

/// Whether the columns at these places, among columns of the kinds `whole`, have the kinds `kinds`.
pub fn are_kinds(whole: &[Kind], columns: &[u16], kinds: &[Kind]) -> bool
    ensures { IsTrue result → keys_kinds whole.now columns.now ≡ Some kinds.now }
{
    if columns.len() != kinds.len() {
        return false;
    }
    for i in 0..columns.len() {
        if !is_kind(whole, columns[i], kinds[i]) {
            return false;
        }
    }
    true
}

fn is_kind(whole: &[Kind], column: u16, kind: Kind) -> bool
    ensures { IsTrue result → slice_get whole.now column ≡ Some kind }
{
    match whole.get(column as usize) {
        Some(found) => *found == kind,
        None => false,
    }
}

/// Whether an operator and those below it are at most 64.
pub fn are_few(op: &Op) -> bool
    ensures { IsTrue result → length (operators op.now) ≤ 64 }
{
    room_after(op, MOST).is_some()
}

// How many operators there is room for after an operator and those below it, where there is room for so many. The call
// is nested at most as deep as the operator.
fn room_after(op: &Op, room: u16) -> Option<u16>
    ensures { IfSome result (λ left. left + length (operators op.now) ≡ room) }
{
    let rest = room.checked_sub(1)?;
    match op {
        Op::Scan { .. } => Some(rest),
        Op::Receive { .. } => Some(rest),
        Op::Filter { input, .. } => room_after(input.get(), rest),
        Op::Project { input, .. } => room_after(input.get(), rest),
        Op::Join { left, right, .. } => room_after(right.get(), room_after(left.get(), rest)?),
        Op::Partial { input, .. } => room_after(input.get(), rest),
        Op::Final { input, .. } => room_after(input.get(), rest),
        Op::Distinct(input) => room_after(input.get(), rest),
        Op::Sort { input, .. } => room_after(input.get(), rest),
    }
}
