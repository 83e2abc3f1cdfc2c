//! Whether a step may be taken.
ghost use Rattle.std.specs.Prelude.{◌≡◌, ◌≤◌};
ghost use Rattle.std.specs.List.{list_any};
ghost use Rattle.hq_laws.specs.Equated as equated;
ghost use Rattle.hq_laws.specs.Placed as placed;
ghost use Rattle.hq_algebra.specs.Plans as plans;
ghost use Rattle.hq_whole.specs.Choices.{way_of, stands_by, key_equated, are_places};

use crate::step::{Step, Way};
use hq_algebra::{CompareKind, Expr, Keys16};

/// Conditions equate the keys of a step, there is a key where rows go by them, and a side that stays lies by them. The
/// rows before it have `width` columns and lie by `homes`, its table has `columns` and keys of its own.
pub fn stands(
    conds: &[Expr],
    width: u16,
    columns: u16,
    own: &[u16],
    homes: &[Keys16],
    step: &Step,
) -> bool
    requires width { width ≤ 512 }
    requires columns { columns ≤ 64 }
    ensures { result ≡ stands_by width columns own.now conds.now homes.now step.now }
{
    let left = step.left_keys.as_slice();
    let right = step.right_keys.as_slice();
    are_equated(conds, width, columns, left, right)
        && is_short(left)
        && (!moves_rows(step.way) || !left.is_empty())
        && stays_by(step.way, own, left, right, homes)
}

fn is_short(keys: &[u16]) -> bool
    ensures { result ≡ plans.is_short keys.now }
{
    keys.len() <= 65_535
}

fn moves_rows(way: Way) -> bool
    ensures { result ≡ equated.moves_rows (way_of way) }
{
    match way {
        Way::MoveBoth => true,
        Way::MoveLeft => true,
        Way::MoveRight => true,
        _ => false,
    }
}

// A side that stays where it is lies there by the keys.
fn stays_by(way: Way, own: &[u16], left: &[u16], right: &[u16], homes: &[Keys16]) -> bool
    ensures { result ≡ placed.stays_by (way_of way) own.now left.now right.now homes.now }
{
    match way {
        Way::MoveLeft => are_own(right, own),
        Way::MoveRight => lie_by(left, homes),
        Way::Stay => lie_by(left, homes) && are_own(right, own),
        Way::CopyRight => true,
        Way::CopyLeft => true,
        Way::MoveBoth => true,
    }
}

fn are_own(keys: &[u16], own: &[u16]) -> bool
    ensures { result ≡ placed.are_own keys.now own.now }
{
    !own.is_empty() && are_same(keys, own)
}

fn lie_by(keys: &[u16], homes: &[Keys16]) -> bool
    ensures { result ≡ placed.lie_by keys.now homes.now }
{
    for home in homes {
        if are_same(keys, home.as_slice()) {
            return true;
        }
    }
    false
}

fn are_same(keys: &[u16], others: &[u16]) -> bool
    ensures { result ≡ placed.same_keys keys.now others.now }
{
    keys == others
}

// Some condition equates each left key with its right key.
fn are_equated(conds: &[Expr], width: u16, columns: u16, left: &[u16], right: &[u16]) -> bool
    requires width { width ≤ 512 }
    requires columns { columns ≤ 64 }
    ensures { result ≡ equated.keys_equated width columns conds.now left.now right.now }
{
    if left.len() != right.len() {
        return false;
    }
    for i in 0..left.len() {
        if !is_equated(conds, width, columns, left[i], right[i]) {
            return false;
        }
    }
    true
}

fn is_equated(conds: &[Expr], width: u16, columns: u16, left: u16, right: u16) -> bool
    requires width { width ≤ 512 }
    requires columns { columns ≤ 64 }
    ensures { result ≡ key_equated width columns conds.now left right }
{
    left < width && right < columns && some_equates(conds, left, width + right)
}

fn some_equates(conds: &[Expr], i: u16, j: u16) -> bool
    ensures { result ≡ list_any (equated.equates i j) conds.now }
{
    for cond in conds {
        if equates(i, j, cond) {
            return true;
        }
    }
    false
}

// Where it is true, the columns i and j are equal and not NULL. The call is nested at most as deep as the condition.
fn equates(i: u16, j: u16, e: &Expr) -> bool
    ensures { result ≡ equated.equates i j e.now }
{
    match e {
        Expr::Column(_) => false,
        Expr::Literal(_) => false,
        Expr::Arith { .. } => false,
        Expr::Compare { kind, left, right } => {
            is_equal(*kind) && are_places(i, j, left.get(), right.get())
        }
        Expr::And { left, right } => equates(i, j, left.get()) || equates(i, j, right.get()),
        Expr::Or { .. } => false,
        Expr::Not(_) => false,
        Expr::IsNull(_) => false,
    }
}

fn is_equal(kind: CompareKind) -> bool
    ensures { result ≡ equated.is_equal kind }
{
    matches!(kind, CompareKind::Equal)
}

// One is the column i, and the other one the column j.
fn are_places(i: u16, j: u16, left: &Expr, right: &Expr) -> bool
    ensures { result ≡ are_places i j left.now right.now }
{
    (is_place(i, left) && is_place(j, right)) || (is_place(j, left) && is_place(i, right))
}

fn is_place(i: u16, e: &Expr) -> bool
    ensures { result ≡ equated.is_place i e.now }
{
    match e {
        Expr::Column(place) => *place == i,
        _ => false,
    }
}
