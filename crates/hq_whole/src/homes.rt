//! The keys by which rows are known to lie on the nodes.
ghost use Rattle.std.specs.Prelude.{◌≡◌, ◌≤◌, ◌∷◌, [], IfOk, OnOk, IsTrue, map};
ghost use Rattle.hq_value.specs.Tables.{all_below};
ghost use Rattle.hq_laws.specs.Placed as spec;
ghost use Rattle.hq_whole.specs.Choices.{way_of};

use crate::step::{Step, Way};
use hq_algebra::{Keys16, copy_keys};
use hq_value::NoMemory;
use std::alloc::Global;

/// Lists of columns: by each of them the rows lie on the nodes that own their buckets.
pub type Homes = Vec<Keys16>;

/// A table lies by its own keys, if it has some.
pub fn own_homes(alloc: Global, columns: u16, own: &[u16]) -> Result<Homes, NoMemory>
    requires { IsTrue (all_below columns own.now) }
    ensures { IfOk result (λ homes. homes.items ≡ spec.own_homes columns own.now) }
{
    if own.is_empty() {
        return Ok(Vec::new(alloc));
    }
    let keys = copy_keys(alloc, own)?;
    one_home(alloc, keys)
}

fn one_home(alloc: Global, keys: Keys16) -> Result<Homes, NoMemory>
    ensures { IfOk result (λ homes. homes.items ≡ keys ∷ []) }
{
    let mut homes = Vec::new(alloc);
    homes.push(keys)?;
    Ok(homes)
}

/// The keys by which rows lie after a step, in place of those before it: the rows before it have `width` columns, its
/// table has `columns` and keys of its own.
pub fn take_step(
    alloc: Global,
    homes: &mut Homes,
    step: &Step,
    width: u16,
    columns: u16,
    own: &[u16],
) -> Result<(), NoMemory>
    requires width { width ≤ 512 }
    requires columns { columns ≤ 64 }
    requires own { IsTrue (all_below columns own.now) }
    requires keys { IsTrue (all_below columns step.now.right_keys) }
    ensures { OnOk result (homes.new.items ≡ spec.homes_after (way_of step.now.way) width columns own.now step.now.left_keys step.now.right_keys homes.old.items) }
{
    match step.way {
        Way::CopyRight => Ok(()),
        Way::CopyLeft => to_own(alloc, homes, width, columns, own),
        Way::MoveBoth => to_both(alloc, homes, step, width, columns),
        Way::MoveLeft => to_both(alloc, homes, step, width, columns),
        Way::MoveRight => add_one(alloc, homes, step, width, columns),
        Way::Stay => add_one(alloc, homes, step, width, columns),
    }
}

fn to_own(
    alloc: Global,
    homes: &mut Homes,
    width: u16,
    columns: u16,
    own: &[u16],
) -> Result<(), NoMemory>
    requires width { width ≤ 512 }
    requires columns { columns ≤ 64 }
    requires own { IsTrue (all_below columns own.now) }
    ensures { OnOk result (homes.new.items ≡ map (spec.further width) (spec.own_homes columns own.now)) }
{
    let new = further_own(alloc, width, columns, own)?;
    *homes = new;
    Ok(())
}

fn to_both(
    alloc: Global,
    homes: &mut Homes,
    step: &Step,
    width: u16,
    columns: u16,
) -> Result<(), NoMemory>
    requires width { width ≤ 512 }
    requires columns { columns ≤ 64 }
    requires keys { IsTrue (all_below columns step.now.right_keys) }
    ensures { OnOk result (homes.new.items ≡ step.now.left_keys ∷ spec.further width step.now.right_keys ∷ []) }
{
    let new = both_homes(alloc, step, width, columns)?;
    *homes = new;
    Ok(())
}

fn further_own(alloc: Global, width: u16, columns: u16, own: &[u16]) -> Result<Homes, NoMemory>
    requires width { width ≤ 512 }
    requires columns { columns ≤ 64 }
    requires own { IsTrue (all_below columns own.now) }
    ensures { IfOk result (λ homes. homes.items ≡ map (spec.further width) (spec.own_homes columns own.now)) }
{
    if own.is_empty() {
        return Ok(Vec::new(alloc));
    }
    let keys = further(alloc, width, columns, own)?;
    one_home(alloc, keys)
}

fn both_homes(alloc: Global, step: &Step, width: u16, columns: u16) -> Result<Homes, NoMemory>
    requires width { width ≤ 512 }
    requires columns { columns ≤ 64 }
    requires keys { IsTrue (all_below columns step.now.right_keys) }
    ensures { IfOk result (λ homes. homes.items ≡ step.now.left_keys ∷ spec.further width step.now.right_keys ∷ []) }
{
    let left = copy_keys(alloc, step.left_keys.as_slice())?;
    let right = further(alloc, width, columns, step.right_keys.as_slice())?;
    let mut homes = one_home(alloc, left)?;
    homes.push(right)?;
    Ok(homes)
}

fn add_one(
    alloc: Global,
    homes: &mut Homes,
    step: &Step,
    width: u16,
    columns: u16,
) -> Result<(), NoMemory>
    requires width { width ≤ 512 }
    requires columns { columns ≤ 64 }
    requires keys { IsTrue (all_below columns step.now.right_keys) }
    ensures { OnOk result (homes.new.items ≡ spec.further width step.now.right_keys ∷ homes.old.items) }
{
    let keys = further(alloc, width, columns, step.right_keys.as_slice())?;
    homes.insert(0, keys)?;
    Ok(())
}

// The same keys where `width` columns stand before them.
fn further(alloc: Global, width: u16, columns: u16, keys: &[u16]) -> Result<Keys16, NoMemory>
    requires width { width ≤ 512 }
    requires columns { columns ≤ 64 }
    requires keys { IsTrue (all_below columns keys.now) }
    ensures { IfOk result (λ further. further ≡ spec.further width keys.now) }
{
    let mut further = Keys16::new(alloc);
    for key in keys {
        further.push(width + *key)?;
    }
    Ok(further)
}
