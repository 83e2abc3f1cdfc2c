//! The values of a row, where they stand.
ghost use Rattle.std.specs.Prelude.{◌≡◌, ◌<◌, ◌++◌, ◌∷◌, [], ◌+◌, ◌≤◌, IsTrue, IfOk, OnOk, OnErr};
ghost use Rattle.std.specs.Vec.{vec_len, vec_capacity};
ghost use Rattle.hq_value.specs.Cells.{cells_of, has_room, is_full};

use crate::{NoMemory, Value};
use std::alloc::Global;
use std::mem;

/// Up to three values lie in place; more, or room for more, in a `Vec`.
#[derive(Debug, Drop)]
pub(crate) enum Cells {
    Zero,
    One([Value; 1]),
    Two([Value; 2]),
    Three([Value; 3]),
    Many(Vec<Value>),
}

/// The values in order.
pub(crate) fn values(cells: &Cells) -> &[Value]
    ensures { result.now ≡ cells_of cells.now }
{
    match cells {
        Cells::Zero => &[],
        Cells::One(values) => values,
        Cells::Two(values) => values,
        Cells::Three(values) => values,
        Cells::Many(values) => values.as_slice(),
    }
}

/// Equal values.
pub(crate) fn copy(alloc: Global, cells: &Cells) -> Result<Cells, NoMemory>
    ensures { IfOk result (λ copy. cells_of copy ≡ cells_of cells.now) }
{
    match cells {
        Cells::Zero => Ok(Cells::Zero),
        Cells::One([a]) => Ok(Cells::One([a.copy()?])),
        Cells::Two([a, b]) => Ok(Cells::Two([a.copy()?, b.copy()?])),
        Cells::Three([a, b, c]) => Ok(Cells::Three([a.copy()?, b.copy()?, c.copy()?])),
        Cells::Many(values) => Ok(Cells::Many(copy_values(alloc, values.as_slice())?)),
    }
}

fn copy_values(alloc: Global, values: &[Value]) -> Result<Vec<Value>, NoMemory>
    ensures { IfOk result (λ copy. copy.items ≡ values.now) }
{
    let mut copy = Vec::with_capacity(alloc, values.len())?;
    for value in values {
        copy.push(value.copy()?)?;
    }
    Ok(copy)
}

/// Adds a value at the end. Without memory nothing changes and the value is dropped.
pub(crate) fn push(alloc: Global, cells: &mut Cells, value: Value) -> Result<(), NoMemory>
    ensures ok { OnOk result (cells_of cells.new ≡ cells_of cells.old ++ value ∷ []) }
    ensures err { OnErr result (cells_of cells.new ≡ cells_of cells.old) }
{
    match cells {
        Cells::Many(values) => Ok(values.push(value)?),
        Cells::Three(_values) => push_fourth(alloc, cells, value),
        _ => {
            let before = mem::replace(cells, Cells::Zero);
            *cells = with(before, value);
            Ok(())
        }
    }
}

// With a value more, in place.
fn with(cells: Cells, value: Value) -> Cells
    requires { IsTrue (has_room cells) }
    ensures { cells_of result ≡ cells_of cells ++ value ∷ [] }
{
    match cells {
        Cells::Zero => Cells::One([value]),
        Cells::One([a]) => Cells::Two([a, value]),
        Cells::Two([a, b]) => Cells::Three([a, b, value]),
        Cells::Three(_values) => unreachable!(),
        Cells::Many(_values) => unreachable!(),
    }
}

fn push_fourth(alloc: Global, cells: &mut Cells, value: Value) -> Result<(), NoMemory>
    requires { IsTrue (is_full cells.old) }
    ensures ok { OnOk result (cells_of cells.new ≡ cells_of cells.old ++ value ∷ []) }
    ensures err { OnErr result (cells_of cells.new ≡ cells_of cells.old) }
{
    let room = Vec::with_capacity(alloc, 4)?;
    let before = mem::replace(cells, Cells::Zero);
    *cells = four(room, before, value);
    Ok(())
}

// Three values and one more, in the room for them.
fn four(room: Vec<Value>, cells: Cells, value: Value) -> Cells
    requires full { IsTrue (is_full cells) }
    requires empty { vec_len room ≡ 0 }
    requires room { 4 ≤ vec_capacity room }
    ensures { cells_of result ≡ cells_of cells ++ value ∷ [] }
{
    match cells {
        Cells::Three([a, b, c]) => {
            let mut many = room;
            push_sure(&mut many, a);
            push_sure(&mut many, b);
            push_sure(&mut many, c);
            push_sure(&mut many, value);
            Cells::Many(many)
        }
        Cells::Zero => unreachable!(),
        Cells::One(_values) => unreachable!(),
        Cells::Two(_values) => unreachable!(),
        Cells::Many(_values) => unreachable!(),
    }
}

// Adds a value where there is room.
fn push_sure(values: &mut Vec<Value>, value: Value)
    requires { vec_len values.old < vec_capacity values.old }
    ensures items { values.new.items ≡ values.old.items ++ value ∷ [] }
    ensures len { vec_len values.new ≡ vec_len values.old + 1 }
    ensures capacity { vec_capacity values.old ≤ vec_capacity values.new }
{
    match values.push(value) {
        Ok(()) => {}
        Err(_failed) => unreachable!(),
    }
}
