//! The further sources of a query, each with its keys and its way.
ghost use Rattle.std.specs.Prelude.{◌≡◌, ◌+◌, ◌≤◌, ◌<◌, IfOk, OnOk, IsTrue, length, map, drop, slice_index};
ghost use Rattle.hq_laws.specs.Placed as placed;
ghost use Rattle.hq_whole.specs.Tables as tables;
ghost use Rattle.hq_whole.specs.Choices.{way_of, stands_by, all_stand};

use crate::checking::stands;
use crate::choosing::{Meeting, preferred, size_of, without_keys};
use crate::homes::{Homes, own_homes, take_step};
use crate::step::{Step, Way};
use crate::tables::{own_keys, width_of};
use hq_algebra::{Expr, Query};
use hq_value::{NoMemory, TableDef};
use std::alloc::Global;

// How the rows so far lie, how many columns they have, and how many they are.
#[derive(Drop)]
struct Course {
    homes: Homes,
    width: u16,
    size: u128,
}

/// The further sources in order. Each step may be taken where those before it were.
pub fn steps(
    alloc: Global,
    query: &Query,
    defs: &[(u32, TableDef)],
    sizes: &[u128],
) -> Result<Vec<Step>, NoMemory>
    ensures tables { IfOk result (λ steps. map (λ s. s.table) steps.items ≡ drop 1 query.now.sources) }
    ensures stand { IfOk result (λ steps. IsTrue (all_stand (tables.kinds_by defs.now) (tables.keys_by defs.now) query.now.conds (length (tables.kinds_by defs.now (slice_index query.now.sources 0))) (placed.own_homes (length (tables.kinds_by defs.now (slice_index query.now.sources 0))) (tables.keys_by defs.now (slice_index query.now.sources 0))) steps.items)) }
{
    let conds = query.conds.as_slice();
    let sources = query.sources.as_slice();
    let mut course = begun(alloc, defs, sizes, sources[0])?;
    let mut steps = Vec::new(alloc);
    for i in 1..sources.len() {
        let step = next_step(alloc, conds, defs, sizes, &mut course, sources[i])?;
        steps.push(step)?;
    }
    Ok(steps)
}

// The rows of the first source.
fn begun(
    alloc: Global,
    defs: &[(u32, TableDef)],
    sizes: &[u128],
    table: u32,
) -> Result<Course, NoMemory>
    ensures width { IfOk result (λ course. course.width ≡ length (tables.kinds_by defs.now table)) }
    ensures few { IfOk result (λ course. course.width ≤ 64) }
    ensures homes { IfOk result (λ course. course.homes.items ≡ placed.own_homes (length (tables.kinds_by defs.now table)) (tables.keys_by defs.now table)) }
{
    let width = width_of(defs, table);
    let size = size_of(defs, sizes, table);
    let own = own_keys(alloc, defs, table)?;
    let homes = own_homes(alloc, width, own.as_slice())?;
    Ok(Course { homes, width, size })
}

// The step that joins a table, which is taken.
fn next_step(
    alloc: Global,
    conds: &[Expr],
    defs: &[(u32, TableDef)],
    sizes: &[u128],
    course: &mut Course,
    table: u32,
) -> Result<Step, NoMemory>
    requires { course.old.width ≤ 448 }
    ensures table { IfOk result (λ step. step.table ≡ table) }
    ensures stands { IfOk result (λ step. IsTrue (stands_by course.old.width (length (tables.kinds_by defs.now table)) (tables.keys_by defs.now table) conds.now course.old.homes.items step)) }
    ensures homes { IfOk result (λ step. course.new.homes.items ≡ placed.homes_after (way_of step.way) course.old.width (length (tables.kinds_by defs.now table)) (tables.keys_by defs.now table) step.left_keys step.right_keys course.old.homes.items) }
    ensures width { OnOk result (course.new.width ≡ course.old.width + length (tables.kinds_by defs.now table)) }
    ensures few { OnOk result (course.new.width ≤ course.old.width + 64) }
{
    let own = own_keys(alloc, defs, table)?;
    let columns = width_of(defs, table);
    let table_size = size_of(defs, sizes, table);
    let meeting = Meeting {
        table,
        width: course.width,
        columns,
        own: own.as_slice(),
        homes: course.homes.as_slice(),
        size: course.size,
        table_size,
    };
    let step = chosen(alloc, conds, meeting)?;
    take_step(
        alloc,
        &mut course.homes,
        &step,
        course.width,
        columns,
        own.as_slice(),
    )?;
    course.width += columns;
    course.size = size_after(course.size, table_size, step.left_keys.is_empty());
    Ok(step)
}

fn size_after(size: u128, table_size: u128, no_keys: bool) -> u128 {
    if no_keys {
        return size.saturating_mul(table_size);
    }
    size.max(table_size)
}

// The preferred step where it may be taken; it always should, and else a copy stands in its place.
fn chosen(alloc: Global, conds: &[Expr], meeting: Meeting) -> Result<Step, NoMemory>
    requires width { meeting.width ≤ 512 }
    requires columns { meeting.columns ≤ 64 }
    ensures table { IfOk result (λ step. step.table ≡ meeting.entry.table) }
    ensures stands { IfOk result (λ step. IsTrue (stands_by meeting.entry.width meeting.entry.columns meeting.entry.own.now conds.now meeting.entry.homes.now step)) }
{
    let step = preferred(alloc, conds, meeting)?;
    if stands(
        conds,
        meeting.width,
        meeting.columns,
        meeting.own,
        meeting.homes,
        &step,
    ) {
        return Ok(step);
    }
    Ok(without_keys(alloc, meeting))
}
