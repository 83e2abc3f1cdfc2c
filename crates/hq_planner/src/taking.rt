//! The columns that are taken of a query's sources.
ghost use Rattle.std.specs.Prelude.{◌≡◌, ◌<◌, ◌≤◌, ◌+◌, ◌∷◌, ◌++◌, [], IfOk, OnOk, length, map};
ghost use Rattle.hq_laws.specs.Placed.{further};
ghost use Rattle.std.specs.List.{range_with_len};
ghost use Rattle.hq_narrow.specs.Narrow.{places};
ghost use Rattle.hq_whole.specs.Tables as tables;
ghost use Rattle.hq_planner.specs.Parts.{AreParts};

use crate::marking::{marks_of, named_columns};
use crate::not_narrowed::NotNarrowed;
use crate::part::{Part, part_of};
use hq_algebra::{Keys16, Query, Tables32};
use hq_narrow::Taken;
use hq_value::{NoMemory, TableDef};
use hq_whole::{def_of, size_of, width_of, width_of_all};
use std::alloc::Global;

/// What is taken of each source of a query, and the tables of this alone, by the number of their source.
#[derive(Drop)]
pub struct Taking {
    pub sources: Vec<Taken>,
    pub tables: Vec<(u32, TableDef)>,
    pub sizes: Vec<u128>,
}

/// The columns that a query names of each source, and one of a source of which it names none.
pub fn take_named(
    alloc: Global,
    query: &Query,
    defs: &[(u32, TableDef)],
    sizes: &[u128],
) -> Result<Taking, NotNarrowed>
    ensures sources { IfOk result (λ taking. map (λ t. t.table) taking.sources.items ≡ query.now.sources) }
    ensures parts { IfOk result (λ taking. AreParts defs.now taking.sources.items taking.tables.items) }
{
    let sources = query.sources.as_slice();
    let named = named_columns(alloc, query, width_of_all(defs, sources))?;
    let mut taking = nothing(alloc);
    let mut at = 0;
    for table in sources {
        at = take_source(
            alloc,
            &mut taking,
            defs,
            sizes,
            *table,
            named.as_slice(),
            at,
        )?;
    }
    Ok(taking)
}

fn nothing(alloc: Global) -> Taking
    ensures sources { result.sources.items ≡ [] }
    ensures tables { result.tables.items ≡ [] }
{
    Taking {
        sources: Vec::new(alloc),
        tables: Vec::new(alloc),
        sizes: Vec::new(alloc),
    }
}

// Takes the named columns of one more source, the first of which stands at place `at`, and tells where those of the next
// one begin.
fn take_source(
    alloc: Global,
    taking: &mut Taking,
    defs: &[(u32, TableDef)],
    sizes: &[u128],
    table: u32,
    named: &[bool],
    at: usize,
) -> Result<usize, NotNarrowed>
    requires few { length taking.old.sources.items < 8 }
    requires parts { AreParts defs.now taking.old.sources.items taking.old.tables.items }
    ensures sources { OnOk result (map (λ t. t.table) taking.new.sources.items ≡ map (λ t. t.table) taking.old.sources.items ++ table ∷ []) }
    ensures count { OnOk result (length taking.new.sources.items ≡ length taking.old.sources.items + 1) }
    ensures parts { OnOk result (AreParts defs.now taking.new.sources.items taking.new.tables.items) }
{
    let Some(whole) = def_of(defs, table) else {
        return Err(NotNarrowed::Unfit);
    };
    let columns = whole.columns().len();
    let marks = marks_of(alloc, named, at, columns)?;
    let part = part_of(alloc, whole, marks.as_slice())?;
    taking.sizes.push(size_of(defs, sizes, table))?;
    put(taking, table, part)?;
    Ok(at.saturating_add(columns))
}

fn put(taking: &mut Taking, table: u32, part: Part) -> Result<(), NoMemory>
    requires { length taking.old.sources.items < 8 }
    ensures sources { OnOk result (taking.new.sources.items ≡ taking.old.sources.items ++ record { table = table; columns = part.columns } ∷ []) }
    ensures tables { OnOk result (taking.new.tables.items ≡ taking.old.tables.items ++ (length taking.old.sources.items, part.def) ∷ []) }
{
    let Part { columns, def } = part;
    let number = taking.sources.len() as u32;
    taking.tables.push((number, def))?;
    taking.sources.push(Taken { table, columns })?;
    Ok(())
}

/// The places of the columns that are taken, among those of all sources.
pub fn all_places(
    alloc: Global,
    taken: &[Taken],
    defs: &[(u32, TableDef)],
) -> Result<Keys16, NotNarrowed>
    ensures { IfOk result (λ all. all ≡ places (tables.kinds_by defs.now) taken.now) }
{
    let mut all = Keys16::new(alloc);
    let mut width = 0;
    for source in taken {
        width = add_places(&mut all, source, defs, width)?;
    }
    Ok(all)
}

// Adds the places of one source's columns, the first of which stands behind `width` others, and tells how many stand
// before the next one's.
fn add_places(
    all: &mut Keys16,
    source: &Taken,
    defs: &[(u32, TableDef)],
    width: u16,
) -> Result<u16, NotNarrowed>
    ensures width { IfOk result (λ next. next ≡ width + length (tables.kinds_by defs.now source.now.table)) }
    ensures places { OnOk result (all.new ≡ all.old ++ further width source.now.columns) }
{
    let columns = source.columns.as_slice();
    for column in columns {
        let Some(place) = width.checked_add(*column) else {
            return Err(NotNarrowed::Unfit);
        };
        all.push(place)?;
    }
    match width.checked_add(width_of(defs, source.table)) {
        Some(next) => Ok(next),
        None => Err(NotNarrowed::Unfit),
    }
}

/// The numbers of so many sources.
pub fn numbers(alloc: Global, count: usize) -> Result<Tables32, NoMemory>
    requires { count ≤ 8 }
    ensures { IfOk result (λ numbers. numbers ≡ range_with_len 0 count) }
{
    let mut numbers = Tables32::new(alloc);
    for number in 0..count {
        numbers.push(number as u32)?;
    }
    Ok(numbers)
}
