//! The tables of the worked queries.
ghost use Rattle.std.specs.Prelude.{◌≡◌, ◌∷◌, [], false, IfOk};
ghost use Rattle.hq_value.specs.Kinds.{kinds_of};
ghost use Rattle.hq_value.specs.declared.kind.Kind.TheVariants as kinds;
ghost use Rattle.hq_whole.specs.Tables.{kinds_by};
ghost use Rattle.hq_executiontests.specs.Worked.{AreWorked};

use hq_value::{Column, Columns, Keys, Kind, Name, NoMemory, TableDef};
use std::alloc::Global;

fn named(alloc: Global, letter: u8, kind: Kind) -> Result<Column, NoMemory>
    ensures { IfOk result (λ c. c ≡ record { name = letter ∷ []; kind = kind; not_null = false }) }
{
    let mut bytes = Vec::new(alloc);
    bytes.push(letter)?;
    Ok(Column {
        name: Name::new(bytes),
        kind,
        not_null: false,
    })
}

fn two(alloc: Global, first: Column, second: Column) -> Result<Columns, NoMemory>
    ensures { IfOk result (λ columns. columns ≡ first ∷ second ∷ []) }
{
    let mut columns = Columns::new(alloc);
    columns.push(first)?;
    columns.push(second)?;
    Ok(columns)
}

fn three(alloc: Global, first: Column, second: Column, third: Column) -> Result<Columns, NoMemory>
    ensures { IfOk result (λ columns. columns ≡ first ∷ second ∷ third ∷ []) }
{
    let mut columns = Columns::new(alloc);
    columns.push(first)?;
    columns.push(second)?;
    columns.push(third)?;
    Ok(columns)
}

fn first_column(alloc: Global) -> Result<Keys, NoMemory>
    ensures { IfOk result (λ keys. keys ≡ 0 ∷ []) }
{
    let mut keys = Keys::new(alloc);
    keys.push(0)?;
    Ok(keys)
}

// A table of an integer, by which its rows are spread, and another column.
fn by_the_first(alloc: Global, second: Kind) -> Result<TableDef, NoMemory>
    ensures { IfOk result (λ def. kinds_of def.columns ≡ kinds.Int ∷ second ∷ []) }
{
    let first = named(alloc, b'a', Kind::Int)?;
    let second = named(alloc, b'b', second)?;
    let columns = two(alloc, first, second)?;
    let keys = first_column(alloc)?;
    TableDef::new(alloc, Name::new(b"t".to_vec(alloc)?), columns, keys)
}

// A table of three integers, whose rows are spread by their place.
fn spread(alloc: Global) -> Result<TableDef, NoMemory>
    ensures { IfOk result (λ def. kinds_of def.columns ≡ kinds.Int ∷ kinds.Int ∷ kinds.Int ∷ []) }
{
    let first = named(alloc, b'a', Kind::Int)?;
    let second = named(alloc, b'b', Kind::Int)?;
    let third = named(alloc, b'c', Kind::Int)?;
    let columns = three(alloc, first, second, third)?;
    TableDef::new(
        alloc,
        Name::new(b"t".to_vec(alloc)?),
        columns,
        Keys::new(alloc),
    )
}

/// The tables: 0 is `u (id, g)` by `id`, 1 is `v (k, g)` by `k`, 2 is `shop (id, city)` by `id`, and 3 is
/// `sale (shop, day, amount)`, whose rows are spread by their place.
#[tactic(auto, using(crate::proofs::Worked::worked_tables))]
pub fn tables(alloc: Global) -> Result<Vec<(u32, TableDef)>, NoMemory>
    ensures { IfOk result (λ defs. AreWorked (kinds_by defs.items)) }
{
    let u = by_the_first(alloc, Kind::Int)?;
    let v = by_the_first(alloc, Kind::Int)?;
    let shop = by_the_first(alloc, Kind::Text)?;
    let sale = spread(alloc)?;
    let mut defs = Vec::new(alloc);
    defs.push((0, u))?;
    defs.push((1, v))?;
    defs.push((2, shop))?;
    defs.push((3, sale))?;
    Ok(defs)
}
