//! Rows and row order.
ghost use Rattle.std.specs.Prelude.{◌≡◌, ◌==◌, ◌++◌, ◌∷◌, [], length, IfOk, OnOk, OnErr};
ghost use Rattle.std.specs.Cmp.Lexicographic.{pointwise, slice_cmp, slice_partial_cmp, lists_per, lists_equiv, lists_po, lists_total, lists_agrees, lists_ties};
ghost use Rattle.std.specs.Hash as fed;
ghost use Rattle.std.specs.Hash.{items_Alike};
ghost use Rattle.hq_value.specs.Order.{row_cmp, in_row_order};

use crate::cells::{self, Cells};
use crate::{NoMemory, Value};
use std::alloc::Global;
use std::cmp::Ordering;
use std::hash::{Hash, Hasher};
use std::marker::Model;

/// A row, seen as the list of its values. A row of at most three values takes no memory of its own.
#[derive(Debug, Drop)]
pub struct Row {
    alloc: Global,
    cells: Cells,
}

impl Model for Row {
    ghost use Rattle.std.specs.Prelude.{List};
    ghost use Rattle.hq_value.specs.declared.value.Value.{Value as Datum};
    ghost use Rattle.hq_value.specs.Cells.{cells_of};

    ghost Value = { List Datum };

    ghost view = { λ row. cells_of row.cells };
}

impl Row {
    /// No values.
    pub fn new(alloc: Global) -> Row
        ensures { result ≡ [] }
    {
        Row {
            alloc,
            cells: Cells::Zero,
        }
    }

    /// No values yet, and room for so many.
    pub fn with_capacity(alloc: Global, count: usize) -> Result<Row, NoMemory>
        ensures { IfOk result (λ row. row ≡ []) }
    {
        if count <= 3 {
            return Ok(Row::new(alloc));
        }
        let values = Vec::with_capacity(alloc, count)?;
        Ok(Row {
            alloc,
            cells: Cells::Many(values),
        })
    }

    /// The row of these values. It keeps the `Vec`: up to three values are better given one by one.
    pub fn from_vec(alloc: Global, values: Vec<Value>) -> Row
        ensures { result ≡ values.items }
    {
        Row {
            alloc,
            cells: Cells::Many(values),
        }
    }

    /// The row of one value.
    pub fn one(alloc: Global, value: Value) -> Row
        ensures { result ≡ value ∷ [] }
    {
        Row {
            alloc,
            cells: Cells::One([value]),
        }
    }

    /// The row of two values.
    pub fn two(alloc: Global, first: Value, second: Value) -> Row
        ensures { result ≡ first ∷ second ∷ [] }
    {
        Row {
            alloc,
            cells: Cells::Two([first, second]),
        }
    }

    /// The row of three values.
    pub fn three(alloc: Global, first: Value, second: Value, third: Value) -> Row
        ensures { result ≡ first ∷ second ∷ third ∷ [] }
    {
        Row {
            alloc,
            cells: Cells::Three([first, second, third]),
        }
    }

    pub fn as_slice(&self) -> &[Value]
        ensures { result.now ≡ self.now }
    {
        cells::values(&self.cells)
    }

    pub fn len(&self) -> usize
        ensures { result ≡ length self.now }
    {
        self.as_slice().len()
    }

    pub fn is_empty(&self) -> bool
        ensures { result ≡ (length self.now == 0) }
    {
        self.as_slice().is_empty()
    }

    /// Adds a value at the end. Without memory nothing changes and the value is dropped.
    pub fn push(&mut self, value: Value) -> Result<(), NoMemory>
        ensures ok { OnOk result (self.new ≡ self.old ++ value ∷ []) }
        ensures err { OnErr result (self.new ≡ self.old) }
    {
        cells::push(self.alloc, &mut self.cells, value)
    }

    /// An equal row.
    pub fn copy(&self, alloc: Global) -> Result<Row, NoMemory>
        ensures { IfOk result (λ copy. copy ≡ self.now) }
    {
        let cells = cells::copy(alloc, &self.cells)?;
        Ok(Row { alloc, cells })
    }
}

impl PartialEq for Row {
    ghost use Rattle.hq_value.specs.contracts.value.ValuePartialEq.TheImpl as of_values;
    ghost use Rattle.hq_value.specs.contracts.value.ValuePartialEq.TheImpl.Laws.{laws-law};

    ghost eq = { λ v w. pointwise (of_values.ghosts).eq v w };

    ghost laws = { lists_per laws-law };

    fn eq(&self, other: &Self) -> bool {
        self.as_slice() == other.as_slice()
    }
}

impl Eq for Row {
    ghost use Rattle.hq_value.specs.contracts.value.ValueEq.TheImpl as of_values;
    ghost use Rattle.hq_value.specs.contracts.value.ValueEq.TheImpl.Laws.{laws-law};

    ghost laws = { lists_equiv laws-law };
}

impl PartialOrd for Row {
    ghost use Rattle.hq_value.specs.contracts.value.ValuePartialOrd.TheImpl as of_values;
    ghost use Rattle.hq_value.specs.contracts.value.ValuePartialOrd.TheImpl.Laws.{laws-law};

    ghost partial_cmp = { λ v w. slice_partial_cmp (of_values.ghosts).partial_cmp v w };

    ghost laws = { lists_po laws-law };

    fn partial_cmp(&self, other: &Self) -> Option<Ordering> {
        self.as_slice().partial_cmp(&other.as_slice())
    }
}

impl Ord for Row {
    ghost use Rattle.hq_value.specs.contracts.value.ValueOrd.TheImpl as of_values;
    ghost use Rattle.hq_value.specs.contracts.value.ValueOrd.TheImpl.Laws.{total-law, matches_partial_cmp-law, matches_eq-law};

    ghost cmp = { λ v w. slice_cmp (of_values.ghosts).cmp v w };

    ghost total = { lists_total total-law };

    ghost matches_partial_cmp = { λ v w. lists_agrees matches_partial_cmp-law v w };

    ghost matches_eq = { λ v w. lists_ties (of_values.ghosts).cmp matches_eq-law v w };

    fn cmp(&self, other: &Self) -> Ordering {
        self.as_slice().cmp(&other.as_slice())
    }
}

impl Hash for Row {
    ghost use Rattle.hq_value.specs.contracts.value.ValueHash.TheImpl as of_values;
    ghost use Rattle.hq_value.specs.contracts.value.ValueHash.TheImpl.Laws.{respects_eq-law};

    ghost hash_input = { λ v. fed.slice (of_values.ghosts).hash_input v };

    ghost respects_eq = { (items_Alike (record { fed = respects_eq-law })).fed };

    fn hash<H: Hasher>(&self, state: &mut H) {
        self.as_slice().hash(state);
    }
}

/// Row order: value by value; a row comes before those that it begins.
pub fn compare_rows(a: &Row, b: &Row) -> Ordering
    ensures { result ≡ row_cmp a.now b.now }
{
    a.cmp(b)
}

/// Puts rows into row order.
pub fn sort_in_row_order(rows: &mut Vec<Row>)
    ensures { rows.new.items ≡ in_row_order rows.old.items }
{
    rows.sort_unstable();
}
