//! Where rows go.
ghost use Rattle.std.specs.Prelude.{◌≡◌, [], None, OnOk, List};
ghost use Rattle.hq_value.specs.declared.value.Value.{Value as Datum};
ghost use Rattle.hq_exec.specs.Outs.{OutState, Suits, Adds};

use hq_value::{NoMemory, Row};
use std::alloc::Global;

/// What takes rows, bit by bit. It may ask that they fit some kinds.
pub trait RowOut {
    /// The kinds that rows have to fit, if there are such, and what holds of the rows that were put, in their order.
    ghost state: { Self → OutState };

    /// Takes more rows. Without memory it is not said which of them were put.
    fn put(&mut self, rows: Vec<Row>) -> Result<(), NoMemory>
        requires { Suits (state self.old).kinds rows.items }
        ensures put { OnOk result (Adds rows.items (state self.old) (state self.new)) }
        ensures kinds { (state self.new).kinds ≡ (state self.old).kinds };
}

/// A list of rows.
#[derive(Debug, Drop)]
pub struct RowList {
    rows: Vec<Row>,
}

impl RowList {
    /// No rows. It takes no memory.
    pub fn new(alloc: Global) -> RowList
        ensures any { (⟦<RowList as RowOut>⟧.state result).kinds ≡ None }
        ensures none { (⟦<RowList as RowOut>⟧.state result).holds [] }
    {
        RowList {
            rows: Vec::new(alloc),
        }
    }

    /// The rows that were put.
    pub fn into_rows(self) -> Vec<Row>
        ensures { (rows : List (List Datum)) → (⟦<RowList as RowOut>⟧.state self).holds rows → result.items ≡ rows }
    {
        let RowList { rows } = self;
        rows
    }
}

impl RowOut for RowList {
    ghost use Rattle.std.specs.Prelude.{◌≡◌, None};

    ghost state = { λ list. record { kinds = None; holds = λ rows. list.rows.items ≡ rows } };

    fn put(&mut self, rows: Vec<Row>) -> Result<(), NoMemory> {
        let mut rows = rows;
        self.rows.append(&mut rows)?;
        Ok(())
    }
}
