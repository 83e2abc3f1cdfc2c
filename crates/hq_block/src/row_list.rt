//! Rows in their order, wherever each lies.
ghost use Rattle.std.specs.Prelude.{◌≡◌, ◌<◌, ◌≤◌, [], length, map, take, drop, slice_index_or};

use hq_value::Row;
use std::marker::Model;

/// Rows in their order: those of a slice, and then those that references lead to. None is copied.
#[derive(Drop)]
pub struct RowList<'a> {
    whole: &'a [Row],
    chosen: &'a [&'a Row],
}

impl<'a> Model for RowList<'a> {
    ghost use Rattle.std.specs.Prelude.{List};
    ghost use Rattle.hq_value.specs.declared.value.Value.{Value as Datum};
    ghost use Rattle.hq_block.specs.RowLists.{listed};

    ghost Value = { List (List Datum) };

    ghost view = { λ rows. listed rows.whole.now rows.chosen.now };
}

impl<'a> RowList<'a> {
    /// The rows of a slice.
    pub fn all(rows: &'a [Row]) -> Self
        ensures { result ≡ rows.now }
    {
        RowList {
            whole: rows,
            chosen: &[],
        }
    }

    /// The rows that references lead to.
    pub fn chosen(rows: &'a [&'a Row]) -> Self
        ensures { result ≡ map (λ row. row.now) rows.now }
    {
        RowList {
            whole: &[],
            chosen: rows,
        }
    }

    /// How many there are.
    pub fn len(&self) -> usize
        ensures { result ≡ length self.now }
    {
        self.whole.len() + self.chosen.len()
    }

    /// The row at a place.
    pub fn get(&self, place: usize) -> &Row
        requires { place < length self.now }
        ensures { result.now ≡ slice_index_or self.now place [] }
    {
        if place < self.whole.len() {
            &self.whole[place]
        } else {
            self.chosen[place - self.whole.len()]
        }
    }

    /// So many of the first.
    pub fn first(&self, count: usize) -> RowList<'a>
        requires { count ≤ length self.now }
        ensures { result ≡ take count self.now }
    {
        let most = self.whole.len();
        if count <= most {
            RowList::all(&self.whole[..count])
        } else {
            RowList {
                whole: self.whole,
                chosen: &self.chosen[..count - most],
            }
        }
    }

    /// Those behind so many of the first.
    pub fn behind(&self, count: usize) -> RowList<'a>
        requires { count ≤ length self.now }
        ensures { result ≡ drop count self.now }
    {
        let most = self.whole.len();
        if count <= most {
            RowList {
                whole: &self.whole[count..],
                chosen: self.chosen,
            }
        } else {
            RowList::chosen(&self.chosen[count - most..])
        }
    }
}
