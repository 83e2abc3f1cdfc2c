//! Groups, and what aggregates have come to in them.
ghost use Rattle.std.specs.Prelude.{◌≡◌, All, length};

use crate::column::Column;
use crate::guesses::Guesses;
use crate::running::Running;
use hq_value::Row;
use indexmap::IndexSet;

/// What an aggregate reads, and what it has come to in each group.
#[derive(Drop)]
pub struct Tally<'a> {
    pub column: Column<'a>,
    pub groups: Vec<Running>,
}

/// The keys of the groups by first appearance, guesses at the groups of rows, and what each aggregate has come to in each.
#[derive(Drop)]
pub struct Gathered<'a> {
    pub keys: IndexSet<Row>,
    pub guesses: Guesses,
    pub tallies: Vec<Tally<'a>>,
    ghost even: { All (λ t. length t.groups.items ≡ length keys.keys) tallies.items },
}
