//! Why a statement is not bound.
use hq_value::NoMemory;

/// Why a statement is not bound. The first that applies to the whole statement, in this order.
#[derive(Clone, Copy, Debug, PartialEq, Eq)]
pub enum Refusal {
    /// A table is not there.
    UndefinedTable,
    /// Two sources are called the same.
    DuplicateSource,
    /// There are more than 8 sources, 64 columns, or 1,000 bytes of a text.
    Limit,
    /// A column stands twice.
    DuplicateColumn,
    /// A column is not there.
    UndefinedColumn,
    /// A name fits two columns.
    AmbiguousColumn,
    /// A value is of another kind than is asked, or there is another number of values than of columns.
    TypeMismatch,
    /// A column of a grouped query is not grouped.
    NotGrouped,
    NoMemory,
}

impl From<NoMemory> for Refusal {
    ghost use Rattle.std.specs.Prelude.{◌≡◌};
    ghost use Rattle.hq_bind.specs.declared.refusal.Refusal.TheVariants.{NoMemory as Starved};

    ghost from_gives = { λ _ e. e ≡ Starved };

    fn from(_: NoMemory) -> Refusal {
        Refusal::NoMemory
    }
}
