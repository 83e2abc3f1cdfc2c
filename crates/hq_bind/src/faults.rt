//! What is wrong with a statement, and the first refusal.
ghost use Rattle.std.specs.Prelude.{◌≡◌};
ghost use Rattle.hq_bind.specs.Faults as spec;

use crate::refusal::Refusal;

/// What is wrong with a statement: whether each refusal applies.
#[derive(Clone, Copy, Debug, PartialEq, Eq)]
pub struct Faults {
    pub undefined_table: bool,
    pub duplicate_source: bool,
    pub limit: bool,
    pub duplicate_column: bool,
    pub undefined_column: bool,
    pub ambiguous_column: bool,
    pub type_mismatch: bool,
    pub not_grouped: bool,
}

impl Faults {
    /// The first refusal that applies.
    pub fn first(self) -> Option<Refusal>
        ensures { result ≡ spec.first_of self }
    {
        if self.undefined_table {
            Some(Refusal::UndefinedTable)
        } else if self.duplicate_source {
            Some(Refusal::DuplicateSource)
        } else if self.limit {
            Some(Refusal::Limit)
        } else if self.duplicate_column {
            Some(Refusal::DuplicateColumn)
        } else if self.undefined_column {
            Some(Refusal::UndefinedColumn)
        } else if self.ambiguous_column {
            Some(Refusal::AmbiguousColumn)
        } else if self.type_mismatch {
            Some(Refusal::TypeMismatch)
        } else if self.not_grouped {
            Some(Refusal::NotGrouped)
        } else {
            None
        }
    }
}
