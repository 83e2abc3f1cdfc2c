//! Which tables a look wants.
ghost use Rattle.std.specs.Prelude.{◌≡◌};
ghost use Rattle.std.specs.List.{list_any};
ghost use Rattle.hq_value.specs.Tables.{same_names};
ghost use Rattle.hq_snap.specs.Scopes.{is_in};

use hq_value::Name;

/// The tables of these names, or all.
#[derive(Debug, Drop)]
pub enum Scope {
    Names(Vec<Name>),
    All,
}

/// A table that is known as it was at a place of the log.
#[derive(Clone, Copy, Debug, PartialEq, Eq)]
pub struct Have {
    pub table: u32,
    pub at: u64,
}

impl Scope {
    /// Whether a table of this name is wanted.
    pub fn has(&self, name: &Name) -> bool
        ensures { result ≡ is_in self.now name.now }
    {
        match self {
            Scope::All => true,
            Scope::Names(names) => is_among(names.as_slice(), name),
        }
    }
}

fn is_among(names: &[Name], name: &Name) -> bool
    ensures { result ≡ list_any (λ wanted. same_names wanted name.now) names.now }
{
    names.iter().any(|wanted| *wanted == *name)
}
