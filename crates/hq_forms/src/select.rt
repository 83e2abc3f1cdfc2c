//! SELECT * of one table as a form.
ghost use Rattle.std.specs.Prelude.{◌≡◌};
ghost use Rattle.hq_forms.specs.Forms as spec;
ghost use Rattle.hq_forms.specs.Gives.{Gives};

use crate::form::Form;
use hq_sql::{ParseFault, SelectStatement, SourceName};
use hq_value::Name;
use std::alloc::Global;

/// The table of a `SELECT *`. Syntax exactly where it has another clause, another source, or an alias.
pub fn select(alloc: Global, statement: &SelectStatement) -> Result<Form, ParseFault>
    ensures { Gives result (spec.select_of statement.now) }
{
    if !is_plain(statement) {
        return Err(ParseFault::Syntax);
    }
    let name = table(alloc, statement.sources.as_slice())?;
    Ok(Form::Select { name })
}

fn is_plain(statement: &SelectStatement) -> bool
    ensures { result ≡ spec.is_plain statement.now }
{
    let all = !statement.distinct && statement.items.is_empty() && statement.conds.is_empty();
    let ungrouped = statement.groups.is_empty() && statement.having.is_none();
    let unordered = statement.keys.is_empty() && statement.limit.is_none();
    all && ungrouped && unordered
}

fn table(alloc: Global, sources: &[SourceName]) -> Result<Name, ParseFault>
    ensures { Gives result (spec.table_of sources.now) }
{
    match sources {
        [source] => {
            if source.alias.is_some() {
                return Err(ParseFault::Syntax);
            }
            Ok(source.table.copy(alloc)?)
        }
        _ => Err(ParseFault::Syntax),
    }
}
