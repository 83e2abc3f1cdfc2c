//! Statements bound over the definitions of tables.
ghost use Rattle.std.specs.Prelude.{◌≡◌, ◌⊎◌, None, Some, IsTrue, IfOk, IfErr};
ghost use Rattle.hq_sql.specs.Fits.{fits};
ghost use Rattle.hq_bind.specs.Bound.{IsBindable, bound_of, parts_bound};
ghost use Rattle.hq_bind.specs.Faults.{first_refusal};

use crate::bound::Bound;
use crate::create::bind_create;
use crate::insert::bind_insert;
use crate::refusal::Refusal;
use crate::select::bind_select;
use hq_sql::Statement;
use hq_value::TableDef;
use std::alloc::Global;

/// What a CREATE TABLE, an INSERT or a SELECT is bound to over the tables that are there, each with its number. Its texts
/// are shared.
///
/// A statement is refused exactly where the definitions of refusals say so, by the first of them in their order: the whole
/// statement is tested for each before the next. Besides, there may be no memory.
pub fn bind(
    alloc: Global,
    statement: &Statement,
    defs: &[(u32, TableDef)],
) -> Result<Bound, Refusal>
    requires bindable { IsBindable statement.now }
    // As each statement that a text is keeps the limits of the grammar.
    requires grammar { IsTrue (fits statement.now) }
    ensures refused { IfErr result (λ why. (why ≡ Refusal.NoMemory) ⊎ (first_refusal defs.now statement.now ≡ Some why)) }
    ensures allowed { IfOk result (λ _. first_refusal defs.now statement.now ≡ None) }
    ensures bound { IfOk result (λ bound. parts_bound bound ≡ bound_of defs.now statement.now) }
{
    match statement {
        Statement::Create(create) => match bind_create(alloc, create) {
            Ok(def) => Ok(Bound::Create(def)),
            Err(refusal) => Err(refusal),
        },
        Statement::Insert(insert) => bind_insert(alloc, defs, insert),
        Statement::Select(select) => match bind_select(alloc, defs, select) {
            Ok(query) => Ok(Bound::Query(query)),
            Err(refusal) => Err(refusal),
        },
        Statement::Alter { .. } => unreachable!(),
        Statement::Begin { .. } => unreachable!(),
        Statement::Commit => unreachable!(),
        Statement::Rollback => unreachable!(),
    }
}
