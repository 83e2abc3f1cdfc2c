//! What a CREATE TABLE is bound to.
ghost use Rattle.std.specs.Prelude.{◌≡◌, ◌⊎◌, true, IsTrue, IfOk, IfErr};
ghost use Rattle.hq_sql.specs.Fits.{fits};
ghost use Rattle.hq_sql.specs.declared.tree.Statement.TheVariants as statement;
ghost use Rattle.hq_transcript.specs.Binding.{Refused, Bound as BoundTo};
ghost use Rattle.hq_transcript.specs.Binds.{binds, fault_of as fault_of_refusal};
ghost use Rattle.hq_turns.specs.Counts.{is_plain};

use hq_bind::{Bound, Refusal, bind};
use hq_reply::Fault;
use hq_sql::{CreateStatement, Statement};
use hq_value::TableDef;
use std::alloc::Global;

/// A refusal, as it is answered.
pub fn fault_of(refusal: Refusal) -> Fault
    ensures fault { result ≡ fault_of_refusal refusal }
    ensures plain { is_plain result ≡ true }
{
    match refusal {
        Refusal::UndefinedTable => Fault::UndefinedTable,
        Refusal::DuplicateSource => Fault::DuplicateSource,
        Refusal::Limit => Fault::Limit,
        Refusal::DuplicateColumn => Fault::DuplicateColumn,
        Refusal::UndefinedColumn => Fault::UndefinedColumn,
        Refusal::AmbiguousColumn => Fault::AmbiguousColumn,
        Refusal::TypeMismatch => Fault::TypeMismatch,
        Refusal::NotGrouped => Fault::NotGrouped,
        Refusal::NoMemory => Fault::NoMemory,
    }
}

/// The table that a CREATE TABLE makes. Its text alone may refuse it.
pub fn define(alloc: Global, create: CreateStatement) -> Result<TableDef, Fault>
    requires grammar { IsTrue (fits (statement.Create create)) }
    ensures bound { IfOk result (λ table. binds.create create ≡ BoundTo table) }
    ensures refused { IfErr result (λ why. (why ≡ Fault.NoMemory) ⊎ (binds.create create ≡ Refused why)) }
    ensures plain { IfErr result (λ why. is_plain why ≡ true) }
{
    let statement = Statement::Create(create);
    let tables = Vec::new(alloc);
    match bind(alloc, &statement, &tables) {
        Ok(Bound::Create(table)) => Ok(table),
        Ok(Bound::Query(_)) => unreachable!(),
        Ok(Bound::Values { .. }) => unreachable!(),
        Ok(Bound::InsertQuery { .. }) => unreachable!(),
        Err(refusal) => Err(fault_of(refusal)),
    }
}
