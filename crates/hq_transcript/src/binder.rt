//! A law of the binder.
ghost use Rattle.std.specs.Prelude.{◌≡◌, ℕ, List, Option, Some, None};
ghost use Rattle.hq_value.specs.declared.value.Value.{Value as Datum};
ghost use Rattle.hq_value.specs.Tables.{Definition};
ghost use Rattle.hq_sql.specs.declared.tree.InsertStatement.{InsertStatement};
ghost use Rattle.hq_sql.specs.declared.tree.SelectStatement.{SelectStatement};
ghost use Rattle.hq_sql.specs.declared.tree.Statement.TheVariants as statement;
ghost use Rattle.hq_algebra.specs.declared.query.Query.{Query};
ghost use Rattle.hq_bind.specs.declared.refusal.Refusal.{Refusal as RefusalType};
ghost use Rattle.hq_bind.specs.Faults.{first_refusal};
ghost use Rattle.hq_bind.specs.Bound.{parts_of, bound_of, query, values, insert_query};
ghost use Rattle.hq_transcript.specs.Binding.{Refused, Bound, Values, Of_query};
ghost use Rattle.hq_transcript.specs.Binds.{binds, fault_of, numbered};

/// A statement whose refusal the binder's definitions say is refused so; one that they refuse nothing of, and whose
/// parts are those of a query or of tuples, is bound to these.
pub fn statements_are_bound_as_the_binder_says()
    ensures select_refused { (tables : List Definition) (s : SelectStatement) (why : RefusalType) →
        first_refusal (numbered 0 tables) (statement.Select s) ≡ Some why →
        binds.select tables s ≡ Refused (fault_of why) }
    ensures insert_refused { (tables : List Definition) (i : InsertStatement) (why : RefusalType) →
        first_refusal (numbered 0 tables) (statement.Insert i) ≡ Some why →
        binds.insert tables i ≡ Refused (fault_of why) }
    ensures select { (tables : List Definition) (s : SelectStatement) (q : Query) →
        first_refusal (numbered 0 tables) (statement.Select s) ≡ None →
        bound_of (numbered 0 tables) (statement.Select s) ≡ query (parts_of q) →
        binds.select tables s ≡ Bound q }
    ensures tuples { (tables : List Definition) (i : InsertStatement) (t : ℕ) (rows : List (List Datum)) →
        first_refusal (numbered 0 tables) (statement.Insert i) ≡ None →
        bound_of (numbered 0 tables) (statement.Insert i) ≡ values t rows →
        binds.insert tables i ≡ Bound (Values t rows) }
    ensures rows { (tables : List Definition) (i : InsertStatement) (t : ℕ) (places : List (Option ℕ)) (q : Query) →
        first_refusal (numbered 0 tables) (statement.Insert i) ≡ None →
        bound_of (numbered 0 tables) (statement.Insert i) ≡ insert_query t places (parts_of q) →
        binds.insert tables i ≡ Bound (Of_query t places q) }
{}
