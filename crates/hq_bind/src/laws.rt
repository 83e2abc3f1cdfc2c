//! Laws of what statements are bound to.
ghost use Rattle.std.specs.Prelude.{◌≡◌, ℕ, List, None, IsTrue};
ghost use Rattle.hq_value.specs.Tables.{Definition, IsDefinition};
ghost use Rattle.hq_value.specs.Kinds.{kinds_of, are_fit};
ghost use Rattle.hq_value.specs.declared.kind.Kind.{Kind as AnyKind};
ghost use Rattle.hq_expr.specs.declared.tree.Literal.{Literal as AnyLiteral};
ghost use Rattle.hq_sql.specs.Fits.{select_fits};
ghost use Rattle.hq_sql.specs.declared.tree.SelectStatement.{SelectStatement as AnySelect};
ghost use Rattle.hq_algebra.specs.Bound.{is_bound};
ghost use Rattle.hq_algebra.specs.declared.query.Query.{Query as AnyQuery};
ghost use Rattle.hq_bind.specs.Scope.{Name as AnyName, Defs};
ghost use Rattle.hq_bind.specs.Targets.{places, row_of};
ghost use Rattle.hq_bind.specs.Faults.{first_of, query_faults, tuples_refusal, rows_refusal};
ghost use Rattle.hq_bind.specs.Bound.{parts_of, bound_query};
ghost use Rattle.hq_bind.specs.Planned.{AreTables};
ghost use Rattle.std.specs.Prelude.{map};

/// A SELECT that is not refused is bound to a query over its tables: its columns are there, its kinds fit, and a plan has
/// room for it. So is the SELECT of an INSERT.
pub fn bound_queries_have_plans()
    ensures selects { (kinds : ℕ → List AnyKind) (defs : Defs) (s : AnySelect) (q : AnyQuery) → IsTrue (select_fits s) → first_of (query_faults defs s) ≡ None
        → AreTables kinds defs → parts_of q ≡ bound_query defs s → IsTrue (is_bound kinds q) }
    ensures inserts { (kinds : ℕ → List AnyKind) (defs : Defs) (table : ℕ × Definition) (names : List AnyName) (s : AnySelect) (q : AnyQuery) → IsTrue (select_fits s)
        → rows_refusal defs table names s ≡ None → AreTables kinds defs → parts_of q ≡ bound_query defs s → IsTrue (is_bound kinds q) }
{}

/// The rows of an INSERT that is not refused fit the columns of its table.
pub fn inserted_rows_fit()
    ensures { (table : ℕ × Definition) (names : List AnyName) (tuples : List (List AnyLiteral)) → IsDefinition table.1 → tuples_refusal table names tuples ≡ None
        → IsTrue (are_fit (kinds_of table.1.columns) (map (row_of (places table.1.columns names)) tuples)) }
{}
