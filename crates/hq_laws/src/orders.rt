//! The law of sources in another order.
ghost use Rattle.std.specs.Prelude.{◌≡◌, ℕ, Bool, List, ◌++◌, map, count_by};
ghost use Rattle.std.specs.List.{list_all};
ghost use Rattle.hq_value.specs.declared.kind.Kind.{Kind};
ghost use Rattle.hq_algebra.specs.declared.expr.Expr.{Expr};
ghost use Rattle.hq_algebra.specs.declared.aggregate.Aggregate.{Aggregate};
ghost use Rattle.hq_algebra.specs.declared.query.Query.{Query};
ghost use Rattle.hq_algebra.specs.Rules.{cannot_fault, are_small, arguments, stands_over_pairs};
ghost use Rattle.hq_algebra.specs.Queries.{query_kinds};
ghost use Rattle.hq_meaning.specs.Mean.{Database, mean};
ghost use Rattle.hq_meaning.specs.Plans.{Parts, all_rows};
ghost use Rattle.hq_laws.specs.Spread.{FitKinds};
ghost use Rattle.hq_algebra.specs.Bound.{has_room};
ghost use Rattle.hq_laws.specs.Sources.{Source};
ghost use Rattle.hq_laws.specs.Guards.{with_guards};
ghost use Rattle.hq_laws.specs.Turned.{turned, renamed, renamed_aggregate, AreTurned, columns_in, FitTables};

/// A query means the same where some of its sources stand behind those that follow them, with the columns renamed.
/// The rows of the nodes fit tables that fit by bucket.
pub fn sources_may_change_places()
    ensures mean { (kinds : ℕ → List Kind) (q r : Query) (before first second after : List ℕ) (db : Database) → q.sources ≡ before ++ (first ++ (second ++ after)) → r.sources ≡ before ++ (second ++ (first ++ after)) → AreTurned (turned (columns_in kinds before) (columns_in kinds first) (columns_in kinds second)) q r → FitTables kinds db → mean r db ≡ mean q db }
    ensures fit { (kinds : ℕ → List Kind) (parts : Parts) (owner : List ℕ) → FitKinds kinds parts → FitTables kinds (all_rows parts owner) }
    ensures kinds { (kinds : ℕ → List Kind) (q r : Query) (before first second after : List ℕ) → q.sources ≡ before ++ (first ++ (second ++ after)) → r.sources ≡ before ++ (second ++ (first ++ after)) → AreTurned (turned (columns_in kinds before) (columns_in kinds first) (columns_in kinds second)) q r → query_kinds kinds r ≡ query_kinds kinds q }
    ensures room { (kinds : ℕ → List Kind) (q r : Query) (before first second after : List ℕ) → q.sources ≡ before ++ (first ++ (second ++ after)) → r.sources ≡ before ++ (second ++ (first ++ after)) → AreTurned (turned (columns_in kinds before) (columns_in kinds first) (columns_in kinds second)) q r → has_room kinds r ≡ has_room kinds q }
    ensures guards { (kinds : ℕ → List Kind) (q r : Query) (before first second after : List ℕ) → q.sources ≡ before ++ (first ++ (second ++ after)) → r.sources ≡ before ++ (second ++ (first ++ after)) → AreTurned (turned (columns_in kinds before) (columns_in kinds first) (columns_in kinds second)) q r → (p : Source → Bool) → count_by p (with_guards kinds r.conds 0 r.sources) ≡ count_by p (with_guards kinds q.conds 0 q.sources) }
{}

/// Renamed columns change nothing of the rules that a query keeps by itself.
pub fn renaming_keeps_rules()
    ensures calm { (to : ℕ → ℕ) (es : List Expr) → cannot_fault (map (renamed to) es) ≡ cannot_fault es }
    ensures small { (to : ℕ → ℕ) (es : List Expr) → are_small (map (renamed to) es) ≡ are_small es }
    ensures arguments { (to : ℕ → ℕ) (aggs : List Aggregate) → arguments (map (renamed_aggregate to) aggs) ≡ map (renamed to) (arguments aggs) }
    ensures pairs { (to : ℕ → ℕ) (aggs : List Aggregate) → list_all stands_over_pairs (map (renamed_aggregate to) aggs) ≡ list_all stands_over_pairs aggs }
{}
