//! The laws of plans in which only some columns of each source travel.
ghost use Rattle.std.specs.Prelude.{◌≡◌, ℕ, List, map, length, IsTrue};
ghost use Rattle.std.specs.List.{list_all};
ghost use Rattle.hq_value.specs.declared.kind.Kind.{Kind};
ghost use Rattle.hq_algebra.specs.declared.query.Query.{Query};
ghost use Rattle.hq_algebra.specs.declared.plan.Plan.{Plan};
ghost use Rattle.hq_algebra.specs.declared.plan.Slice.{Slice};
ghost use Rattle.hq_algebra.specs.Bound.{is_table, is_bound};
ghost use Rattle.hq_algebra.specs.Plans.{is_well_formed};
ghost use Rattle.hq_algebra.specs.Queries.{query_kinds};
ghost use Rattle.hq_meaning.specs.Mean.{Database, mean};
ghost use Rattle.hq_meaning.specs.Plans.{Parts, plan_mean, all_rows};
ghost use Rattle.hq_laws.specs.Guards.{with_guards, AreGuarded};
ghost use Rattle.hq_laws.specs.Placed.{StandByOwn};
ghost use Rattle.hq_laws.specs.Spread.{FitKinds};
ghost use Rattle.hq_laws.specs.Turned.{AreTurned, columns_in, FitTables};
ghost use Rattle.hq_narrow.specs.declared.taken.Taken.{Taken};
ghost use Rattle.hq_narrow.specs.Narrow.{taken_at, taken_tables, taken_parts, place_from, places, are_there, AreOwn};
ghost use Rattle.hq_narrow.specs.Widened.{widened_plan, scans_fit, are_few, HaveKinds};

/// A query means the same over the columns that are taken of its sources, where its columns are renamed to their places
/// among these: each that it names is taken.
pub fn taking_columns_keeps_meaning()
    ensures mean { (kinds : ℕ → List Kind) (q r : Query) (ts : List Taken) (db : Database) → q.sources ≡ map (λ (t : Taken). t.table) ts → map (taken_at ts) r.sources ≡ ts → IsTrue (are_there kinds ts) → AreTurned (place_from (places kinds ts) (columns_in kinds q.sources)) r q → FitTables kinds db → mean r (taken_tables ts db) ≡ mean q db }
    ensures rows { (ts : List Taken) (parts : Parts) (owner : List ℕ) → all_rows (taken_parts ts parts) owner ≡ taken_tables ts (all_rows parts owner) }
{}

/// A plan over the columns that are taken of the sources means what the plan does in which a Project over each source's
/// own Scan, under the condition that stands directly above it, takes these columns. Where they are all columns of a
/// table in order, it has no Project.
pub fn widened_plans_mean_the_same()
    ensures { (kinds : ℕ → List Kind) (ts : List Taken) (plan : Plan) (parts : Parts) (owner : List ℕ) → FitKinds kinds parts → plan_mean (widened_plan kinds ts plan) parts owner ≡ plan_mean plan (taken_parts ts parts) owner }
{}

/// Its Scans are those of the query's sources, each directly under exactly its guards among the members of the query's
/// conditions, where those of the other plan are so.
pub fn taken_scans_stand_under_their_guards()
    ensures { (kinds found : ℕ → List Kind) (q r : Query) (ts : List Taken) (plan : Plan) → q.sources ≡ map (λ (t : Taken). t.table) ts → map (taken_at ts) r.sources ≡ ts → IsTrue (are_there kinds ts) → HaveKinds kinds found ts r.sources → AreTurned (place_from (places kinds ts) (columns_in kinds q.sources)) r q → IsTrue (list_all (λ (s : Slice). scans_fit kinds ts s.root) plan.slices) → AreGuarded found plan.slices (with_guards found r.conds 0 r.sources) → AreGuarded kinds (widened_plan kinds ts plan).slices (with_guards kinds q.conds 0 q.sources) }
{}

/// It is well formed, where the other plan is so, each of whose Scans has the kinds of the columns that are taken of its
/// source, and no slice has more than 64 operators then.
pub fn widened_plans_are_well_formed()
    ensures { (kinds : ℕ → List Kind) (ts : List Taken) (plan : Plan) → IsTrue (is_well_formed plan) → IsTrue (list_all (λ (s : Slice). scans_fit kinds ts s.root) plan.slices) → IsTrue (list_all (are_few kinds ts) plan.slices) → IsTrue (is_well_formed (widened_plan kinds ts plan)) }
{}

/// A query over the columns that are taken of its sources is bound over these, where it is so over all of them and each
/// source has 1 to 64 of them, and it has the same kinds.
pub fn taken_queries_are_bound()
    ensures kinds { (kinds found : ℕ → List Kind) (q r : Query) (ts : List Taken) → q.sources ≡ map (λ (t : Taken). t.table) ts → map (taken_at ts) r.sources ≡ ts → IsTrue (are_there kinds ts) → HaveKinds kinds found ts r.sources → AreTurned (place_from (places kinds ts) (columns_in kinds q.sources)) r q → query_kinds kinds q ≡ query_kinds found r }
    ensures bound { (kinds found : ℕ → List Kind) (q r : Query) (ts : List Taken) → q.sources ≡ map (λ (t : Taken). t.table) ts → map (taken_at ts) r.sources ≡ ts → IsTrue (are_there kinds ts) → HaveKinds kinds found ts r.sources → AreTurned (place_from (places kinds ts) (columns_in kinds q.sources)) r q → IsTrue (is_bound kinds q) → IsTrue (list_all (λ v. is_table (found v)) r.sources) → IsTrue (is_bound found r) }
{}

/// The rows of the columns that are taken keep the rules of tables of these columns: they have their number, and stand
/// in the buckets of their table's own keys where all of these are taken.
pub fn taken_rows_keep_rules()
    ensures fit { (found : ℕ → List Kind) (ts : List Taken) (parts : Parts) → ((v : ℕ) → length (found v) ≡ length (taken_at ts v).columns) → FitKinds found (taken_parts ts parts) }
    ensures stand { (kinds : ℕ → List Kind) (own taken : ℕ → List ℕ) (ts : List Taken) (parts : Parts) → AreOwn kinds own taken ts → FitKinds kinds parts → StandByOwn own parts → StandByOwn taken (taken_parts ts parts) }
{}
