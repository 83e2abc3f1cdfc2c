//! The laws of whole plans.
ghost use Rattle.std.specs.Prelude.{◌≡◌, ◌≤◌, ℕ, List, ◌∷◌, map, length, IsTrue, Some, is_some};
ghost use Rattle.hq_value.specs.declared.kind.Kind.{Kind};
ghost use Rattle.hq_algebra.specs.declared.expr.Expr.{Expr};
ghost use Rattle.hq_algebra.specs.declared.query.Query.{Query};
ghost use Rattle.hq_algebra.specs.declared.plan.Slice.{Slice};
ghost use Rattle.hq_algebra.specs.Rules.{arguments, are_below};
ghost use Rattle.hq_algebra.specs.Queries.{query_kinds};
ghost use Rattle.hq_algebra.specs.Plans.{is_well_formed};
ghost use Rattle.hq_meaning.specs.Mean.{mean};
ghost use Rattle.hq_meaning.specs.Plans.{Parts, plan_mean, all_rows};
ghost use Rattle.hq_laws.specs.Words.{IsOwner};
ghost use Rattle.hq_laws.specs.Stages.{final_aggregates};
ghost use Rattle.hq_laws.specs.Sources.{Source, SourcesStand, all_of, fit_filters, are_tests, have_tests};
ghost use Rattle.hq_laws.specs.Tests.{members, with_tests, few_tests};
ghost use Rattle.hq_laws.specs.Gathered.{gathered_plan, tables_of};
ghost use Rattle.hq_laws.specs.Guards.{with_guards, AreGuarded};
ghost use Rattle.hq_laws.specs.Equated.{are_equated};
ghost use Rattle.hq_algebra.specs.Bound.{has_room, has_places};
ghost use Rattle.hq_laws.specs.Room.{are_joinable, kinds_sent, is_sendable};
ghost use Rattle.hq_laws.specs.Scanned.{AreScannedOnce, AreFiltered, AreTested};
ghost use Rattle.hq_laws.specs.Spread.{Joining, sources_of, spread_plan, FitKinds, KeysAreImplied};
ghost use Rattle.hq_laws.specs.Placed.{are_placed, joins_are_placed, sides_stay, StandByOwn};

/// The plan that gathers each source by itself, filtered by its tests, and does the rest in the last slice means what
/// its query means, where the rows have their table's number of columns and the conditions imply the tests.
pub fn gathering_keeps_meaning()
    ensures { (kinds : ℕ → List Kind) (q : Query) (ss : List Source) (parts : Parts) (owner : List ℕ) → q.sources ≡ tables_of ss → IsOwner owner → FitKinds kinds parts → SourcesStand kinds q.conds 0 ss → plan_mean (gathered_plan kinds q ss) parts owner ≡ mean q (all_rows parts owner) }
{}

/// That plan is well formed, where the query has kinds over its tables, tables and lists that a plan has room for, and
/// the tests of each source fit a Filter.
pub fn gathered_plans_are_well_formed()
    ensures { (kinds : ℕ → List Kind) (q : Query) (ss : List Source) → q.sources ≡ tables_of ss → IsTrue (is_some (query_kinds kinds q)) → IsTrue (has_room kinds q) → IsTrue (fit_filters kinds ss) → IsTrue (is_well_formed (gathered_plan kinds q ss)) }
{}

/// The plan that joins its sources on all nodes, groups there in a first step and finishes on one node means what its
/// query means, where the rows have their table's number of columns, the conditions imply the tests of each source and
/// that the keys of each join are equal, and a side that stays where it is lies there by its keys: `own` are the keys
/// of each table, in whose buckets its rows stand.
pub fn joining_on_nodes_keeps_meaning()
    ensures { (kinds : ℕ → List Kind) (own : ℕ → List ℕ) (sent : List Kind) (q : Query) (s : Source) (js : List Joining) (parts : Parts) (owner : List ℕ) → q.sources ≡ s.table ∷ map (λ (j : Joining). j.table) js → IsOwner owner → FitKinds kinds parts → StandByOwn own parts → KeysAreImplied kinds q.conds (length (kinds s.table)) js → SourcesStand kinds q.conds 0 (sources_of s js) → IsTrue (joins_are_placed kinds own s.table js) → plan_mean (spread_plan kinds sent q s js) parts owner ≡ mean q (all_rows parts owner) }
{}

/// That plan is well formed, where moreover the keys of each join fit, the tests of each source fit a Filter, and the
/// slice before the last one sends some columns.
pub fn joining_plans_are_well_formed()
    ensures { (kinds : ℕ → List Kind) (sent : List Kind) (q : Query) (s : Source) (js : List Joining) → q.sources ≡ s.table ∷ map (λ (j : Joining). j.table) js → IsTrue (is_some (query_kinds kinds q)) → IsTrue (has_room kinds q) → kinds_sent kinds q ≡ Some sent → IsTrue (is_sendable sent) → IsTrue (are_joinable kinds (kinds s.table) js) → IsTrue (fit_filters kinds (sources_of s js)) → IsTrue (is_well_formed (spread_plan kinds sent q s js)) }
{}

/// Where a condition compares each left key of a join with its right key, the two laws before this may be used.
pub fn equated_joins_stand()
    ensures implied { (kinds : ℕ → List Kind) (conds : List Expr) (w : ℕ) (js : List Joining) → IsTrue (are_equated kinds conds w js) → KeysAreImplied kinds conds w js }
    ensures joinable { (kinds : ℕ → List Kind) (q : Query) (t : ℕ) (js : List Joining) → q.sources ≡ t ∷ map (λ (j : Joining). j.table) js → IsTrue (is_some (query_kinds kinds q)) → IsTrue (are_equated kinds q.conds (length (kinds t)) js) → IsTrue (are_joinable kinds (kinds t) js) }
    ensures placed { (kinds : ℕ → List Kind) (own : ℕ → List ℕ) (conds : List Expr) (w : ℕ) (homes : List (List ℕ)) (js : List Joining) → IsTrue (are_equated kinds conds w js) → IsTrue (sides_stay kinds own w homes js) → IsTrue (are_placed kinds own w homes js) }
{}

/// A Final's columns have places of 16 bits, where the groups and twice the aggregates are at most 65,535.
pub fn final_places_fit()
    ensures { (q : Query) → IsTrue (has_places q) → IsTrue (are_below 65536 (arguments (final_aggregates (length q.groups) q.aggregates))) }
{}

/// Where each test of a source compares one of its columns with a value, as some condition does, the conditions imply
/// the tests, these fit a Filter, and they are the members of its condition.
pub fn said_tests_stand()
    ensures implied { (kinds : ℕ → List Kind) (conds : List Expr) (w : ℕ) (ss : List Source) → IsTrue (have_tests kinds conds w ss) → SourcesStand kinds conds w ss }
    ensures fit { (kinds : ℕ → List Kind) (conds : List Expr) (w : ℕ) (ss : List Source) → IsTrue (have_tests kinds conds w ss) → IsTrue (fit_filters kinds ss) }
    ensures members { (w : ℕ) (kinds : List Kind) (conds : List Expr) (e : Expr) (es : List Expr) → IsTrue (are_tests w kinds conds (e ∷ es)) → members (all_of e es) ≡ e ∷ es }
{}

/// The tests that a query's conditions hold on its sources, all of them and over the sources' own columns, are such
/// tests, where there are not too many for a Filter: so it is with at most eight conditions.
pub fn held_tests_are_said()
    ensures said { (kinds : ℕ → List Kind) (q : Query) → IsTrue (is_some (query_kinds kinds q)) → IsTrue (few_tests (with_tests kinds q.conds 0 q.sources)) → IsTrue (have_tests kinds q.conds 0 (with_tests kinds q.conds 0 q.sources)) }
    ensures few { (kinds : ℕ → List Kind) (q : Query) → length q.conds ≤ 8 → IsTrue (few_tests (with_tests kinds q.conds 0 q.sources)) }
    ensures tables { (kinds : ℕ → List Kind) (q : Query) → tables_of (with_tests kinds q.conds 0 q.sources) ≡ q.sources }
{}

/// In both plans each source of the query stands in exactly one Scan, directly under a Filter of its tests.
pub fn sources_stand_in_scans()
    ensures gathered { (kinds : ℕ → List Kind) (q : Query) (ss : List Source) → q.sources ≡ tables_of ss → AreScannedOnce (gathered_plan kinds q ss).slices q.sources }
    ensures gathered_tests { (kinds : ℕ → List Kind) (q : Query) (ss : List Source) → AreFiltered kinds (gathered_plan kinds q ss).slices ss }
    ensures joined { (kinds : ℕ → List Kind) (sent : List Kind) (q : Query) (s : Source) (js : List Joining) → q.sources ≡ s.table ∷ map (λ (j : Joining). j.table) js → AreScannedOnce (spread_plan kinds sent q s js).slices q.sources }
    ensures joined_tests { (kinds : ℕ → List Kind) (sent : List Kind) (q : Query) (s : Source) (js : List Joining) → AreFiltered kinds (spread_plan kinds sent q s js).slices (sources_of s js) }
{}

/// The guards of each source, which are the members of a query's conditions that name it alone, are implied by the
/// conditions, and with at most eight conditions they fit a Filter.
pub fn guards_stand()
    ensures implied { (kinds : ℕ → List Kind) (q : Query) → SourcesStand kinds q.conds 0 (with_guards kinds q.conds 0 q.sources) }
    ensures fit { (kinds : ℕ → List Kind) (q : Query) → IsTrue (is_some (query_kinds kinds q)) → length q.conds ≤ 8 → IsTrue (fit_filters kinds (with_guards kinds q.conds 0 q.sources)) }
    ensures tables { (kinds : ℕ → List Kind) (q : Query) → tables_of (with_guards kinds q.conds 0 q.sources) ≡ q.sources }
{}

/// With the guards of each source, the Scans of both plans are those of the sources, each directly under a Filter whose
/// members that are guards are exactly these, or under no such member where there are none.
pub fn scans_stand_under_their_guards()
    ensures gathered { (kinds : ℕ → List Kind) (q : Query) → AreGuarded kinds (gathered_plan kinds q (with_guards kinds q.conds 0 q.sources)).slices (with_guards kinds q.conds 0 q.sources) }
    ensures joined { (kinds : ℕ → List Kind) (sent : List Kind) (q : Query) (s : Source) (js : List Joining) → sources_of s js ≡ with_guards kinds q.conds 0 q.sources → AreGuarded kinds (spread_plan kinds sent q s js).slices (with_guards kinds q.conds 0 q.sources) }
{}

/// Scans that stand under exactly the guards of their sources stand under exactly their tests, which are among these.
pub fn guarded_scans_are_tested()
    ensures { (kinds : ℕ → List Kind) (conds : List Expr) (w : ℕ) (ts : List ℕ) (slices : List Slice) → AreGuarded kinds slices (with_guards kinds conds w ts) → AreTested slices (with_tests kinds conds w ts) }
{}
