//! The laws of plans that evaluate the select list on all nodes.
ghost use Rattle.std.specs.Prelude.{◌≡◌, ℕ, false, List, ◌∷◌, map, length, IsTrue, Some};
ghost use Rattle.hq_value.specs.declared.kind.Kind.{Kind};
ghost use Rattle.hq_algebra.specs.declared.query.Query.{Query};
ghost use Rattle.hq_algebra.specs.Bound.{has_room};
ghost use Rattle.hq_algebra.specs.Plans.{is_well_formed};
ghost use Rattle.hq_algebra.specs.Queries.{query_kinds};
ghost use Rattle.hq_meaning.specs.Mean.{mean};
ghost use Rattle.hq_meaning.specs.Plans.{Parts, plan_mean, all_rows};
ghost use Rattle.hq_laws.specs.Guards.{with_guards, AreGuarded};
ghost use Rattle.hq_laws.specs.Placed.{joins_are_placed, StandByOwn};
ghost use Rattle.hq_laws.specs.Room.{are_joinable};
ghost use Rattle.hq_laws.specs.Sources.{Source, SourcesStand, fit_filters};
ghost use Rattle.hq_laws.specs.Spread.{Joining, sources_of, FitKinds, KeysAreImplied};
ghost use Rattle.hq_laws.specs.Words.{IsOwner};
ghost use Rattle.hq_listing.specs.Listing.{listing_plan};

/// Where a query is not grouped, the plan that joins its sources on all nodes, evaluates the select list there and
/// brings its values into order on one node means what the query means, as the plan does that sends all columns: the
/// rows have their table's number of columns, the conditions imply the tests of each source and that the keys of each
/// join are equal, and a side that stays where it is lies there by its keys.
pub fn listing_on_nodes_keeps_meaning()
    ensures { (kinds : ℕ → List Kind) (own : ℕ → List ℕ) (out : List Kind) (q : Query) (s : Source) (js : List Joining) (parts : Parts) (owner : List ℕ) → q.grouped ≡ false → q.sources ≡ s.table ∷ map (λ (j : Joining). j.table) js → IsOwner owner → FitKinds kinds parts → StandByOwn own parts → KeysAreImplied kinds q.conds (length (kinds s.table)) js → SourcesStand kinds q.conds 0 (sources_of s js) → IsTrue (joins_are_placed kinds own s.table js) → plan_mean (listing_plan kinds out q s js) parts owner ≡ mean q (all_rows parts owner) }
{}

/// That plan is well formed, where it sends the kinds of the query's columns, the query has room in a plan, the keys of
/// each join fit, and the tests of each source fit a Filter.
pub fn listing_plans_are_well_formed()
    ensures { (kinds : ℕ → List Kind) (out : List Kind) (q : Query) (s : Source) (js : List Joining) → q.grouped ≡ false → q.sources ≡ s.table ∷ map (λ (j : Joining). j.table) js → query_kinds kinds q ≡ Some out → IsTrue (has_room kinds q) → IsTrue (are_joinable kinds (kinds s.table) js) → IsTrue (fit_filters kinds (sources_of s js)) → IsTrue (is_well_formed (listing_plan kinds out q s js)) }
{}

/// With the guards of each source, the Scans of that plan are those of the sources, each directly under a Filter whose
/// members that are guards are exactly these, or under no such member where there are none.
pub fn listed_scans_stand_under_their_guards()
    ensures { (kinds : ℕ → List Kind) (out : List Kind) (q : Query) (s : Source) (js : List Joining) → q.grouped ≡ false → sources_of s js ≡ with_guards kinds q.conds 0 q.sources → AreGuarded kinds (listing_plan kinds out q s js).slices (with_guards kinds q.conds 0 q.sources) }
{}
