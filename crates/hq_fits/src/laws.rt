//! The laws of kinds.
ghost use Rattle.std.specs.Prelude.{◌≡◌, ℕ, List, [], Some, IsTrue};
ghost use Rattle.hq_value.specs.declared.kind.Kind.{Kind};
ghost use Rattle.hq_algebra.specs.declared.op.Op.{Op};
ghost use Rattle.hq_algebra.specs.declared.plan.Plan.{Plan};
ghost use Rattle.hq_algebra.specs.declared.query.Query.{Query};
ghost use Rattle.hq_algebra.specs.Operators.{op_kinds};
ghost use Rattle.hq_algebra.specs.Queries.{product_kinds, seen_kinds, query_kinds};
ghost use Rattle.hq_algebra.specs.Plans.{is_well_formed};
ghost use Rattle.hq_meaning.specs.Rows.{Row};
ghost use Rattle.hq_meaning.specs.Mean.{Database, Rows, mean};
ghost use Rattle.hq_meaning.specs.Slices.{Here, rows_of};
ghost use Rattle.hq_meaning.specs.Plans.{Parts};
ghost use Rattle.hq_fits.specs.Supplied.{AreFit, IsSupplied};
ghost use Rattle.hq_fits.specs.Taken.{are_taken};
ghost use Rattle.hq_fits.specs.Running.{ScansFit, AreSupplied};

/// An operator that has kinds gives rows that fit them, where each Scan and each Receive below it gives such rows.
pub fn operators_fit_their_kinds()
    ensures { (here : Here) (root : Op) (kinds : List Kind) → op_kinds root ≡ Some kinds → IsSupplied here root → AreFit kinds (rows_of root here) }
{}

/// As a well-formed plan runs, what each slice receives fits the kinds of its Receive, and what it sends fits its own,
/// where the rows of each scanned table fit the kinds of its Scan.
pub fn slices_fit_their_kinds()
    ensures { (plan : Plan) (parts : Parts) (owner : List ℕ) → IsTrue (is_well_formed plan) → ScansFit parts plan.slices → AreSupplied parts owner [] plan.slices }
{}

/// Where a query answers with rows, these fit any kinds into which its items can go, and so those that it tells, where
/// the rows of each table fit its kinds.
pub fn answers_fit_their_kinds()
    ensures taken { (kinds : ℕ → List Kind) (q : Query) (db : Database) → ((t : ℕ) → AreFit (kinds t) (db t)) → (seen out : List Kind) (rows : List Row) → seen_kinds (product_kinds kinds q) q ≡ Some seen → IsTrue (are_taken seen q.items out) → mean q db ≡ Rows rows → AreFit out rows }
    ensures told { (kinds : ℕ → List Kind) (q : Query) (db : Database) → ((t : ℕ) → AreFit (kinds t) (db t)) → (out : List Kind) (rows : List Row) → query_kinds kinds q ≡ Some out → mean q db ≡ Rows rows → AreFit out rows }
{}
