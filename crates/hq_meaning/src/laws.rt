//! Laws of the meaning of queries, each the contract of a function that does nothing.
ghost use Rattle.std.specs.Prelude.{◌≡◌, ℕ};
ghost use Rattle.hq_value.specs.Order.{SameBag};
ghost use Rattle.hq_algebra.specs.declared.query.Query.{Query};
ghost use Rattle.hq_meaning.specs.Mean.{Database, mean};

/// A query means the same over tables that have the same rows, in whatever order.
pub fn tables_are_bags()
    ensures { (q : Query) (db eb : Database) → ((t : ℕ) → SameBag (db t) (eb t)) → mean q db ≡ mean q eb }
{}
