//! What each node of a query works from.
ghost use Rattle.std.specs.Prelude.{◌≡◌};

use hq_lane::Lane;
use hq_snap::TableSnap;
use hq_store::{SealCopy, StoredFile};
use hq_value::BUCKETS;
use std::marker::Model;

/// The plan in bytes, the node that owns each bucket, the tables as a look saw them, and the own lanes.
#[derive(Drop)]
pub(crate) struct Basis<'a, F: StoredFile, Z: SealCopy> {
    plan: &'a [u8],
    owner: &'a [u8; BUCKETS],
    tables: &'a [TableSnap<Z>],
    own: &'a [Lane<F, Z>],
}

impl<'a, F: StoredFile, Z: SealCopy> Model for Basis<'a, F, Z> {
    ghost use Rattle.hq_dispatch.specs.Basis.{BasisState};

    ghost Value = { BasisState };

    ghost view = { λ b. record { plan = b.plan.now; owner = b.owner.now; tables = b.tables.now; own = b.own.now } };
}

impl<'a, F: StoredFile, Z: SealCopy> Basis<'a, F, Z> {
    pub(crate) fn new(
        plan: &'a [u8],
        owner: &'a [u8; BUCKETS],
        tables: &'a [TableSnap<Z>],
        own: &'a [Lane<F, Z>],
    ) -> Basis<'a, F, Z>
        ensures { result ≡ record { plan = plan.now; owner = owner.now; tables = tables.now; own = own.now } }
    {
        Basis {
            plan,
            owner,
            tables,
            own,
        }
    }

    /// The plan in bytes.
    pub(crate) fn plan(&self) -> &[u8]
        ensures { result.now ≡ self.now.plan }
    {
        self.plan
    }

    /// The node that owns each bucket.
    pub(crate) fn owner(&self) -> &[u8; BUCKETS]
        ensures { result.now ≡ self.now.owner }
    {
        self.owner
    }

    /// The tables as a look saw them.
    pub(crate) fn tables(&self) -> &[TableSnap<Z>]
        ensures { result.now ≡ self.now.tables }
    {
        self.tables
    }

    /// The own lanes.
    pub(crate) fn own(&self) -> &[Lane<F, Z>]
        ensures { result.now ≡ self.now.own }
    {
        self.own
    }
}
