//! The rows of a slice, put in their receivers' bytes as they come.
ghost use Rattle.std.specs.Prelude.{◌≡◌, ◌<◌, ℕ, [], All, List};
ghost use Rattle.hq_value.specs.Kinds.{Fits};
ghost use Rattle.hq_value.specs.declared.value.Value.{Value as Datum};
ghost use Rattle.hq_algebra.specs.declared.plan.Motion.{Motion as Way};
ghost use Rattle.hq_algebra.specs.declared.plan.Motion.TheVariants as motions;
ghost use Rattle.hq_dispatch.specs.Parcels.{bytes_at, CanGo};
ghost use Rattle.hq_dispatch.specs.Going.{CanGo-prop};
ghost use Rattle.std.specs.Coded.{Π_prop, →_prop};

use crate::parcels::Parcels;
use hq_algebra::Motion;
use hq_exec::RowOut;
use hq_value::{BUCKETS, Kinds, NoMemory, Row};
use std::alloc::Global;
use std::marker::{Brand, PhantomData};

/// The motion by which rows go and the owners of the buckets, as clauses speak of them.
pub(crate) trait Course {
    ghost out: { Way };

    ghost owner: { List ℕ };
}

impl Course for Brand {
    ghost out = { motions.Gather };

    ghost owner = { [] };
}

/// What takes the rows of a slice for their receivers.
#[derive(Drop)]
pub(crate) struct Packing<'a, W: Course> {
    alloc: Global,
    out: &'a Motion,
    kinds: &'a Kinds,
    owner: &'a [u8; BUCKETS],
    parcels: Parcels,
    course: PhantomData<W>,
    ghost out_is: { out.now ≡ W.out },
    ghost owner_is: { owner.now ≡ W.owner },
    ghost goes: { (row : List Datum) → Fits kinds.now row → CanGo out.now row } by { Π_prop (λ row. →_prop (CanGo-prop out.now row)) },
    ghost owners: { All (λ node. node < 16) owner.now },
}

impl<'a, W: Course> Packing<'a, W> {
    /// No rows. It takes no memory.
    pub(crate) fn new(
        alloc: Global,
        out: &'a Motion,
        kinds: &'a Kinds,
        owner: &'a [u8; BUCKETS],
    ) -> Packing<'a, W>
        requires out_is { out.now ≡ W.out }
        requires owner_is { owner.now ≡ W.owner }
        requires goes { (row : List Datum) → Fits kinds.now row → CanGo out.now row }
        requires owners { All (λ node. node < 16) owner.now }
        ensures kinds { result.kinds.now ≡ kinds.now }
        ensures none { (n : ℕ) → bytes_at result.parcels.lists.items n ≡ [] }
    {
        let parcels = Parcels::new(alloc);
        Packing {
            alloc,
            out,
            kinds,
            owner,
            parcels,
            course: PhantomData,
        }
    }

    /// The rows in their receivers' bytes.
    pub(crate) fn into_parcels(self) -> Parcels
        ensures { result ≡ self.entry.parcels }
    {
        let Packing { parcels, .. } = self;
        parcels
    }
}

impl<'a, W: Course> RowOut for Packing<'a, W> {
    ghost use Rattle.std.specs.Prelude.{Some};
    ghost use Rattle.std.specs.List.{AllByRecursion};
    ghost use Rattle.hq_block.specs.Row.{IsStorable};
    ghost use Rattle.hq_dispatch.specs.Parcels.{HasParcels};

    ghost state = { λ p. record { kinds = Some p.kinds.now; holds = λ rows. HasParcels W.out W.owner rows p.parcels.lists.items × AllByRecursion (IsStorable p.kinds.now) rows } };

    fn put(&mut self, rows: Vec<Row>) -> Result<(), NoMemory> {
        self.parcels.add_all(
            self.alloc,
            self.out,
            self.kinds,
            self.owner,
            rows.as_slice(),
        )
    }
}
