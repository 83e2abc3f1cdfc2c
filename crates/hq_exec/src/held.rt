//! What a slice has on its node.
ghost use Rattle.std.specs.Prelude.{◌≡◌, ℕ, IfSome, IsSome, IsTrue, option_map};
ghost use Rattle.hq_exec.specs.Files.{has_bucket, table_in, rows_sent};

use hq_lane::Lane;
use hq_snap::TableSnap;
use hq_store::{SealCopy, StoredFile};
use hq_value::Row;
use std::marker::Model;

/// The tables as a look saw them, the own lanes, the buckets that are read, and the rows that each slice sent.
#[derive(Drop)]
pub struct Held<'a, F: StoredFile, Z: SealCopy> {
    pub tables: &'a [TableSnap<Z>],
    pub own: &'a [Lane<F, Z>],
    pub buckets: &'a [u8],
    pub incoming: &'a [(u8, Vec<Row>)],
}

impl<'a, F: StoredFile, Z: SealCopy> Model for Held<'a, F, Z> {
    ghost use Rattle.hq_exec.specs.Files.{HeldState};

    ghost Value = { HeldState };

    ghost view = { λ h. record { tables = h.tables.now; own = h.own.now; buckets = h.buckets.now; incoming = h.incoming.now } };
}

impl<'a, F: StoredFile, Z: SealCopy> Held<'a, F, Z> {
    ghost use Rattle.hq_exec.specs.Files.{sent_rows};

    /// Whether a bucket is read.
    pub fn has_bucket(&self, bucket: u8) -> bool
        ensures { result ≡ has_bucket self.now.buckets bucket }
    {
        self.buckets.iter().any(|given| *given == bucket)
    }

    /// The table of a number, where it is there.
    pub fn table(&self, number: u32) -> Option<&TableSnap<Z>>
        ensures { option_map (λ snap. snap.now) result ≡ table_in self.now.tables number }
    {
        find_table(self.tables, number)
    }

    /// The rows that a slice sent.
    pub fn sent(&self, slice: u8) -> &[Row]
        ensures { result.now ≡ sent_rows self.now slice }
    {
        find_sent(self.incoming, slice)
    }

    pub fn own(&self) -> &[Lane<F, Z>]
        ensures { result.now ≡ self.now.own }
    {
        self.own
    }
}

fn find_table<Z: SealCopy>(tables: &[TableSnap<Z>], number: u32) -> Option<&TableSnap<Z>>
    ensures { option_map (λ snap. snap.now) result ≡ table_in tables.now number }
{
    match tables {
        [] => None,
        [first, rest @ ..] => {
            if first.table() == number {
                Some(first)
            } else {
                find_table(rest, number)
            }
        }
    }
}

fn find_sent(incoming: &[(u8, Vec<Row>)], slice: u8) -> &[Row]
    ensures { result.now ≡ rows_sent incoming.now slice }
{
    match incoming {
        [] => &[],
        [first, rest @ ..] => {
            if first.0 == slice {
                first.1.as_slice()
            } else {
                find_sent(rest, slice)
            }
        }
    }
}
