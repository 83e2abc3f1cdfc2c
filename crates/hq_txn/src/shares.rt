//! A statement's rows by their buckets. No row is copied.
ghost use Rattle.std.specs.Prelude.{◌≡◌, ◌≢◌, ◌++◌, ◌∷◌, ◌<◌, ℕ, [], All, IfOk, OnOk, length, take, vec_len};
ghost use Rattle.hq_value.specs.Bucket.{bucket_at, share};
ghost use Rattle.hq_value.specs.Kinds.{Fits, kinds_of};
ghost use Rattle.hq_lane.specs.Packing.{chosen_rows};
ghost use Rattle.hq_txn.specs.Shares.{share_in};

use hq_value::{
    BUCKETS, Kinds, NoMemory, Row, Sequence, TableDef, bucket_at, rows_that_fit_have_their_keys,
};
use std::alloc::Global;

/// References to the rows of one bucket.
pub(crate) type Share<'a> = Sequence<&'a Row>;

// The bucket of a row of the table with this place in its list.
fn bucket_in(def: &TableDef, row: &Row, place: usize) -> u8
    requires { Fits (kinds_of def.now.columns) row.now }
    ensures bucket { result ≡ bucket_at def.now.keys place row.now }
    ensures below { result < 16 }
{
    def.keeps_the_rules();
    rows_that_fit_have_their_keys();
    bucket_at(row, def.keys(), place)
}

// A share of no rows for each bucket, with room for so many.
fn no_shares<'a>(alloc: Global, room: usize) -> Result<Vec<Share<'a>>, NoMemory>
    ensures count { IfOk result (λ shares. vec_len shares ≡ 16) }
    ensures none { IfOk result (λ shares. (b : ℕ) → share_in shares.items b ≡ []) }
{
    let mut shares = Vec::with_capacity(alloc, BUCKETS)?;
    while shares.len() < BUCKETS {
        let share = Vec::with_capacity(alloc, room)?;
        shares.push(Sequence::from_vec(share))?;
    }
    Ok(shares)
}

// Adds a row to the share of a bucket.
fn add_row<'a>(shares: &mut Vec<Share<'a>>, bucket: u8, row: &'a Row) -> Result<(), NoMemory>
    requires { bucket < vec_len shares.old }
    ensures count { vec_len shares.new ≡ vec_len shares.old }
    ensures added { OnOk result (share_in shares.new.items bucket ≡ share_in shares.old.items bucket ++ row.now ∷ []) }
    ensures others { (b : ℕ) → b ≢ bucket → share_in shares.new.items b ≡ share_in shares.old.items b }
{
    shares[bucket as usize].push(row)
}

/// The rows of the table by their buckets, in their order.
pub(crate) fn shares_of<'a>(
    alloc: Global,
    def: &TableDef,
    rows: &'a [Row],
) -> Result<Vec<Share<'a>>, NoMemory>
    requires { All (Fits (kinds_of def.now.columns)) rows.now }
    ensures count { IfOk result (λ shares. vec_len shares ≡ 16) }
    ensures shares { IfOk result (λ shares. (b : ℕ) → share_in shares.items b ≡ share def.now.keys rows.now b) }
{
    // Twice what each has if all have as many, so that hardly any grows.
    let mut shares = no_shares(alloc, rows.len() / 8 + 1)?;
    for place in 0..rows.len() {
        let row = &rows[place];
        add_row(&mut shares, bucket_in(def, row, place), row)?;
    }
    Ok(shares)
}

/// The rows of a bucket.
pub(crate) fn rows_in<'b, 'a>(kinds: &Kinds, shares: &'b [Share<'a>], bucket: u8) -> &'b [&'a Row]
    requires here { bucket < length shares.now }
    requires fit { All (Fits kinds.now) (share_in shares.now bucket) }
    ensures rows { chosen_rows result.now ≡ share_in shares.now bucket }
    ensures fit { All (Fits kinds.now) (chosen_rows result.now) }
{
    shares[bucket as usize].as_slice()
}
