//! Rows shared out to buckets.
ghost use Rattle.std.specs.Prelude.{◌≡◌, ◌<◌, ◌++◌, ◌∷◌, ℕ, [], All, length, replicate, slice_set, IfOk, OnOk};
ghost use Rattle.hq_value.specs.Bucket.{share};
ghost use Rattle.hq_table.specs.Home.{rows_at};

use hq_value::{BUCKETS, Keys, NoMemory, Row, Sequence, bucket_at};
use std::alloc::Global;

fn empty_buckets(alloc: Global) -> Result<Vec<Sequence<Row>>, NoMemory>
    ensures { IfOk result (λ buckets. buckets.items ≡ replicate 16 []) }
{
    let mut buckets = Vec::with_capacity(alloc, BUCKETS)?;
    for _ in 0..BUCKETS {
        buckets.push(Sequence::new(alloc))?;
    }
    Ok(buckets)
}

// Adds a row to a bucket.
fn add(buckets: &mut Vec<Sequence<Row>>, bucket: usize, row: Row) -> Result<(), NoMemory>
    requires { bucket < length buckets.old.items }
    ensures { OnOk result (buckets.new.items ≡ slice_set buckets.old.items bucket (rows_at buckets.old.items bucket ++ row ∷ [])) }
{
    buckets[bucket].push(row)
}

/// The rows of each bucket, in their order.
pub(crate) fn spread(
    alloc: Global,
    rows: Vec<Row>,
    keys: &Keys,
) -> Result<Vec<Sequence<Row>>, NoMemory>
    requires { All (λ row. All (λ key. key < length row) keys.now) rows.items }
    ensures sixteen { IfOk result (λ buckets. length buckets.items ≡ 16) }
    ensures shared { IfOk result (λ buckets. (b : ℕ) → b < 16 → rows_at buckets.items b ≡ share keys.now rows.items b) }
{
    let mut buckets = empty_buckets(alloc)?;
    let mut place = 0;
    for row in rows {
        let bucket = bucket_at(&row, keys, place);
        add(&mut buckets, bucket as usize, row)?;
        place += 1;
    }
    Ok(buckets)
}
