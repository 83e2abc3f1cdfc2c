//! Rows chained by the hash of their keys.
ghost use Rattle.std.specs.Prelude.{◌≡◌, ◌<◌, ◌+◌, length, get_or, replicate, IfOk};
ghost use Rattle.hq_algebra.specs.Eval.{column};
ghost use Rattle.hq_meaning.specs.Groups.{key_of};
ghost use Rattle.hq_ops.specs.Chains.{digest, number_for, fed, hash_from, chain_by, begins_at, AreChained};

use hq_value::{NoMemory, Row, Value};
use std::alloc::Global;
use std::hash::{FoldHasher, Hash, Hasher};

// Of all hashes of 64 bits the upper halves are mixed best.
const UPPER_HALF: u64 = 4_294_967_296;

const HASH_FACTOR: u64 = 11_400_714_819_323_198_485;

/// Rows, and for each hash of their keys a chain that goes from place to place over the rows that have it, ascending. A
/// place past the end ends a chain.
#[derive(Drop)]
pub struct Chains<'a> {
    pub keys: &'a [u16],
    pub rows: &'a [Row],
    first: Vec<usize>,
    next: Vec<usize>,
    ghost chained: { AreChained keys.now rows.now first.items next.items 0 },
}

impl<'a> Chains<'a> {
    /// Chains rows by the columns at these places.
    pub fn new(alloc: Global, keys: &'a [u16], rows: &'a [Row]) -> Result<Chains<'a>, NoMemory>
        ensures keys { IfOk result (λ chains. chains.keys.now ≡ keys.now) }
        ensures rows { IfOk result (λ chains. chains.rows.now ≡ rows.now) }
    {
        let end = rows.len();
        let mut first = filled(alloc, end.max(1), end)?;
        let mut next = filled(alloc, end, end)?;
        link_all(keys, rows, &mut first, &mut next);
        Ok(Chains {
            keys,
            rows,
            first,
            next,
        })
    }

    /// The first place of the chain of a key: that of the columns at these places of a row.
    pub fn first_of(&self, keys: &[u16], row: &Row) -> usize
        ensures { result ≡ begins_at keys.now self.now.first.items row.now }
    {
        let chain = chain_of(self.first.len(), keys, row);
        self.first[chain]
    }

    /// The place behind one in its chain.
    pub fn after(&self, place: usize) -> usize
        requires { place < length self.now.rows.now }
        ensures is { result ≡ get_or self.now.next.items place 0 }
        ensures rises { place < result }
    {
        self.next[place]
    }
}

/// So many times a number.
pub fn filled(alloc: Global, count: usize, value: usize) -> Result<Vec<usize>, NoMemory>
    ensures { IfOk result (λ items. items.items ≡ replicate count value) }
{
    let mut items = Vec::with_capacity(alloc, count)?;
    for _item in 0..count {
        items.push(value)?;
    }
    Ok(items)
}

// Links all rows, the last one first, so that each chain ascends.
fn link_all(keys: &[u16], rows: &[Row], first: &mut Vec<usize>, next: &mut Vec<usize>)
    requires { AreChained keys.now rows.now first.old.items next.old.items (length rows.now) }
    ensures { AreChained keys.now rows.now first.new.items next.new.items 0 }
{
    for place in (0..rows.len()).rev() {
        link(keys, rows, place, first, next);
    }
}

// Links the row before those that are linked.
fn link(keys: &[u16], rows: &[Row], place: usize, first: &mut Vec<usize>, next: &mut Vec<usize>)
    requires within { place < length rows.now }
    requires chained { AreChained keys.now rows.now first.old.items next.old.items (place + 1) }
    ensures { AreChained keys.now rows.now first.new.items next.new.items place }
{
    let chain = chain_of(first.len(), keys, &rows[place]);
    next[place] = first[chain];
    first[chain] = place;
}

#[inline]
fn chain_of(count: usize, keys: &[u16], row: &Row) -> usize
    requires { 0 < count }
    ensures within { result < count }
    ensures is { result ≡ chain_by count (key_of keys.now row.now) }
{
    (hash_of(0, keys, row) / UPPER_HALF % count as u64) as usize
}

/// The hash of the columns at these places, where so much was hashed before them.
#[inline]
pub fn hash_of(hash: u64, keys: &[u16], row: &Row) -> u64
    ensures { result ≡ hash_from hash (key_of keys.now row.now) }
{
    match keys {
        [] => hash,
        [key, rest @ ..] => hash_of(with_column(hash, row, *key as usize), rest, row),
    }
}

/// The hash of values, where so much was hashed before them.
pub fn hash_of_values(hash: u64, values: &[Value]) -> u64
    ensures { result ≡ hash_from hash values.now }
{
    match values {
        [] => hash,
        [value, rest @ ..] => hash_of_values(with_value(hash, value), rest),
    }
}

// The hash with the value at a place more; NULL past the end, where no column of a plan is.
#[inline]
fn with_column(hash: u64, row: &Row, place: usize) -> u64
    ensures { result ≡ fed hash (column row.now place) }
{
    match row.as_slice().get(place) {
        Some(value) => with_value(hash, value),
        None => with_value(hash, &Value::Null),
    }
}

#[inline]
fn with_value(hash: u64, value: &Value) -> u64
    ensures { result ≡ fed hash value.now }
{
    (hash ^ number_for(value)).wrapping_mul(HASH_FACTOR)
}

// An Int stands for itself, any other value for its hash.
#[inline]
fn number_for(value: &Value) -> u64
    ensures { result ≡ number_for value.now }
{
    match value {
        Value::Int(n) => n.cast_unsigned(),
        _ => digest(value),
    }
}

fn digest(value: &Value) -> u64
    ensures { result ≡ digest value.now }
{
    let mut state = FoldHasher::default();
    value.hash(&mut state);
    state.finish()
}
