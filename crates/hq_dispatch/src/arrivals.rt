//! Rows read from the bytes of other nodes, as these come.
ghost use Rattle.std.specs.Prelude.{◌≡◌, ◌+◌, ◌<◌, ◌≤◌, ◌++◌, ◌∷◌, ℕ, List, [], true, false, length, drop, filter, flat_map, slice_index_or, IfOk, IfSome, IfNone, OnOk, OnErr, if◌then◌else◌};
ghost use Rattle.std.specs.List.{AllByRecursion, range_with_len};
ghost use Rattle.hq_value.specs.declared.value.Value.{Value as Datum};
ghost use Rattle.hq_block.specs.Row.{IsStorable};
ghost use Rattle.hq_motion.specs.Bytes.{rows_bytes, AreRows};
ghost use Rattle.hq_recv.specs.Taking.{with_more};
ghost use Rattle.hq_dispatch.specs.Arrivals.{came, came_at, AreStorable};

use hq_block::read_row;
use hq_recv::Take;
use hq_value::{Kind, Kinds, NoMemory, Row};
use std::alloc::Global;
use std::marker::Model;
use std::mem;

/// Nodes are numbered below this.
const NODES: usize = 16;

/// What came of one node: its rows so far, and the bytes behind them.
#[derive(Drop)]
pub(crate) struct Arrival {
    rows: Vec<Row>,
    rest: Vec<u8>,
}

impl Arrival {
    fn new(alloc: Global) -> Arrival
        ensures rows { result.rows.items ≡ [] }
        ensures rest { result.rest.items ≡ [] }
    {
        Arrival {
            rows: Vec::new(alloc),
            rest: Vec::new(alloc),
        }
    }

    // Takes more bytes. Those that begin with rows become rows. Without memory what came stays as it was.
    fn add(&mut self, alloc: Global, kinds: &Kinds, bytes: &[u8]) -> Result<(), NoMemory>
        requires some { 0 < length kinds.now }
        requires storable { AllByRecursion (IsStorable kinds.now) self.old.rows.items }
        ensures more { OnOk result (came self.new ≡ came self.old ++ bytes.now) }
        ensures refused { OnErr result (came self.new ≡ came self.old) }
        ensures storable { AllByRecursion (IsStorable kinds.now) self.new.rows.items }
    {
        self.rest.extend_from_slice(bytes)?;
        self.settle(alloc, kinds);
        Ok(())
    }

    // The bytes that begin with rows become rows, as far as there is memory.
    fn settle(&mut self, alloc: Global, kinds: &Kinds)
        requires some { 0 < length kinds.now }
        requires storable { AllByRecursion (IsStorable kinds.now) self.old.rows.items }
        ensures same { came self.new ≡ came self.old }
        ensures storable { AllByRecursion (IsStorable kinds.now) self.new.rows.items }
    {
        let at = read_rows(alloc, kinds, &mut self.rows, self.rest.as_slice());
        forget_front(&mut self.rest, at);
    }

    // All rows, where what came is rows.
    fn into_rows(self, alloc: Global, kinds: &Kinds) -> Result<Vec<Row>, NoMemory>
        requires some { 0 < length kinds.now }
        requires storable { AllByRecursion (IsStorable kinds.now) self.rows.items }
        ensures { IfOk result (λ rows. AreRows kinds.now rows.items (came self)) }
    {
        let mut arrival = self;
        arrival.settle(alloc, kinds);
        let Arrival { rows, rest } = arrival;
        if rest.is_empty() {
            Ok(rows)
        } else {
            Err(NoMemory)
        }
    }
}

// Adds the row that begins the bytes, and gives its length; or nothing, also where there is no memory.
fn read_one(alloc: Global, kinds: &Kinds, rows: &mut Vec<Row>, bytes: &[u8]) -> Option<usize>
    requires some { 0 < length kinds.now }
    requires storable { AllByRecursion (IsStorable kinds.now) rows.old.items }
    ensures storable { AllByRecursion (IsStorable kinds.now) rows.new.items }
    ensures none { IfNone result (rows.new.items ≡ rows.old.items) }
    ensures some { IfSome result (λ len. 0 < len) }
    ensures within { IfSome result (λ len. len ≤ length bytes.now) }
    ensures same { IfSome result (λ len. rows_bytes rows.new.items ++ drop len bytes.now ≡ rows_bytes rows.old.items ++ bytes.now) }
{
    let Ok((row, len)) = read_row(alloc, kinds, bytes) else {
        return None;
    };
    if rows.push(row).is_err() {
        return None;
    }
    Some(len)
}

// The bytes from a place on.
fn behind(bytes: &[u8], at: usize) -> &[u8]
    requires { at ≤ length bytes.now }
    ensures { result.now ≡ drop at bytes.now }
{
    &bytes[at..]
}

// Adds the rows that begin the bytes, as far as there is memory, and gives where they end.
fn read_rows(alloc: Global, kinds: &Kinds, rows: &mut Vec<Row>, bytes: &[u8]) -> usize
    requires some { 0 < length kinds.now }
    requires storable { AllByRecursion (IsStorable kinds.now) rows.old.items }
    ensures storable { AllByRecursion (IsStorable kinds.now) rows.new.items }
    ensures within { result ≤ length bytes.now }
    ensures same { rows_bytes rows.new.items ++ drop result bytes.now ≡ rows_bytes rows.old.items ++ bytes.now }
{
    let mut at = 0;
    'rows: while let Some(len) = read_one(alloc, kinds, rows, behind(bytes, at)) {
        at += len;
    }
    at
}

// Drops the first bytes.
fn forget_front(bytes: &mut Vec<u8>, count: usize)
    requires { count ≤ length bytes.old.items }
    ensures { bytes.new.items ≡ drop count bytes.old.items }
{
    let left = bytes.len() - count;
    bytes.rotate_left(count);
    bytes.truncate(left);
}

/// Takes the bytes of rows of some kinds by sender, and keeps the rows.
#[derive(Drop)]
pub(crate) struct Arrivals<'a> {
    alloc: Global,
    kinds: &'a Kinds,
    from: Vec<Arrival>,
}

impl<'a> Model for Arrivals<'a> {
    ghost use Rattle.std.specs.Prelude.{◌<◌, ◌≡◌, length};
    ghost use Rattle.hq_dispatch.specs.Arrivals.{Arriving, IsArriving};

    ghost Value = { Arriving };

    ghost view = { λ a. record { kinds = a.kinds.now; from = a.from.items } };

    ghost invariant = { λ a. IsArriving a.kinds.now a.from.items };
}

impl<'a> Arrivals<'a> {
    /// Nothing of any node.
    pub(crate) fn new(alloc: Global, kinds: &'a Kinds) -> Result<Arrivals<'a>, NoMemory>
        requires { 0 < length kinds.now }
        ensures kinds { IfOk result (λ a. a.kinds ≡ kinds.now) }
        ensures none { IfOk result (λ a. (n : ℕ) → came_at a.from n ≡ []) }
    {
        let from = nothing(alloc)?;
        Ok(Arrivals { alloc, kinds, from })
    }

    /// The rows of the senders, one after the other, where what came of them is rows of these kinds, which are those with
    /// which it was made.
    pub(crate) fn into_rows(
        self,
        kinds: &Kinds,
        sends: &[bool; NODES],
    ) -> Result<Vec<Row>, NoMemory>
        ensures storable { IfOk result (λ rows. AllByRecursion (IsStorable kinds.now) rows.items) }
        ensures rows { IfOk result (λ rows. (given : ℕ → List (List Datum)) →
            ((n : ℕ) → n < 16 → slice_index_or sends.now n false ≡ true → AreRows kinds.now (given n) (came_at self.entry.from n))
            → rows.items ≡ flat_map given (filter (λ n. slice_index_or sends.now n false) (range_with_len 0 16))) }
    {
        let Arrivals {
            alloc,
            kinds: own,
            from,
        } = self;
        join_as(alloc, own, kinds, from, sends)
    }
}

fn is_same(a: Kind, b: Kind) -> bool
    ensures { result ≡ true → a ≡ b }
{
    match (a, b) {
        (Kind::Bool, Kind::Bool) => true,
        (Kind::Int, Kind::Int) => true,
        (Kind::Text, Kind::Text) => true,
        _ => false,
    }
}

fn are_same(a: &[Kind], b: &[Kind]) -> bool
    ensures { result ≡ true → a.now ≡ b.now }
{
    match (a, b) {
        ([], []) => true,
        ([first, rest @ ..], [other, others @ ..]) => {
            if !is_same(*first, *other) {
                return false;
            }
            are_same(rest, others)
        }
        _ => false,
    }
}

fn same_kinds(a: &Kinds, b: &Kinds) -> bool
    ensures { result ≡ true → a.now ≡ b.now }
{
    are_same(a.as_slice(), b.as_slice())
}

impl<'a> Take for Arrivals<'a> {
    ghost use Rattle.hq_dispatch.specs.Arrivals.{came_at};

    ghost taken = { λ a n. came_at a.from n };

    fn take(&mut self, from: u8, bytes: &[u8]) -> Result<(), NoMemory> {
        let place = from as usize;
        if NODES <= place {
            return Err(NoMemory);
        }
        add_at(self.alloc, self.kinds, &mut self.from, place, bytes)
    }
}

// Nothing of any of 16 nodes.
fn nothing(alloc: Global) -> Result<Vec<Arrival>, NoMemory>
    ensures sixteen { IfOk result (λ from. length from.items ≡ 16) }
    ensures none { IfOk result (λ from. (n : ℕ) → came_at from.items n ≡ []) }
    ensures storable { IfOk result (λ from. (kinds : _) → AreStorable kinds from.items) }
{
    let mut from = Vec::with_capacity(alloc, NODES)?;
    for _place in 0..NODES {
        from.push(Arrival::new(alloc))?;
    }
    Ok(from)
}

// Takes more bytes of the node at a place.
fn add_at(
    alloc: Global,
    kinds: &Kinds,
    from: &mut Vec<Arrival>,
    place: usize,
    bytes: &[u8],
) -> Result<(), NoMemory>
    requires some { 0 < length kinds.now }
    requires within { place < length from.old.items }
    requires storable { AreStorable kinds.now from.old.items }
    ensures count { length from.new.items ≡ length from.old.items }
    ensures storable { AreStorable kinds.now from.new.items }
    ensures more { OnOk result ((n : ℕ) → came_at from.new.items n ≡ with_more (came_at from.old.items) place bytes.now n) }
    ensures refused { OnErr result ((n : ℕ) → came_at from.new.items n ≡ came_at from.old.items n) }
{
    from[place].add(alloc, kinds, bytes)
}

// Adds the rows of a node, where it is a sender.
fn add_rows(
    alloc: Global,
    kinds: &Kinds,
    all: &mut Vec<Row>,
    arrival: Arrival,
    sends: bool,
) -> Result<(), NoMemory>
    requires some { 0 < length kinds.now }
    requires storable { AllByRecursion (IsStorable kinds.now) arrival.rows.items }
    requires before { AllByRecursion (IsStorable kinds.now) all.old.items }
    ensures storable { OnOk result (AllByRecursion (IsStorable kinds.now) all.new.items) }
    ensures rows { OnOk result ((given : List (List Datum)) → (sends ≡ true → AreRows kinds.now given (came arrival))
        → all.new.items ≡ all.old.items ++ (if sends then given else [])) }
{
    if !sends {
        return Ok(());
    }
    let mut rows = arrival.into_rows(alloc, kinds)?;
    all.append(&mut rows)?;
    Ok(())
}

// The rows of the senders, one after the other.
fn join(
    alloc: Global,
    kinds: &Kinds,
    from: Vec<Arrival>,
    sends: &[bool; NODES],
) -> Result<Vec<Row>, NoMemory>
    requires some { 0 < length kinds.now }
    requires sixteen { length from.items ≡ 16 }
    requires storable { AreStorable kinds.now from.items }
    ensures storable { IfOk result (λ rows. AllByRecursion (IsStorable kinds.now) rows.items) }
    ensures rows { IfOk result (λ rows. (given : ℕ → List (List Datum)) →
        ((n : ℕ) → n < 16 → slice_index_or sends.now n false ≡ true → AreRows kinds.now (given n) (came_at from.items n))
        → rows.items ≡ flat_map given (filter (λ n. slice_index_or sends.now n false) (range_with_len 0 16))) }
{
    let mut all = Vec::new(alloc);
    let mut node = 0;
    for arrival in from {
        add_rows(alloc, kinds, &mut all, arrival, sends[node])?;
        node += 1;
    }
    Ok(all)
}

// The same of kinds that are known otherwise. What takes bytes for others tells them nothing of its own ones.
fn join_as(
    alloc: Global,
    own: &Kinds,
    kinds: &Kinds,
    from: Vec<Arrival>,
    sends: &[bool; NODES],
) -> Result<Vec<Row>, NoMemory>
    requires some { 0 < length own.now }
    requires sixteen { length from.items ≡ 16 }
    requires storable { AreStorable own.now from.items }
    ensures storable { IfOk result (λ rows. AllByRecursion (IsStorable kinds.now) rows.items) }
    ensures rows { IfOk result (λ rows. (given : ℕ → List (List Datum)) →
        ((n : ℕ) → n < 16 → slice_index_or sends.now n false ≡ true → AreRows kinds.now (given n) (came_at from.items n))
        → rows.items ≡ flat_map given (filter (λ n. slice_index_or sends.now n false) (range_with_len 0 16))) }
{
    if !same_kinds(own, kinds) {
        return Err(NoMemory);
    }
    join(alloc, kinds, from, sends)
}
