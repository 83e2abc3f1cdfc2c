//! Rows in the bytes of their receivers.
ghost use Rattle.std.specs.Prelude.{◌≡◌, ◌<◌, ◌++◌, ◌∷◌, ℕ, [], true, false, All, length, slice_index_or, IfOk, OnOk, if◌then◌else◌};
ghost use Rattle.std.specs.List.{AllByRecursion};
ghost use Rattle.hq_value.specs.Kinds.{Fits};
ghost use Rattle.hq_algebra.specs.declared.plan.Motion.{Motion as Way};
ghost use Rattle.hq_block.specs.Row.{IsStorable, IsRow, row_bytes};
ghost use Rattle.hq_pump.specs.Seen.{seen};
ghost use Rattle.hq_dispatch.specs.Parcels.{place_of, list_of, bytes_at, parcel_at, CanGo, HasParcels};
ghost use Rattle.hq_dispatch.specs.Received.{streams_for};

use hq_algebra::Motion;
use hq_block::put_row;
use hq_value::{BUCKETS, Kinds, NoMemory, Row, bucket_of_places};
use std::alloc::Global;

/// The rows that a node sends, in bytes: where rows go by their keys a list for each of 16 nodes, and else one list for
/// all receivers, the first. Lists to which no row has gone need not be there.
#[derive(Drop)]
pub(crate) struct Parcels {
    lists: Vec<Vec<u8>>,
}

impl Parcels {
    /// No rows. It takes no memory.
    pub(crate) fn new(alloc: Global) -> Parcels
        ensures { (n : ℕ) → bytes_at result.lists.items n ≡ [] }
    {
        Parcels {
            lists: Vec::new(alloc),
        }
    }

    /// Adds a row for its receivers. Without memory no byte changes.
    fn add(
        &mut self,
        alloc: Global,
        out: &Motion,
        kinds: &Kinds,
        owner: &[u8; BUCKETS],
        row: &Row,
    ) -> Result<(), NoMemory>
        requires fits { Fits kinds.now row.now }
        requires goes { CanGo out.now row.now }
        requires owners { All (λ node. node < 16) owner.now }
        ensures storable { OnOk result (IsStorable kinds.now row.now) }
        ensures added { OnOk result ((rows : _) → HasParcels out.now owner.now rows self.old.lists.items → HasParcels out.now owner.now (rows ++ row.now ∷ []) self.new.lists.items) }
    {
        let place = place_of(out, owner, row);
        reach(alloc, &mut self.lists, place)?;
        put_at(&mut self.lists, place, kinds, row)
    }

    /// Adds rows for their receivers, in their order.
    pub(crate) fn add_all(
        &mut self,
        alloc: Global,
        out: &Motion,
        kinds: &Kinds,
        owner: &[u8; BUCKETS],
        rows: &[Row],
    ) -> Result<(), NoMemory>
        requires fit { All (Fits kinds.now) rows.now }
        requires goes { All (CanGo out.now) rows.now }
        requires owners { All (λ node. node < 16) owner.now }
        ensures storable { OnOk result (AllByRecursion (IsStorable kinds.now) rows.now) }
        ensures added { OnOk result ((others : _) → HasParcels out.now owner.now others self.old.lists.items → HasParcels out.now owner.now (others ++ rows.now) self.new.lists.items) }
    {
        for row in rows {
            self.add(alloc, out, kinds, owner, row)?;
        }
        Ok(())
    }

    /// The bytes for a receiver.
    fn copy_for(&self, alloc: Global, out: &Motion, node: u8) -> Result<Vec<u8>, NoMemory>
        requires { node < 16 }
        ensures { IfOk result (λ bytes. bytes.items ≡ bytes_at self.now.lists.items (list_of out.now node)) }
    {
        let place = list_of(out, node);
        copy_at(alloc, self.lists.as_slice(), place)
    }
}

// Makes empty lists as far as a place.
fn reach(alloc: Global, lists: &mut Vec<Vec<u8>>, place: usize) -> Result<(), NoMemory>
    ensures within { OnOk result (place < length lists.new.items) }
    ensures same { (n : ℕ) → bytes_at lists.new.items n ≡ bytes_at lists.old.items n }
{
    'lists: while lists.len() <= place {
        lists.push(Vec::new(alloc))?;
    }
    Ok(())
}

// The list to which a row's bytes go.
fn place_of(out: &Motion, owner: &[u8; BUCKETS], row: &Row) -> usize
    requires goes { CanGo out.now row.now }
    requires owners { All (λ node. node < 16) owner.now }
    ensures place { result ≡ place_of out.now owner.now row.now }
    ensures within { result < 16 }
{
    match out {
        Motion::Redistribute(keys) => owner[bucket_of_places(row, keys) as usize] as usize,
        _ => 0,
    }
}

// The list that a receiver gets.
fn list_of(out: &Motion, node: u8) -> usize
    requires { node < 16 }
    ensures list { result ≡ list_of out.now node }
    ensures within { result < 16 }
{
    match out {
        Motion::Redistribute(_) => node as usize,
        _ => 0,
    }
}

// Adds a row's bytes to the list at a place.
fn put_at(lists: &mut Vec<Vec<u8>>, place: usize, kinds: &Kinds, row: &Row) -> Result<(), NoMemory>
    requires within { place < length lists.old.items }
    requires fits { Fits kinds.now row.now }
    ensures count { length lists.new.items ≡ length lists.old.items }
    ensures storable { OnOk result (IsStorable kinds.now row.now) }
    ensures here { OnOk result (bytes_at lists.new.items place ≡ bytes_at lists.old.items place ++ row_bytes row.now) }
    ensures others { (n : ℕ) → (n ≡ place → ⊥) → bytes_at lists.new.items n ≡ bytes_at lists.old.items n }
{
    put_row(&mut lists[place], kinds, row)
}

// The list at a place; none is there past the end.
fn copy_at(alloc: Global, lists: &[Vec<u8>], place: usize) -> Result<Vec<u8>, NoMemory>
    ensures { IfOk result (λ bytes. bytes.items ≡ bytes_at lists.now place) }
{
    if lists.len() <= place {
        return Ok(Vec::new(alloc));
    }
    Ok(Vec::from_slice(alloc, lists[place].as_slice())?)
}

/// The streams of the senders to a receiver, ascending.
pub(crate) fn streams_to(
    alloc: Global,
    out: &Motion,
    parcels: &[Parcels],
    sends: &[bool; BUCKETS],
    node: u8,
) -> Result<Vec<(u8, Vec<u8>)>, NoMemory>
    requires there { (s : ℕ) → slice_index_or sends.now s false ≡ true → s < length parcels.now }
    requires node { node < 16 }
    ensures { IfOk result (λ streams. seen streams.items ≡ streams_for out.now parcels.now sends.now node) }
{
    let mut streams = Vec::with_capacity(alloc, BUCKETS)?;
    for sender in 0..16u8 {
        add_stream(
            alloc,
            out,
            parcels,
            &mut streams,
            sender,
            sends[sender as usize],
            node,
        )?;
    }
    Ok(streams)
}

// Adds the stream of a node, where it is a sender.
fn add_stream(
    alloc: Global,
    out: &Motion,
    parcels: &[Parcels],
    streams: &mut Vec<(u8, Vec<u8>)>,
    sender: u8,
    sends: bool,
    node: u8,
) -> Result<(), NoMemory>
    requires there { sends ≡ true → sender < length parcels.now }
    requires node { node < 16 }
    ensures { OnOk result (seen streams.new.items
        ≡ seen streams.old.items ++ (if sends then (sender, parcel_at parcels.now sender (list_of out.now node)) ∷ [] else [])) }
{
    if !sends {
        return Ok(());
    }
    let bytes = copy_from(alloc, out, parcels, sender as usize, node)?;
    streams.push((sender, bytes))?;
    Ok(())
}

// The bytes of a sender for a receiver.
fn copy_from(
    alloc: Global,
    out: &Motion,
    parcels: &[Parcels],
    sender: usize,
    node: u8,
) -> Result<Vec<u8>, NoMemory>
    requires there { sender < length parcels.now }
    requires node { node < 16 }
    ensures { IfOk result (λ bytes. bytes.items ≡ parcel_at parcels.now sender (list_of out.now node)) }
{
    parcels[sender].copy_for(alloc, out, node)
}
