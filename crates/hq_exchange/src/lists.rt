//! What takes streams into lists.
ghost use Rattle.std.specs.Prelude.{◌≡◌, ◌≢◌, ◌<◌, ℕ, List, [], length, map, IfOk, OnOk, OnErr};
ghost use Rattle.hq_recv.specs.Taking.{with_more};
ghost use Rattle.hq_exchange.specs.Lists.{bytes_at, AreApart};
ghost use Rattle.hq_pump.specs.Seen.{seen};

use hq_recv::Take;
use hq_value::NoMemory;
use std::alloc::Global;
use std::mem;

/// The bytes taken so far of some streams: those of sender n at place n.
#[derive(Drop)]
pub(crate) struct Lists {
    alloc: Global,
    lists: Vec<Vec<u8>>,
}

impl Lists {
    /// Nothing of any stream.
    pub(crate) fn new(alloc: Global) -> Lists
        ensures { (n : ℕ) → bytes_at result.lists.items n ≡ [] }
    {
        Lists {
            alloc,
            lists: Vec::new(alloc),
        }
    }

    /// What was taken of each of these senders, in their order.
    pub(crate) fn into_streams(self, senders: &[u8]) -> Result<Vec<(u8, Vec<u8>)>, NoMemory>
        requires apart { AreApart senders.now }
        ensures { IfOk result (λ streams. seen streams.items
            ≡ map (λ n. (n, bytes_at self.lists.items n)) senders.now) }
    {
        let Lists { alloc, mut lists } = self;
        let mut streams = Vec::with_capacity(alloc, senders.len())?;
        for from in senders {
            let bytes = take_out(alloc, &mut lists, *from as usize);
            streams.push((*from, bytes))?;
        }
        Ok(streams)
    }
}

impl Take for Lists {
    ghost use Rattle.hq_exchange.specs.Lists.{bytes_at};

    ghost taken = { λ lists n. bytes_at lists.lists.items n };

    fn take(&mut self, from: u8, bytes: &[u8]) -> Result<(), NoMemory> {
        make_place(self.alloc, &mut self.lists, from as usize)?;
        append(&mut self.lists, from as usize, bytes)
    }
}

// Makes empty lists up to the place.
fn make_place(alloc: Global, lists: &mut Vec<Vec<u8>>, place: usize) -> Result<(), NoMemory>
    ensures same { (n : ℕ) → bytes_at lists.new.items n ≡ bytes_at lists.old.items n }
    ensures there { OnOk result (place < length lists.new.items) }
{
    'places: while lists.len() <= place {
        lists.push(Vec::new(alloc))?;
    }
    Ok(())
}

// Puts more bytes behind those at the place.
fn append(lists: &mut Vec<Vec<u8>>, place: usize, bytes: &[u8]) -> Result<(), NoMemory>
    requires there { place < length lists.old.items }
    ensures more { OnOk result ((n : ℕ) → bytes_at lists.new.items n
        ≡ with_more (bytes_at lists.old.items) place bytes.now n) }
    ensures refused { OnErr result ((n : ℕ) → bytes_at lists.new.items n ≡ bytes_at lists.old.items n) }
{
    lists[place].extend_from_slice(bytes)?;
    Ok(())
}

// The bytes at the place, which it loses.
fn take_out(alloc: Global, lists: &mut Vec<Vec<u8>>, place: usize) -> Vec<u8>
    ensures bytes { result.items ≡ bytes_at lists.old.items place }
    ensures others { (n : ℕ) → n ≢ place → bytes_at lists.new.items n ≡ bytes_at lists.old.items n }
{
    if place < lists.len() {
        mem::replace(&mut lists[place], Vec::new(alloc))
    } else {
        Vec::new(alloc)
    }
}
