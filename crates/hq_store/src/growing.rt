//! Bytes that grow at their end, can be cut, and are shared with no copy.
ghost use Rattle.std.specs.Prelude.{◌≡◌, ◌+◌, ◌-◌, ◌*◌, ◌^◌, ◌<◌, ◌≤◌, ◌++◌, [], length, take, slice_range, vec_capacity, IfOk, OnOk, OnErr};
ghost use Rattle.hq_store.specs.Pages.{joined, AreWhole};

use crate::group::Group;
use crate::mem_seal::{MemSeal, Parts};
use crate::pages::{GROUP, PAGE, add_pages, make_groups};
use crate::read::read;
use crate::tail::{close, cut_tail, gather, keep_run};
use bytes::Bytes;
use hq_value::{FileId, NoMemory};
use std::alloc::Global;
use std::marker::Model;
use std::mem;

/// The bytes of a file, in order: finished groups of full pages, full pages behind them, runs that flushes closed, and
/// bytes that no seal shares yet. Behind the full pages are fewer bytes than a page has. There is room for one run at
/// least, so that a cut takes no memory, and no cut reaches into a finished group.
#[derive(Drop)]
pub(crate) struct GrowingBytes {
    alloc: Global,
    groups: Vec<Group>,
    pages: Vec<Bytes>,
    runs: Vec<Bytes>,
    unshared: Vec<u8>,
    len: u64,
}

impl Model for GrowingBytes {
    ghost use Rattle.std.specs.Prelude.{◌≡◌, ◌^◌, ◌<◌, length, vec_capacity};
    ghost use Rattle.hq_store.specs.declared.pages.TheConstants.{PAGE, GROUP};
    ghost use Rattle.hq_store.specs.Pages.{Grown, flat, joined, bytes_in, AreWhole, AreGroups};

    ghost Value = { Grown };

    ghost view = { λ b. record {
      bytes = bytes_in b.groups.items b.pages.items b.runs.items b.unshared.items;
      fixed = length (flat (flat b.groups.items));
    } };

    ghost invariant = { λ b. AreGroups PAGE GROUP b.groups.items × AreWhole PAGE b.pages.items
        × (length (joined b.runs.items b.unshared.items) < PAGE) × (0 < vec_capacity b.runs)
        × (b.len ≡ length (bytes_in b.groups.items b.pages.items b.runs.items b.unshared.items)) × (b.len < 2 ^ 64) };
}

impl GrowingBytes {
    /// No bytes.
    pub(crate) fn new(alloc: Global) -> Result<GrowingBytes, NoMemory>
        ensures { IfOk result (λ new. new ≡ record { bytes = []; fixed = 0 }) }
    {
        let runs = Vec::with_capacity(alloc, 1)?;
        Ok(GrowingBytes {
            alloc,
            groups: Vec::new(alloc),
            pages: Vec::new(alloc),
            runs,
            unshared: Vec::new(alloc),
            len: 0,
        })
    }

    pub(crate) fn len(&self) -> u64
        ensures value { result ≡ length self.now.bytes }
        ensures bound { length self.now.bytes < 2 ^ 64 }
    {
        self.len
    }

    // How many bytes lie in finished groups.
    fn fixed(&self) -> usize
        ensures value { result ≡ self.now.fixed }
        ensures within { result ≤ length self.now.bytes }
    {
        self.groups.len() * (GROUP * PAGE)
    }

    /// Adds bytes at the end. Without memory nothing changes.
    pub(crate) fn append(&mut self, bytes: &[u8]) -> Result<(), NoMemory>
        ensures ok { OnOk result (self.new ≡ record self.old { bytes = self.old.bytes ++ bytes.now }) }
        ensures err { OnErr result (self.new ≡ self.old) }
    {
        let Some(len) = self.len.checked_add(bytes.len() as u64) else {
            return Err(NoMemory);
        };
        let tail = self.len as usize - self.fixed() - self.pages.len() * PAGE;
        add(
            self.alloc,
            &mut self.pages,
            &mut self.runs,
            &mut self.unshared,
            tail,
            bytes,
        )?;
        self.len = len;
        Ok(())
    }

    /// Keeps the first `len` bytes.
    pub(crate) fn cut(&mut self, len: u64)
        requires kept { self.old.fixed ≤ len }
        requires within { len ≤ length self.old.bytes }
        ensures { self.new ≡ record self.old { bytes = take len self.old.bytes } }
    {
        let at = len as usize - self.fixed();
        cut(&mut self.pages, &mut self.runs, &mut self.unshared, at);
        self.len = len;
    }

    // Makes groups of the full pages below `sealed`. No byte is copied or changes.
    fn group_sealed(&mut self, sealed: u64) -> Result<(), NoMemory>
        requires { self.old.fixed ≤ sealed }
        ensures bytes { self.new.bytes ≡ self.old.bytes }
        ensures fixed { self.new.fixed ≤ sealed }
    {
        let below = sealed as usize / PAGE - self.groups.len() * GROUP;
        let count = below.min(self.pages.len()) / GROUP;
        if count == 0 {
            return Ok(());
        }
        make_groups(self.alloc, &mut self.groups, &mut self.pages, count)
    }

    /// A seal of these bytes, of the file of that id. Those below `sealed` are never cut. No byte is copied or changes.
    pub(crate) fn share(&mut self, id: FileId, sealed: u64) -> Result<MemSeal, NoMemory>
        requires { self.old.fixed ≤ sealed }
        ensures seal { IfOk result (λ seal. seal.bytes ≡ self.old.bytes) }
        ensures id { IfOk result (λ seal. seal.id ≡ id) }
        ensures bytes { self.new.bytes ≡ self.old.bytes }
        ensures fixed { self.new.fixed ≤ sealed }
    {
        self.group_sealed(sealed)?;
        close(self.alloc, &mut self.runs, &mut self.unshared)?;
        let groups = self.groups.clone()?;
        let pages = self.pages.clone()?;
        let runs = self.runs.clone()?;
        let parts = Parts {
            groups,
            pages,
            runs,
        };
        MemSeal::new(self.alloc, id, parts, self.len)
    }

    /// Fills `into` with the bytes from `at` on.
    pub(crate) fn read(&self, at: u64, into: &mut [u8])
        requires { at + length into.old ≤ length self.now.bytes }
        ensures { into.new ≡ slice_range self.now.bytes at (at + length into.old) }
    {
        read(
            &self.groups,
            &self.pages,
            &self.runs,
            &self.unshared,
            at as usize,
            into,
        );
    }
}

// Adds bytes behind the finished groups, where `tail` bytes are behind the full pages. As a page fills, its runs are
// gathered into it, so a byte is copied once more at most. Without memory nothing changes.
fn add(
    alloc: Global,
    pages: &mut Vec<Bytes>,
    runs: &mut Vec<Bytes>,
    unshared: &mut Vec<u8>,
    tail: usize,
    bytes: &[u8],
) -> Result<(), NoMemory>
    requires whole { AreWhole PAGE pages.old.items }
    requires tail { tail ≡ length (joined runs.old.items unshared.old.items) }
    requires short { tail < PAGE }
    requires room { 0 < vec_capacity runs.old }
    ensures ok { OnOk result (joined pages.new.items (joined runs.new.items unshared.new.items) ≡ joined pages.old.items (joined runs.old.items unshared.old.items) ++ bytes.now) }
    ensures err { OnErr result (joined pages.new.items (joined runs.new.items unshared.new.items) ≡ joined pages.old.items (joined runs.old.items unshared.old.items)) }
    ensures whole { AreWhole PAGE pages.new.items }
    ensures short { length (joined runs.new.items unshared.new.items) < PAGE }
    ensures room { 0 < vec_capacity runs.new }
{
    let room = PAGE - tail;
    if bytes.len() < room {
        unshared.extend_from_slice(bytes)?;
        return Ok(());
    }
    let (head, rest) = bytes.split_at(room);
    let mut made = Vec::new(alloc);
    made.push(gather(alloc, runs, unshared, head)?)?;
    let rest = add_pages(alloc, &mut made, rest)?;
    let rest = Vec::from_slice(alloc, rest)?;
    pages.append(&mut made)?;
    runs.clear();
    *unshared = rest;
    Ok(())
}

// Keeps the first `at` bytes behind the finished groups.
fn cut(pages: &mut Vec<Bytes>, runs: &mut Vec<Bytes>, unshared: &mut Vec<u8>, at: usize)
    requires whole { AreWhole PAGE pages.old.items }
    requires short { length (joined runs.old.items unshared.old.items) < PAGE }
    requires room { 0 < vec_capacity runs.old }
    requires within { at ≤ length (joined pages.old.items (joined runs.old.items unshared.old.items)) }
    ensures bytes { joined pages.new.items (joined runs.new.items unshared.new.items) ≡ take at (joined pages.old.items (joined runs.old.items unshared.old.items)) }
    ensures whole { AreWhole PAGE pages.new.items }
    ensures short { length (joined runs.new.items unshared.new.items) < PAGE }
    ensures room { 0 < vec_capacity runs.new }
{
    let place = at / PAGE;
    if place < pages.len() {
        let mut page = mem::replace(&mut pages[place], Bytes::new());
        page.truncate(at % PAGE);
        pages.truncate(place);
        keep_run(runs, unshared, page);
        return;
    }
    cut_tail(runs, unshared, at - pages.len() * PAGE);
}
