//! Seals of files that grow, and bytes over many pages and groups.
ghost use Rattle.std.specs.Prelude.{◌<◌, OnOk, true};
ghost use Rattle.hq_store.specs.FileStep.{HasNoTail};

use crate::stores::ID;
use hq_store::{MemFile, MemSeal, MemStore, SealCopy, Store, StoreFault};
use hq_value::Failed;
use std::alloc::Global;
use std::test::Fail;

// Whether a seal has these bytes at a place.
fn has_at(
    alloc: Global,
    store: &mut MemStore,
    seal: &MemSeal,
    at: u64,
    bytes: &[u8],
) -> Result<bool, Fail> {
    let mut into = vec![in alloc; 0; bytes.len()]?;
    if seal.len() < at || seal.len() - at < into.len() as u64 {
        return Ok(false);
    }
    match store.read(seal, at, &mut into) {
        Ok(()) => Ok(into.as_slice() == bytes),
        Err(Failed) => Ok(false),
    }
}

// A seal of the file with these bytes behind it.
fn sealed_with(
    store: &mut MemStore,
    file: &mut MemFile,
    bytes: &[u8],
) -> Result<MemSeal, StoreFault>
    requires { HasNoTail true file.old }
    ensures { OnOk result (HasNoTail true file.new) }
{
    store.append(file, bytes)?;
    store.flush(file)?;
    Ok(store.seal(file))
}

// Whether a copied seal has its bytes when its file has grown and is sealed again.
fn copied_seal_stays(alloc: Global, store: &mut MemStore) -> Result<bool, Fail> {
    let mut file = store.create(ID)?;
    let copy = sealed_with(store, &mut file, b"one")?.copy()?;
    sealed_with(store, &mut file, b"two")?;
    has_at(alloc, store, &copy, 0, b"one")
}

// Whether the second seal of a file has all its bytes.
fn second_seal_has_all(alloc: Global, store: &mut MemStore) -> Result<bool, Fail> {
    let mut file = store.create(ID)?;
    sealed_with(store, &mut file, b"one")?;
    let seal = sealed_with(store, &mut file, b"two")?;
    has_at(alloc, store, &seal, 0, b"onetwo")
}

fn pattern(alloc: Global, len: usize) -> Result<Vec<u8>, Fail> {
    let mut bytes = Vec::with_capacity(alloc, len)?;
    for i in 0..len {
        bytes.push((i % 251) as u8)?;
    }
    Ok(bytes)
}

// A file of these bytes, appended by parts, and sealed.
fn sealed_by(store: &mut MemStore, bytes: &[u8], part: usize) -> Result<MemSeal, StoreFault>
    requires { 0 < part }
{
    let mut file = store.create(ID)?;
    for part in bytes.chunks(part) {
        store.append(&mut file, part)?;
    }
    store.flush(&mut file)?;
    Ok(store.seal(&mut file))
}

// A file of these bytes, sealed behind each part.
fn sealed_part_by_part(
    store: &mut MemStore,
    bytes: &[u8],
    part: usize,
) -> Result<MemSeal, StoreFault>
    requires { 0 < part }
{
    let mut file = store.create(ID)?;
    for part in bytes.chunks(part) {
        sealed_with(store, &mut file, part)?;
    }
    store.flush(&mut file)?;
    Ok(store.seal(&mut file))
}

// Whether it has them from `at` on, read at several lengths.
fn has_from(
    alloc: Global,
    store: &mut MemStore,
    seal: &MemSeal,
    at: usize,
    bytes: &[u8],
) -> Result<bool, Fail> {
    for len in [0, 1, 2, 4_096, 20_000] {
        let part = bytes.get(at..).and_then(|rest| rest.get(..len));
        if !has_at(alloc, store, seal, at as u64, part.unwrap_or(b"lost"))? {
            return Ok(false);
        }
    }
    Ok(true)
}

// Whether the seal has the bytes from each of these places on.
fn has_from_each(
    alloc: Global,
    store: &mut MemStore,
    seal: &MemSeal,
    places: &[usize],
    bytes: &[u8],
) -> Result<bool, Fail> {
    for at in places {
        if !has_from(alloc, store, seal, *at, bytes)? {
            return Ok(false);
        }
    }
    Ok(true)
}

fn over_pages(rt: HostRuntime) -> Result<(), Fail> {
    let alloc = rt.alloc();
    let bytes = pattern(alloc, 50_000)?;
    println!(rt; "bytes over many pages are read at every alignment")?;
    for part in [999, 4_095, 4_096, 4_097, 40_000] {
        let mut store = MemStore::new(alloc, Vec::new(alloc));
        let seal = sealed_by(&mut store, &bytes, part)?;
        let places = [0, 1, 4_095, 4_096, 4_097, 30_000];
        let all = has_from_each(alloc, &mut store, &seal, &places, &bytes)?;
        println!(rt; "  by {part}: {} bytes, {all}", seal.len())?;
    }
    Ok(())
}

fn over_groups(rt: HostRuntime) -> Result<(), Fail> {
    let alloc = rt.alloc();
    let bytes = pattern(alloc, 600_000)?;
    println!(rt; "bytes over many groups are read at every alignment")?;
    for part in [1_000, 50_000, 300_000] {
        let mut store = MemStore::new(alloc, Vec::new(alloc));
        let seal = sealed_part_by_part(&mut store, &bytes, part)?;
        let places = [0, 262_143, 262_144, 270_000, 524_287];
        let all = has_from_each(alloc, &mut store, &seal, &places, &bytes)?;
        println!(rt; "  by {part}: {} bytes, {all}", seal.len())?;
    }
    Ok(())
}

fn goes_between_tasks<T: Send + Sync>(_: &T) {}

// A store, its files and its seals go between tasks.
fn between_tasks(rt: HostRuntime) -> Result<(), Fail> {
    let mut store = MemStore::new(rt.alloc(), Vec::new(rt.alloc()));
    let mut file = store.create(ID)?;
    goes_between_tasks(&store);
    goes_between_tasks(&file);
    store.flush(&mut file)?;
    goes_between_tasks(&store.seal(&mut file));
    Ok(())
}

/// Shows that seals stay as their files grow, and what is read of long ones.
pub fn run(rt: HostRuntime) -> Result<(), Fail> {
    let alloc = rt.alloc();
    let mut store = MemStore::new(alloc, Vec::new(alloc));
    let copied = copied_seal_stays(alloc, &mut store)?;
    let second = second_seal_has_all(alloc, &mut store)?;
    println!(rt; "a seal stays as its file grows")?;
    println!(rt; "  {copied} {second}")?;
    over_pages(rt)?;
    over_groups(rt)?;
    between_tasks(rt)
}
