//! A store in memory: bytes that are read back, and files that a planned failure tore.
ghost use Rattle.std.specs.Prelude.{◌≡◌, length, IsTrue, OnOk};

use hq_cases as cases;
use hq_store::{MemStore, Planned, Store, StoreFault};
use hq_value::{Failed, FileId};
use std::alloc::Global;
use std::test::Fail;

/// The file of table 0, lane 0 and bucket 15.
pub const ID: FileId = FileId {
    table: 0,
    lane: 0,
    bucket: 15,
};

// What a store's user does: writes a file, seals it, and reads the seal.
fn written_back<S: Store>(store: &mut S, bytes: &[u8], into: &mut [u8]) -> Result<(), StoreFault>
    requires { length into.old ≡ length bytes.now }
    ensures { OnOk result (IsTrue S.File.tells → IsTrue S.Seal.tells → into.new ≡ bytes.now) }
{
    let mut file = store.create(ID)?;
    store.append(&mut file, bytes)?;
    store.flush(&mut file)?;
    let seal = store.seal(&mut file);
    match store.read(&seal, 0, into) {
        Ok(()) => Ok(()),
        Err(Failed) => Err(StoreFault::Failed),
    }
}

fn sealed_bytes_are_read_back(rt: HostRuntime) -> Result<(), Fail> {
    let mut store = MemStore::new(rt.alloc(), Vec::new(rt.alloc()));
    let mut into = [0u8; 5];
    written_back(&mut store, b"hello", &mut into)?;
    let read = cases::shown(rt.alloc(), &into)?;
    println!(rt; "sealed bytes are read back")?;
    println!(rt;
        "  {read}, {} given, {} faults",
        store.given(),
        store.faults()
    )?;
    Ok(())
}

fn a_torn_file_is_cut_and_goes_on(rt: HostRuntime) -> Result<(), Fail> {
    let alloc = rt.alloc();
    let plan = vec![in alloc; Planned { call: 2, tail: 10 }, Planned { call: 3, tail: 0 }]?;
    let mut store = MemStore::new(alloc, plan);
    let mut file = store.create(ID)?;
    println!(rt; "a torn file is cut and goes on")?;
    let torn = store.append(&mut file, &[7; 18]);
    println!(rt; "  {torn:?}")?;
    let missed = store.cut(&mut file, 0);
    println!(rt; "  {missed:?}")?;
    let cut = store.cut(&mut file, 0);
    println!(rt; "  {cut:?}")?;
    store.append(&mut file, b"hello")?;
    store.cut(&mut file, 2)?;
    let mut into = [0u8; 2];
    let read = store.read_own(&file, 0, &mut into);
    let bytes = cases::shown(alloc, &into)?;
    println!(rt;
        "  {read:?} {bytes}, {} given, {} faults",
        store.given(),
        store.faults()
    )?;
    Ok(())
}

/// Shows what a store in memory does.
pub fn run(rt: HostRuntime) -> Result<(), Fail> {
    sealed_bytes_are_read_back(rt)?;
    a_torn_file_is_cut_and_goes_on(rt)
}
