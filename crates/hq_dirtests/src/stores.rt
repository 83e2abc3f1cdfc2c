//! What a store over a folder does with its files.
use crate::folders::{FOLDER, begin, end};
use hq_cases as cases;
use hq_dir::DirStore;
use hq_store::{SealCopy, Store};
use hq_value::{Failed, FileId};
use std::fs;
use std::fs::{OpenFile, OpenOptions};
use std::test::Fail;

// The file of table 3, lane 0 and bucket 15, and where it lies.
const ID: FileId = FileId {
    table: 3,
    lane: 0,
    bucket: 15,
};

const PATH: &str = "hq_dirtests_folder/t3-l0-b15";

// The file of the greatest numbers.
const LAST: FileId = FileId {
    table: 4_294_967_295,
    lane: 255,
    bucket: 255,
};

const LAST_PATH: &str = "hq_dirtests_folder/t4294967295-l255-b255";

// Shows the bytes that a file has by its name.
fn show_file(rt: HostRuntime, path: &str) -> Result<(), Fail> {
    let bytes = fs::read(&rt, path)?;
    let shown = cases::shown(rt.alloc(), &bytes)?;
    println!(rt; "  {path} has {shown}")?;
    Ok(())
}

// Shows what a store has counted.
fn show_counts<S: Store>(rt: HostRuntime, store: &S) -> Result<(), Fail> {
    println!(rt; "  {} given, {} faults", store.given(), store.faults())?;
    Ok(())
}

// Shows an answer and the bytes that came with it.
fn show_read(rt: HostRuntime, answer: Result<(), Failed>, bytes: &[u8]) -> Result<(), Fail> {
    let bytes = cases::shown(rt.alloc(), bytes)?;
    println!(rt; "  read {answer:?} {bytes}")?;
    Ok(())
}

// What can be sent to a task, and what tasks can share.
fn can_be_sent<T: Send>(_: &T) {}

fn can_be_shared<T: Sync>(_: &T) {}

fn open(rt: HostRuntime) -> Result<DirStore<HostRuntime>, Fail> {
    let store = DirStore::open(rt, rt.alloc(), FOLDER)?;
    Ok(store)
}

// A sealed file grows. Its seal is read by another client, and the file is there by its name.
fn bytes_are_read_back(rt: HostRuntime) -> Result<(), Fail> {
    begin(rt, "bytes that were flushed are read back")?;
    let mut store = open(rt)?;
    let mut file = store.create(ID)?;
    store.append(&mut file, b"hello")?;
    store.flush(&mut file)?;
    let seal = store.seal(&mut file);
    can_be_sent(&store);
    can_be_sent(&file);
    can_be_sent(&seal);
    can_be_shared(&seal);
    store.append(&mut file, b", world")?;
    store.flush(&mut file)?;
    let mut own = [0u8; 7];
    let answer = store.read_own(&file, 5, &mut own);
    show_read(rt, answer, &own)?;
    show_counts(rt, &store)?;
    let copy = seal.copy()?;
    println!(rt; "  sealed: {} bytes", copy.len())?;
    let mut other = open(rt)?;
    let mut sealed = [0u8; 5];
    let answer = other.read(&copy, 0, &mut sealed);
    show_read(rt, answer, &sealed)?;
    show_counts(rt, &other)?;
    show_file(rt, PATH)?;
    end(rt)
}

// What is behind the cut is gone, and the next bytes come in its place.
fn a_file_is_cut(rt: HostRuntime) -> Result<(), Fail> {
    begin(rt, "a file is cut, and grows again")?;
    let mut store = open(rt)?;
    let mut file = store.create(LAST)?;
    store.append(&mut file, b"one")?;
    store.flush(&mut file)?;
    let seal = store.seal(&mut file);
    store.append(&mut file, b" and more")?;
    store.cut(&mut file, 3)?;
    show_file(rt, LAST_PATH)?;
    store.append(&mut file, b", two")?;
    let mut sealed = [0u8; 3];
    let answer = store.read(&seal, 0, &mut sealed);
    show_read(rt, answer, &sealed)?;
    show_file(rt, LAST_PATH)?;
    show_counts(rt, &store)?;
    end(rt)
}

// Cuts a file to two bytes, as another program may.
fn cut_by_another(rt: HostRuntime) -> Result<(), Fail> {
    let file = OpenOptions::new().write(true).open(&rt, PATH)?;
    file.set_len(2)?;
    Ok(())
}

fn a_file_is_cut_by_another(rt: HostRuntime) -> Result<(), Fail> {
    begin(
        rt,
        "a file that another program cut: bytes past its end are faults",
    )?;
    let mut store = open(rt)?;
    let mut file = store.create(ID)?;
    store.append(&mut file, b"hello")?;
    store.flush(&mut file)?;
    let seal = store.seal(&mut file);
    cut_by_another(rt)?;
    let mut into = [0u8; 3];
    let answer = store.read(&seal, 2, &mut into);
    show_read(rt, answer, &into)?;
    let answer = store.read_own(&file, 2, &mut into);
    show_read(rt, answer, &into)?;
    let mut there = [0u8; 2];
    let answer = store.read(&seal, 0, &mut there);
    show_read(rt, answer, &there)?;
    show_counts(rt, &store)?;
    end(rt)
}

// Shows what a create gives.
fn show_create(rt: HostRuntime, store: &mut DirStore<HostRuntime>, id: FileId) -> Result<(), Fail> {
    match store.create(id) {
        Ok(_) => println!(rt; "  create Ok")?,
        Err(fault) => println!(rt; "  create {fault:?}")?,
    }
    Ok(())
}

fn a_file_is_made_once(rt: HostRuntime) -> Result<(), Fail> {
    begin(rt, "a file is made once, and not in a folder that is gone")?;
    let mut store = open(rt)?;
    show_create(rt, &mut store, ID)?;
    show_create(rt, &mut store, ID)?;
    show_create(rt, &mut store, LAST)?;
    end(rt)?;
    show_create(rt, &mut store, LAST)?;
    show_counts(rt, &store)
}

// Shows what an opening gives.
fn show_open(rt: HostRuntime, what: &str, folder: &str) -> Result<(), Fail> {
    match DirStore::open(rt, rt.alloc(), folder) {
        Ok(store) => println!(rt; "  {what}: {} faults", store.faults())?,
        Err(fault) => println!(rt; "  {what}: {fault:?}")?,
    }
    Ok(())
}

fn a_store_needs_a_folder(rt: HostRuntime) -> Result<(), Fail> {
    begin(rt, "a store is opened over a folder that is there")?;
    fs::write(&rt, PATH, b"".as_slice())?;
    show_open(rt, "a folder", FOLDER)?;
    show_open(rt, "a file", PATH)?;
    show_open(rt, "nothing", "hq_dirtests_folder/missing")?;
    end(rt)
}

/// Shows what a store over a folder does.
pub fn run(rt: HostRuntime) -> Result<(), Fail> {
    bytes_are_read_back(rt)?;
    a_file_is_cut(rt)?;
    a_file_is_cut_by_another(rt)?;
    a_file_is_made_once(rt)?;
    a_store_needs_a_folder(rt)
}
