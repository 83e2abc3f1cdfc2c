//! What becomes of folders that are made ready.

use crate::folders::{FOLDER, begin, end};
use hq_detect::Host;
use hq_dir::{DirHost, DirStore, prepare_folder, prepare_node};
use hq_store::Store;
use hq_value::FileId;
use std::fs;
use std::test::Fail;

// A folder that is not there yet.
const NEW: &str = "hq_dirtests_folder/new/folder";

const ID: FileId = FileId {
    table: 0,
    lane: 0,
    bucket: 0,
};

// A path of so many bytes can be opened, and none of 11 bytes more.
const LONGEST: usize = 4090;

// Shows what making a folder ready gives.
fn show(rt: HostRuntime, what: &str, folder: &str) -> Result<(), Fail> {
    let answer = prepare_folder(&rt, rt.alloc(), folder);
    println!(rt; "  {what}: {answer:?}")?;
    Ok(())
}

// Shows what making a node's folder gives.
fn show_node(rt: HostRuntime, folder: &str, node: u8) -> Result<(), Fail> {
    let answer = prepare_node(&rt, rt.alloc(), folder, node);
    println!(rt; "  node {node}: {answer:?}")?;
    Ok(())
}

// Shows which hosts are found over a folder.
fn show_hosts(rt: HostRuntime, folder: &str) -> Result<(), Fail> {
    for node in 0..4u8 {
        let mut host = DirHost::new(rt, rt.alloc(), folder, node)?;
        let answer = host.check();
        println!(rt; "    host {node}: {answer:?}")?;
    }
    Ok(())
}

fn a_folder_is_made(rt: HostRuntime) -> Result<(), Fail> {
    begin(
        rt,
        "a folder is made ready, with the folders of three nodes",
    )?;
    show(rt, "a new folder", NEW)?;
    for node in 0..3u8 {
        show_node(rt, NEW, node)?;
    }
    show_hosts(rt, NEW)?;
    show_node(rt, NEW, 2)?;
    show(rt, "again", NEW)?;
    fs::write(&rt, "hq_dirtests_folder/new/folder/table", b"".as_slice())?;
    show(rt, "with a file that no lane has", NEW)?;
    end(rt)
}

fn a_folder_has_a_lane_file(rt: HostRuntime) -> Result<(), Fail> {
    begin(
        rt,
        "a folder with a lane's file is refused, and nothing is made in it",
    )?;
    let mut store = DirStore::open(rt, rt.alloc(), FOLDER)?;
    let mut file = store.create(ID)?;
    store.append(&mut file, b"x")?;
    show(rt, "a lane's file", FOLDER)?;
    show_hosts(rt, FOLDER)?;
    let bytes = fs::read(&rt, "hq_dirtests_folder/t0-l0-b0")?;
    println!(rt; "  the file has {} bytes", bytes.len())?;
    end(rt)
}

// A folder that is there, of which no file can be made, since its path would be too long.
fn long_path(rt: HostRuntime) -> Result<String, Fail> {
    let mut path = String::from_str(rt.alloc(), FOLDER)?;
    path.push('/')?;
    for at in FOLDER.len() + 1..LONGEST {
        path.push(if (LONGEST - at) % 200 == 0 { '/' } else { 'd' })?;
    }
    Ok(path)
}

fn a_folder_cannot_be_made_or_written(rt: HostRuntime) -> Result<(), Fail> {
    begin(rt, "a folder that can't be made or written is refused")?;
    fs::write(&rt, "hq_dirtests_folder/file", b"".as_slice())?;
    show(rt, "a file", "hq_dirtests_folder/file")?;
    show(rt, "below a file", "hq_dirtests_folder/file/below")?;
    show_node(rt, "hq_dirtests_folder/file", 0)?;
    let long = long_path(rt)?;
    show(rt, "a folder without room for a name", long.as_str())?;
    println!(rt; "  it is there: {}", fs::exists(&rt, long.as_str())?)?;
    end(rt)
}

/// Shows what becomes of folders that are made ready.
pub fn run(rt: HostRuntime) -> Result<(), Fail> {
    a_folder_is_made(rt)?;
    a_folder_has_a_lane_file(rt)?;
    a_folder_cannot_be_made_or_written(rt)
}
