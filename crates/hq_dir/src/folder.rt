//! A folder that a store is given.
ghost use Rattle.std.specs.Prelude.{◌↔◌, IsTrue};
ghost use Rattle.hq_dir.specs.LaneNames.{BeginsAsLane};

use crate::names::{node_path, probe_path};
use hq_value::DoorFault;
use std::alloc::Global;
use std::fs;
use std::fs::File;
use std::io::{Error, ErrorKind};
use std::rt::Files;

// Want of memory is told apart from every other failure.
fn door_fault(error: &Error) -> DoorFault {
    match error.kind() {
        ErrorKind::OutOfMemory => DoorFault::NoMemory,
        _ => DoorFault::Failed,
    }
}

/// Whether a name begins as those of lanes' files do: with `t` and a digit.
pub fn begins_as_lane(name: &[u8]) -> bool
    ensures { IsTrue result ↔ BeginsAsLane name.now }
{
    match name {
        [b't', second, ..] => second.is_ascii_digit(),
        _ => false,
    }
}

// Whether a folder has an entry whose name begins as those of lanes' files do.
fn has_lane_file<R: Files + AllocGlobal + Clone + Drop>(
    rt: &R,
    folder: &str,
) -> Result<bool, Error> {
    for entry in fs::read_dir(rt, folder)? {
        if begins_as_lane(entry?.file_name().as_bytes()) {
            return Ok(true);
        }
    }
    Ok(false)
}

// Makes a file in the folder and removes it again.
fn try_to_write<R: Files>(rt: &R, alloc: Global, folder: &str) -> Result<(), Error> {
    let path = probe_path(alloc, folder)?;
    drop(File::create(rt, path.as_str())?);
    fs::remove_file(rt, path.as_str())
}

// Makes the folder, where it is missing, and says whether it has no lane's file and can be written.
fn prepare<R: Files + AllocGlobal + Clone + Drop>(
    rt: &R,
    alloc: Global,
    folder: &str,
) -> Result<bool, Error> {
    fs::create_dir_all(rt, folder)?;
    if has_lane_file(rt, folder)? {
        return Ok(false);
    }
    try_to_write(rt, alloc, folder)?;
    Ok(true)
}

/// Makes a folder ready for a store without files: makes it where it is missing. `Failed` where the folder has a file
/// whose name begins as those of lanes' files do, and then nothing was made in it; and where it can't be made, listed
/// or written.
pub fn prepare_folder<R: Files + AllocGlobal + Clone + Drop>(
    rt: &R,
    alloc: Global,
    folder: &str,
) -> Result<(), DoorFault> {
    match prepare(rt, alloc, folder) {
        Ok(true) => Ok(()),
        Ok(false) => Err(DoorFault::Failed),
        Err(error) => Err(door_fault(&error)),
    }
}

/// Makes a node's folder `seg-n` in a folder, where it is missing. `Failed` where it can't be made.
pub fn prepare_node<R: Files>(
    rt: &R,
    alloc: Global,
    folder: &str,
    node: u8,
) -> Result<(), DoorFault> {
    let Ok(path) = node_path(alloc, folder, node) else {
        return Err(DoorFault::NoMemory);
    };
    fs::create_dir_all(rt, path.as_str()).map_err(|error| door_fault(&error))
}
