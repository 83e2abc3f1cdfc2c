//! Folders that a case makes and removes.

use std::fs;
use std::test::Fail;

/// The folder of the cases.
pub const FOLDER: &str = "hq_dirtests_folder";

/// Begins a case: shows its name, and makes the folder empty.
pub fn begin(rt: HostRuntime, name: &str) -> Result<(), Fail> {
    println!(rt; "case {name}")?;
    if fs::exists(&rt, FOLDER)? {
        fs::remove_dir_all(&rt, FOLDER)?;
    }
    fs::create_dir(&rt, FOLDER)?;
    Ok(())
}

/// Ends it: removes the folder.
pub fn end(rt: HostRuntime) -> Result<(), Fail> {
    fs::remove_dir_all(&rt, FOLDER)?;
    Ok(())
}
