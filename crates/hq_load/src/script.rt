//! The script of a session.
ghost use Rattle.std.specs.Prelude.{◌≡◌, ◌+◌, ◌-◌, ◌*◌, ◌<◌, ◌≤◌, ◌++◌, min, OnOk, IfOk};
ghost use Rattle.std.specs.Int.{div_ceil};
ghost use Rattle.std.specs.String.{string_bytes};
ghost use Rattle.hq_load.specs.Scripts.{end_text, group_text, groups_text, script_of};

use crate::rows::Rows;
use hq_value::NoMemory;
use std::alloc::Global;

// The first session makes the table.
const SETUP: &str = "CREATE TABLE load (id INT NOT NULL, grp INT, val INT) DISTRIBUTED BY (id);";

// The last session asks for what was committed.
const QUERY: &str = "SELECT COUNT(*), SUM(val) FROM load;";

// A transaction has at most so many rows.
const GROUP: u32 = 100;

// How transaction `group` ends.
fn end_of(group: u32) -> &'static str
    ensures { result.now ≡ end_text group }
{
    if group % 7 == 6 {
        "ROLLBACK;"
    } else {
        "COMMIT;"
    }
}

// Adds transaction `group` of a session that inserts so many rows.
fn write_group(taken: &mut Rows, rows: u32, group: u32, script: &mut String) -> Result<(), NoMemory>
    requires rows { rows ≤ 20000 }
    requires next { taken.old.next ≡ 100 * group }
    requires left { 100 * group < rows }
    ensures text { OnOk result (string_bytes script.new ≡ string_bytes script.old ++ group_text taken.old.seed taken.old.session rows group) }
    ensures next { OnOk result (taken.new ≡ record taken.old { next = 100 * group + min 100 (rows - 100 * group) }) }
{
    let count = GROUP.min(rows - GROUP * group);
    script.push_str("BEGIN;INSERT INTO load VALUES ")?;
    taken.write(count, script)?;
    script.push_str(";")?;
    script.push_str(end_of(group))?;
    Ok(())
}

// The transactions of a session.
fn write_groups(seed: u64, rows: u32, session: u32, script: &mut String) -> Result<(), NoMemory>
    requires rows { rows ≤ 20000 }
    requires session { session ≤ 18 }
    ensures { OnOk result (string_bytes script.new ≡ string_bytes script.old ++ groups_text seed session rows (div_ceil rows 100)) }
{
    let mut taken = Rows::new(seed, session);
    for group in 0..rows.div_ceil(GROUP) {
        write_group(&mut taken, rows, group, script)?;
    }
    Ok(())
}

/// The statements of a session of `load SEED SESSIONS ROWS`. Session 1 makes the table. Each of the next `sessions`
/// inserts `rows` rows, in transactions of at most 100, of which each seventh is rolled back. The one after them asks
/// for the count and the sum of what was committed. `NoMemory` is only for want of memory for the script.
pub fn load_script(
    alloc: Global,
    seed: u64,
    sessions: u32,
    rows: u32,
    session: u32,
) -> Result<Vec<u8>, NoMemory>
    requires least_sessions { 1 ≤ sessions }
    requires most_sessions { sessions ≤ 16 }
    requires least_rows { 1 ≤ rows }
    requires most_rows { rows ≤ 20000 }
    requires first { 1 ≤ session }
    requires last { session ≤ sessions + 2 }
    ensures script { IfOk result (λ script. script.items ≡ script_of seed sessions rows session) }
{
    let mut script = String::new(alloc);
    if session == 1 {
        script.push_str(SETUP)?;
    } else if session == sessions + 2 {
        script.push_str(QUERY)?;
    } else {
        write_groups(seed, rows, session, &mut script)?;
    }
    Ok(script.into_bytes())
}
