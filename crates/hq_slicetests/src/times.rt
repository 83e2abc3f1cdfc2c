//! The times of slices.

use crate::plans::Work;
use crate::slices::run_only;
use crate::table::{Filled, Size, fill_table};
use hq_detect::SureHost;
use hq_exec::SliceEnd;
use hq_lane::{BlockCursor, ScanFault};
use hq_snap::{LaneSeals, TableSnap};
use hq_untold::{Reads, UntoldFile, UntoldSeal, UntoldStore};
use hq_value::{Kinds, Row, kinds_of};
use std::alloc::Global;
use std::test::Fail;
use std::time::{CpuClock, Duration};

// How rows are read: by a cursor, or by a slice.
#[derive(Clone, Copy)]
enum Way {
    Blocks,
    Slice(Work),
}

fn way_named(word: &str) -> Option<Way> {
    match word {
        "blocks" => Some(Way::Blocks),
        "filter" => Some(Way::Slice(Work::Filter(8))),
        "few" => Some(Way::Slice(Work::Filter(1))),
        "group" => Some(Way::Slice(Work::Group(1_000))),
        _ => None,
    }
}

// How many rows the file under a seal has, of which those of one block are kept at a time.
fn count_under(
    alloc: Global,
    store: &mut UntoldStore,
    seal: &UntoldSeal,
    kinds: &Kinds,
) -> Result<usize, ScanFault> {
    let mut cursor: BlockCursor<'_, UntoldFile, UntoldSeal> = BlockCursor::under_seal(
        alloc,
        seal,
        kinds,
        &[],
    );
    let mut rows: Vec<Row> = Vec::new(alloc);
    let mut count = 0usize;
    for _ in 0..u32::MAX {
        if cursor.is_done() {
            return Ok(count);
        }
        rows.clear();
        cursor.next(store, &mut rows)?;
        count = count.saturating_add(rows.len());
    }
    Ok(count)
}

// How many rows a lane has.
fn count_in(
    alloc: Global,
    store: &mut UntoldStore,
    lane: &LaneSeals<UntoldSeal>,
    kinds: &Kinds,
) -> Result<usize, ScanFault> {
    let mut count = 0usize;
    for bucket in 0..16u8 {
        if let Some(seal) = lane.get(bucket) {
            count = count.saturating_add(count_under(alloc, store, seal, kinds)?);
        }
    }
    Ok(count)
}

// How many rows the tables have.
fn count_all(
    alloc: Global,
    store: &mut UntoldStore,
    tables: &[TableSnap<UntoldSeal>],
) -> Result<usize, ScanFault> {
    let mut count = 0usize;
    for table in tables {
        let Ok(kinds) = kinds_of(alloc, table.def().columns().as_slice()) else {
            return Err(ScanFault::NoMemory);
        };
        for lane in table.lanes() {
            count = count.saturating_add(count_in(alloc, store, lane, &kinds)?);
        }
    }
    Ok(count)
}

const ALL: [u8; 16] = [0, 1, 2, 3, 4, 5, 6, 7, 8, 9, 10, 11, 12, 13, 14, 15];

// Reads all rows once, and tells whether they came to something.
fn read(
    alloc: Global,
    store: &mut UntoldStore,
    tables: &[TableSnap<UntoldSeal>],
    way: Way,
) -> Result<bool, Fail> {
    match way {
        Way::Blocks => Ok(count_all(alloc, store, tables)? > 0),
        Way::Slice(work) => {
            let mut host = SureHost::new();
            match run_only(alloc, store, &mut host, tables, work, &ALL)? {
                Some(SliceEnd::Rows(rows)) => Ok(!rows.is_empty()),
                _ => Ok(false),
            }
        }
    }
}

fn time_of(rt: HostRuntime, way: Way, size: Size, rounds: u32) -> Result<Option<Duration>, Fail> {
    let alloc = rt.alloc();
    let Filled { store, seen } = fill_table(alloc, size, Reads::Written)?;
    let mut store = store;
    let start = rt.process_cpu_time()?;
    for _ in 0..rounds {
        if !read(alloc, &mut store, seen.tables(), way)? {
            return Ok(None);
        }
    }
    Ok(rt.process_cpu_time()?.checked_sub(start))
}

// The way, the size of the table and how often it is read, as the words say.
fn asked(words: &[String]) -> Option<(Way, Size, u32)> {
    let [way, rows, at_once, rounds] = words else {
        return None;
    };
    let way = way_named(way)?;
    let size = Size {
        has_numbers: matches!(way, Way::Slice(_)),
        rows: rows.parse().ok()?,
        at_once: at_once.parse().ok()?,
    };
    Some((way, size, rounds.parse().ok()?))
}

/// Times what the words ask for.
pub(crate) fn run(rt: HostRuntime, words: &[String]) -> Result<(), Fail> {
    let Some((way, size, rounds)) = asked(words) else {
        eprintln!(rt; "usage: hq_slicetests blocks|filter|few|group ROWS AT_ONCE ROUNDS")?;
        return Ok(());
    };
    match time_of(rt, way, size, rounds)? {
        Some(took) => {
            let rows = u64::from(size.rows).saturating_mul(u64::from(rounds));
            println!(rt; "{rows} rows in {} microseconds", took.as_micros())?;
        }
        None => eprintln!(rt; "no rows came")?,
    }
    Ok(())
}
