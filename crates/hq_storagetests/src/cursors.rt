//! The blocks of a file passed by a cursor, which skips those that tests exclude; own blocks of a lane.

use crate::blocks::kinds_of;
use crate::stores::ID;
use crate::values::{Values, show_row};
use hq_block::{ColumnTest, EncodeFault, encode_block};
use hq_cases as cases;
use hq_lane::{BlockCursor, Lane, LanePart, ScanFault};
use hq_snap::TableSnap;
use hq_store::{MemFile, MemSeal, Store, StoreFault};
use hq_untold::{Reads, UntoldFile, UntoldSeal, UntoldStore};
use hq_value::{BUCKETS, CompareKind, Keys, Kinds, Row, Value, all_fit, bucket_of};
use std::alloc::Global;
use std::test::Fail;

// A cursor over a file of the store that tells nothing.
type Cursor<'a> = BlockCursor<'a, UntoldFile, UntoldSeal>;

// The kinds of columns, the rows of the next block, the blocks so far, the tests, and what the store's reads give.
#[derive(Drop)]
struct Case {
    alloc: Global,
    kinds: Kinds,
    values: Values,
    rows: Vec<Row>,
    bytes: Vec<u8>,
    tests: Vec<ColumnTest>,
    reads: Reads,
}

fn compare_of(word: &str) -> CompareKind {
    match word {
        "=" => CompareKind::Equal,
        "<>" => CompareKind::NotEqual,
        "<" => CompareKind::Less,
        "<=" => CompareKind::AtMost,
        ">" => CompareKind::Greater,
        _ => CompareKind::AtLeast,
    }
}

// The test of `COLUMN COMPARE NUMBER`.
fn test_of(text: &str) -> Result<ColumnTest, Fail> {
    let (column, rest) = cases::counted(text);
    let (word, number) = match rest.split_once(' ') {
        Some(parts) => parts,
        None => (rest, "0"),
    };
    Ok(ColumnTest {
        column: (column % 65_536) as u16,
        compare: compare_of(word),
        value: Value::Int(number.parse()?),
    })
}

// What the reads give by `written`, `zeros` or `byte AT BYTE`.
fn reads_of(text: &str) -> Reads {
    match text.split_once(' ') {
        Some((_, rest)) => {
            let (at, byte) = cases::counted(rest);
            let byte = (cases::number(byte) % 256) as u8;
            Reads::ByteAt {
                at: at as u64,
                byte,
            }
        }
        None => match text {
            "zeros" => Reads::Zeros,
            _ => Reads::Written,
        },
    }
}

// A seal of a new file of these bytes.
fn sealed(store: &mut UntoldStore, bytes: &[u8]) -> Result<UntoldSeal, StoreFault> {
    let mut file = store.create(ID)?;
    store.append(&mut file, bytes)?;
    store.flush(&mut file)?;
    Ok(store.seal(&mut file))
}

// Passes all blocks, and gives how many they are.
fn pass_all(
    cursor: &mut Cursor<'_>,
    store: &mut UntoldStore,
    rows: &mut Vec<Row>,
) -> Result<usize, ScanFault> {
    for count in 0..1_000usize {
        if cursor.is_done() {
            return Ok(count);
        }
        cursor.next(store, rows)?;
    }
    Ok(1_000)
}

// The block of these rows, where they have one.
fn block_of(alloc: Global, kinds: &Kinds, rows: &[Row]) -> Result<Vec<u8>, EncodeFault> {
    if kinds.is_empty() || kinds.len() > 64 || rows.is_empty() {
        return Ok(Vec::new(alloc));
    }
    if !all_fit(kinds, rows) {
        return Ok(Vec::new(alloc));
    }
    encode_block(alloc, kinds, rows)
}

// The bucket of a value as the only key of its row.
fn bucket_of_value(alloc: Global, value: &Value) -> Result<usize, Fail> {
    let mut keys = Keys::new(alloc);
    keys.push(0)?;
    let bucket = bucket_of(&Row::one(alloc, value.copy()?), &keys);
    Ok(bucket as usize)
}

// Those of the rows that go to a bucket by their first column.
fn share_of(alloc: Global, rows: &[Row], bucket: usize) -> Result<Vec<Row>, Fail> {
    let mut share = Vec::new(alloc);
    for row in rows {
        if let Some(value) = row.as_slice().get(0) {
            if bucket_of_value(alloc, value)? == bucket {
                share.push(row.copy(alloc)?)?;
            }
        }
    }
    Ok(share)
}

impl Case {
    // Adds a block of the rows, or one for each bucket.
    fn add_blocks(&mut self, by_bucket: bool) -> Result<(), Fail> {
        if !by_bucket {
            let block = block_of(self.alloc, &self.kinds, &self.rows)?;
            self.bytes.extend_from_slice(&block)?;
        } else {
            for bucket in 0..BUCKETS {
                let share = share_of(self.alloc, &self.rows, bucket)?;
                let block = block_of(self.alloc, &self.kinds, &share)?;
                self.bytes.extend_from_slice(&block)?;
            }
        }
        self.rows.clear();
        Ok(())
    }

    // Adds the numbers from the first up to the last, each in a row.
    fn add_range(&mut self, text: &str) -> Result<(), Fail> {
        let (first, last) = cases::counted(text);
        for number in first..cases::number(last).saturating_add(1) {
            let number = (number % 1_000_000) as i64;
            self.rows.push(Row::one(self.alloc, Value::Int(number)))?;
        }
        Ok(())
    }

    // The rows that a cursor over a file of the blocks gives, and how many bytes were read for them.
    fn scan(&self, rt: HostRuntime) -> Result<(), Fail> {
        let mut store = UntoldStore::new(self.alloc, self.reads);
        let seal = sealed(&mut store, &self.bytes)?;
        let mut cursor = BlockCursor::under_seal(self.alloc, &seal, &self.kinds, &self.tests);
        let mut rows = Vec::new(self.alloc);
        let end = pass_all(&mut cursor, &mut store, &mut rows);
        let mut line = String::new(self.alloc);
        for row in &rows {
            show_row(&mut line, row)?;
        }
        println!(rt;
            "  {} rows, {} bytes given:{line}",
            rows.len(),
            store.given()
        )?;
        match end {
            Ok(count) => println!(rt; "  {count} blocks")?,
            Err(ScanFault::Store) => println!(rt; "  a fault of the store")?,
            Err(ScanFault::BadBlock { at, bytes }) => {
                println!(rt; "  no block at {at}, {} bytes read of it", bytes.len())?;
            }
            Err(ScanFault::NoMemory) => println!(rt; "  no memory")?,
        }
        Ok(())
    }

    fn line(&mut self, rt: HostRuntime, word: &str, rest: &str) -> Result<(), Fail> {
        if self.values.line(word, rest)? {
            return Ok(());
        }
        match word {
            "kinds" => self.kinds = kinds_of(self.alloc, rest)?,
            "row" => {
                let row = self.values.row()?;
                self.rows.push(row)?;
            }
            "range" => self.add_range(rest)?,
            "block" => self.add_blocks(false)?,
            "buckets" => self.add_blocks(true)?,
            "more" => cases::add(&mut self.bytes, rest)?,
            "test" => {
                let test = test_of(rest)?;
                self.tests.push(test)?;
            }
            "untested" => self.tests.clear(),
            "reads" => self.reads = reads_of(rest),
            "scan" => self.scan(rt)?,
            _ => {
                println!(rt; "{word} {rest}")?;
                self.rows.clear();
                self.bytes.clear();
                self.tests.clear();
                self.reads = Reads::Written;
            }
        }
        Ok(())
    }
}

fn go_between_tasks<T: Send>() {}

fn are_shared_by_tasks<T: Sync>() {}

// Lanes and snapshots are shared by tasks, and rows and the parts of lanes go to them. A fresh lane has no own block.
fn lanes_and_tasks(rt: HostRuntime) -> Result<(), Fail> {
    are_shared_by_tasks::<Row>();
    go_between_tasks::<Row>();
    are_shared_by_tasks::<Lane<MemFile, MemSeal>>();
    are_shared_by_tasks::<TableSnap<MemSeal>>();
    go_between_tasks::<LanePart<MemFile, MemSeal>>();
    let alloc = rt.alloc();
    let kinds = Kinds::new(alloc);
    let lane: Lane<UntoldFile, UntoldSeal> = Lane::fresh(alloc, 5, 0)?;
    let done = lane.own_blocks(alloc, 3, &kinds, &[]).is_done();
    lane.abandon();
    println!(rt; "a fresh lane has no own block")?;
    println!(rt; "  {done}")?;
    Ok(())
}

/// Shows the cases of `cursors.txt`.
pub fn run(rt: HostRuntime) -> Result<(), Fail> {
    let alloc = rt.alloc();
    let text = cases::text_of(rt, "cursors.txt")?;
    let mut case = Case {
        alloc,
        kinds: Kinds::new(alloc),
        values: Values::new(alloc),
        rows: Vec::new(alloc),
        bytes: Vec::new(alloc),
        tests: Vec::new(alloc),
        reads: Reads::Written,
    };
    for line in text.as_str().lines() {
        if let Some((word, rest)) = cases::line_of(line) {
            case.line(rt, word, rest)?;
        }
    }
    lanes_and_tasks(rt)
}
