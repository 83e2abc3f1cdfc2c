//! The cases of queries.
ghost use Rattle.std.specs.Prelude.{◌<◌, ◌≤◌};

use crate::benches::{Carries, TestBenches, Wrong, benches_with, list_hosts};
use crate::hosts::meeting_hosts;
use crate::plans::Work;
use crate::queries::ask;
use crate::tables::{Pair, two_tables};
use hq_cases as cases;
use hq_detect::Host;
use hq_dispatch::QueryEnd;
use hq_link::Link;
use hq_snap::SnapCache;
use hq_store::Store;
use hq_untold::{Reads, UntoldSeal};
use hq_value::{Marks, Row, Value};
use std::alloc::Global;
use std::test::Fail;
use std::thread::Threads;

// The most reads of a store that are made to fail in turn.
const MOST_READS: u64 = 100;

// What the cases so far say: the rows of the tables, how many nodes there are, which of them are down, and what goes wrong.
#[derive(Drop)]
struct Case {
    alloc: Global,
    first: Vec<Pair>,
    second: Vec<Pair>,
    nodes: u8,
    down: Vec<u64>,
    wrong: Wrong,
}

// A number of nodes.
fn nodes_of(number: usize) -> u8
    ensures some { 0 < result }
    ensures few { result ≤ 16 }
{
    number.clamp(1, 16) as u8
}

// `KEY:NUMBER` for each row.
fn pairs_of(alloc: Global, text: &str) -> Result<Vec<Pair>, Fail> {
    let mut pairs = Vec::new(alloc);
    for word in text.split_whitespace() {
        let (key, number) = word.split_once(':').unwrap_or((word, ""));
        pairs.push(Pair {
            key: small(key),
            number: small(number),
        })?;
    }
    Ok(pairs)
}

fn small(text: &str) -> i64 {
    (cases::number(text) % 1_000_000) as i64
}

fn byte(number: usize) -> u8 {
    (number % 256) as u8
}

fn work_named(word: &str) -> Option<Work> {
    match word {
        "all" => Some(Work::All),
        "group" => Some(Work::Group),
        "join" => Some(Work::Join),
        _ => None,
    }
}

fn show_row(line: &mut String, row: &Row) -> Result<(), Fail> {
    let mut lead = "(";
    for value in row.as_slice() {
        line.push_str(lead)?;
        match value {
            Value::Int(number) => write!(line, "{number}")?,
            _ => line.push_str("no number")?,
        }
        lead = " ";
    }
    line.push_str(")")?;
    Ok(())
}

fn show_rows(line: &mut String, rows: &[Row]) -> Result<(), Fail> {
    for row in rows {
        line.push_str(" ")?;
        show_row(line, row)?;
    }
    Ok(())
}

fn show_end(line: &mut String, end: &QueryEnd) -> Result<(), Fail> {
    match end {
        QueryEnd::Rows(rows) => show_rows(line, rows)?,
        QueryEnd::Numeric => line.push_str(" an evaluation faulted")?,
        QueryEnd::Store => line.push_str(" a fault of a store")?,
        QueryEnd::Host { node } => write!(line, " host {node} did not answer")?,
        QueryEnd::LinkLost { node } => write!(line, " link {node} was lost")?,
        QueryEnd::LinkFailed { node } => write!(line, " link {node} failed")?,
        QueryEnd::BadBlock { node, file, at, .. } => {
            let table = file.table;
            let bucket = file.bucket;
            write!(
                line,
                " node {node} found no block at {at} of bucket {bucket} of table {table}"
            )?;
        }
        QueryEnd::NoMemory => line.push_str(" no memory")?,
    }
    Ok(())
}

fn show_asked(line: &mut String, end: &Option<QueryEnd>) -> Result<(), Fail> {
    match end {
        Some(end) => show_end(line, end)?,
        None => line.push_str(" no query")?,
    }
    Ok(())
}

// How many troubles a link met. From 32 on it may be lost, and no rule says how many more come to it before.
fn show_troubles(line: &mut String, troubles: u64) -> Result<(), Fail> {
    if troubles < 32 {
        write!(line, " {troubles}")?;
    } else {
        line.push_str(" many")?;
    }
    Ok(())
}

// What each node counted.
fn show_counts<H: Host>(rt: HostRuntime, benches: &TestBenches<H>) -> Result<(), Fail> {
    let mut read = String::new(rt.alloc());
    let mut checks = String::new(rt.alloc());
    let mut troubles = String::new(rt.alloc());
    for bench in benches {
        write!(read, " {}", bench.store.given())?;
        write!(checks, " {}", bench.host.checks())?;
        show_troubles(&mut troubles, bench.link.troubles())?;
    }
    println!(rt; "    bytes read{read}, checks{checks}, troubles{troubles}")?;
    Ok(())
}

// Whether the end is that the host of a node did not answer; then the node is marked down.
fn mark_down(marks: &mut Marks, end: &Option<QueryEnd>) {
    if let Some(QueryEnd::Host { node }) = end {
        if *node < marks.nodes() {
            marks.set(*node, false);
        }
    }
}

impl Case {
    fn tables(&self) -> Result<SnapCache<UntoldSeal>, Fail> {
        two_tables(self.alloc, &self.first, &self.second)
    }

    fn marks(&self) -> Marks {
        let mut marks = Marks::all_up(nodes_of(self.nodes as usize));
        for node in &self.down {
            if *node < u64::from(marks.nodes()) {
                marks.set(*node as u8, false);
            }
        }
        marks
    }

    // Runs a query over new benches.
    fn run<R: Threads + Sync>(&self, rt: HostRuntime, tasks: &R, work: Work) -> Result<(), Fail> {
        let alloc = self.alloc;
        let seen = self.tables()?;
        let marks = self.marks();
        let hosts = list_hosts(alloc, marks.nodes(), self.wrong)?;
        let mut benches = benches_with(alloc, hosts, self.wrong)?;
        let mut line = String::new(alloc);
        let end = ask(tasks, alloc, &mut benches, seen.tables(), work, &marks, 1)?;
        show_asked(&mut line, &end)?;
        println!(rt; " {line}")?;
        show_counts(rt, &benches)
    }

    // Runs a query, marks the node down whose host did not answer, and runs it again over the same benches.
    fn run_twice<R: Threads + Sync>(
        &self,
        rt: HostRuntime,
        tasks: &R,
        work: Work,
    ) -> Result<(), Fail> {
        let alloc = self.alloc;
        let seen = self.tables()?;
        let mut marks = self.marks();
        let hosts = list_hosts(alloc, marks.nodes(), self.wrong)?;
        let mut benches = benches_with(alloc, hosts, self.wrong)?;
        let mut line = String::new(alloc);
        let end = ask(tasks, alloc, &mut benches, seen.tables(), work, &marks, 1)?;
        show_asked(&mut line, &end)?;
        mark_down(&mut marks, &end);
        line.push_str(", then")?;
        let end = ask(tasks, alloc, &mut benches, seen.tables(), work, &marks, 2)?;
        show_asked(&mut line, &end)?;
        println!(rt; " {line}")?;
        show_counts(rt, &benches)
    }

    // Runs a query over hosts whose first checks wait for each other.
    fn meet<R: Threads + Sync>(&self, rt: HostRuntime, tasks: &R, work: Work) -> Result<(), Fail> {
        let alloc = self.alloc;
        let seen = self.tables()?;
        let marks = self.marks();
        let hosts = meeting_hosts(alloc, marks.nodes())?;
        let mut benches = benches_with(alloc, hosts, self.wrong)?;
        let mut line = String::new(alloc);
        let end = ask(tasks, alloc, &mut benches, seen.tables(), work, &marks, 1)?;
        show_asked(&mut line, &end)?;
        println!(rt; " {line}")?;
        show_counts(rt, &benches)
    }

    // Runs a query with one read of a node's store failing, and tells whether the store failed.
    fn fails_at<R: Threads + Sync>(
        &self,
        rt: HostRuntime,
        tasks: &R,
        work: Work,
        wrong: Wrong,
    ) -> Result<bool, Fail> {
        let alloc = self.alloc;
        let seen = self.tables()?;
        let marks = self.marks();
        let hosts = list_hosts(alloc, marks.nodes(), wrong)?;
        let mut benches = benches_with(alloc, hosts, wrong)?;
        let mut line = String::new(alloc);
        let end = ask(tasks, alloc, &mut benches, seen.tables(), work, &marks, 1)?;
        show_asked(&mut line, &end)?;
        let mut faults = 0u64;
        for bench in &benches {
            faults = faults.saturating_add(bench.store.faults());
        }
        println!(rt; "  read {}:{line}, {faults} faults", wrong.read)?;
        Ok(faults > 0)
    }

    // Runs a query with each read of a node's store failing in turn, until none fails.
    fn fail_each<R: Threads + Sync>(
        &self,
        rt: HostRuntime,
        tasks: &R,
        work: Work,
        node: u8,
    ) -> Result<(), Fail> {
        for read in 1..MOST_READS {
            let mut wrong = self.wrong;
            wrong.store_node = node;
            wrong.read = read;
            if !self.fails_at(rt, tasks, work, wrong)? {
                return Ok(());
            }
        }
        Ok(())
    }

    // A line that says what goes wrong, or none.
    fn goes_wrong(&mut self, word: &str, node: u8, rest: &str) -> bool {
        let (number, copies) = cases::counted(rest);
        match word {
            "host" => {
                self.wrong.host_node = node;
                self.wrong.check = number as u64;
            }
            "store" => {
                self.wrong.store_node = node;
                self.wrong.read = number as u64;
            }
            "loses" => {
                self.wrong.link_node = node;
                self.wrong.carries = Carries::Loses {
                    seq: number as u64,
                    copies: (cases::number(copies) % 1_000_000) as u32,
                };
            }
            "fails" => {
                self.wrong.link_node = node;
                self.wrong.carries = Carries::FailsToSend;
            }
            _ => return false,
        }
        true
    }

    // A line that says what the case is, or none.
    fn says(&mut self, word: &str, rest: &str) -> Result<bool, Fail> {
        let (number, others) = cases::counted(rest);
        match word {
            "u" => self.first = pairs_of(self.alloc, rest)?,
            "v" => self.second = pairs_of(self.alloc, rest)?,
            "nodes" => {
                self.nodes = nodes_of(number);
                self.down = Vec::new(self.alloc);
                self.wrong = Wrong::NOTHING;
            }
            "down" => self.down = cases::numbers(self.alloc, rest)?,
            "zeros" => self.wrong.reads = Reads::Zeros,
            _ => return Ok(self.goes_wrong(word, byte(number), others)),
        }
        Ok(true)
    }

    // A line that runs a query, or none.
    fn runs<R: Threads + Sync>(
        &self,
        rt: HostRuntime,
        tasks: &R,
        word: &str,
        rest: &str,
    ) -> Result<bool, Fail> {
        let (named, node) = cases::line_of(rest).unwrap_or(("", ""));
        let Some(work) = work_named(named) else {
            return Ok(false);
        };
        match word {
            "run" => self.run(rt, tasks, work)?,
            "twice" => self.run_twice(rt, tasks, work)?,
            "meet" => self.meet(rt, tasks, work)?,
            "each" => self.fail_each(rt, tasks, work, byte(cases::number(node)))?,
            _ => return Ok(false),
        }
        Ok(true)
    }
}

/// Shows the cases of `queries.txt`.
pub(crate) fn run<R: Threads + Sync>(rt: HostRuntime, tasks: &R) -> Result<(), Fail> {
    let alloc = rt.alloc();
    let text = cases::text_of(rt, "queries.txt")?;
    let mut case = Case {
        alloc,
        first: Vec::new(alloc),
        second: Vec::new(alloc),
        nodes: 1,
        down: Vec::new(alloc),
        wrong: Wrong::NOTHING,
    };
    for line in text.as_str().lines() {
        if let Some((word, rest)) = cases::line_of(line) {
            if !case.says(word, rest)? && !case.runs(rt, tasks, word, rest)? {
                println!(rt; "{word} {rest}")?;
            }
        }
    }
    Ok(())
}
