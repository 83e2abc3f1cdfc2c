//! The tests: what each shows is the same whatever the schedule.
ghost use Rattle.std.specs.Prelude.{◌≡◌, ◌≤◌, ◌+◌, [], length, map};
ghost use Rattle.hq_history.specs.History.{AllBelow};
ghost use Rattle.hq_locktests.specs.Ledgers.{bare};
ghost use Rattle.hq_histlock.specs.Passes.{view, IsPassOf, IsFirstOf};

use crate::ledger::Ledger;
use crate::sessions::{serve, take_turn};
use hq_histlock::{HistLock, Logged, Pass};
use hq_shared::SharedDesk;
use hq_value::Entry;
use std::alloc::Global;
use std::io;
use std::sync::Wait;
use std::thread::Threads;
use std::time::Clock;

/// How long the history was at a look, and the log at the end.
#[derive(Drop)]
pub struct Looked {
    pub count: u64,
    pub ledger: Ledger,
}

/// Two passes with one entry each, taken back in their order, or in the other.
pub fn two_passes<R: Wait>(rt: &R, alloc: Global, backwards: bool) -> Option<Looked> {
    let (lock, mut first) = HistLock::open(alloc, Ledger::new(alloc), 1).ok()?;
    let mut one = lock.split(&mut first);
    let mut two = lock.split(&mut first);
    take_turn(rt, &lock, &mut one, 0, 1);
    take_turn(rt, &lock, &mut two, 0, 1);
    let count = lock.look(&mut first);
    if backwards {
        return Some(finish(count, lock, first, two, one));
    }
    Some(finish(count, lock, first, one, two))
}

// Takes both back, and closes the lock.
fn finish(count: u64, lock: HistLock<Ledger>, mut first: Pass, one: Pass, other: Pass) -> Looked
    requires first { IsFirstOf lock first }
    requires one { IsPassOf lock one }
    requires other { IsPassOf lock other }
    requires none { (view first).ended ≡ [] }
    requires two { (view first).next ≡ (view first).first + 2 }
{
    lock.join(&mut first, one);
    lock.join(&mut first, other);
    let ledger = lock.close(first);
    Looked { count, ledger }
}

/// One ask of each of two passes at a desk that they share: their answers, and the log at the end.
fn two_asks<R: Wait>(rt: &R, alloc: Global) -> Option<(usize, usize, Ledger)> {
    let (lock, mut first) = HistLock::open(alloc, Ledger::new(alloc), 1).ok()?;
    let mut one = lock.split(&mut first);
    let mut two = lock.split(&mut first);
    let desk = SharedDesk { lock };
    let told_one = desk.answer(rt, &mut one, 1, ());
    let told_two = desk.answer(rt, &mut two, 1, ());
    let SharedDesk { lock } = desk;
    lock.join(&mut first, one);
    lock.join(&mut first, two);
    Some((told_one, told_two, lock.close(first)))
}

/// Shows two asks at a desk.
pub fn show_desk(rt: &(impl Print + AllocGlobal + Wait)) -> io::Result<()> {
    let Some((one, two, ledger)) = two_asks(rt, rt.alloc()) else {
        return println!(rt; "a desk: no memory");
    };
    let log = ledger.entries();
    println!(rt;
        "a desk: answers {} and {}; {} entries",
        one,
        two,
        log.len()
    )
}

/// How many entries the session has.
pub fn count_of(log: &[Entry], session: u32) -> usize
    ensures { result ≤ length log.now }
{
    log.iter().filter(|entry| entry.session == session).count()
}

/// Whether the statements of the session are numbered 1, 2, 3 and so on, in the order of the log.
pub fn is_in_order(log: &[Entry], session: u32) -> bool {
    let mut next: u32 = 1;
    for entry in log {
        if entry.session == session {
            if entry.statement != next {
                return false;
            }
            next = next.saturating_add(1);
        }
    }
    true
}

/// Shows two passes with one entry each.
pub fn show_two_passes(rt: &(impl Print + AllocGlobal + Wait), backwards: bool) -> io::Result<()> {
    let Some(looked) = two_passes(rt, rt.alloc(), backwards) else {
        return println!(rt; "two passes: no memory");
    };
    let log = looked.ledger.entries();
    println!(rt;
        "two passes, backwards {}: look answers {}; {} entries, {} of session 1, {} of session 2",
        backwards,
        looked.count,
        log.len(),
        count_of(log, 1),
        count_of(log, 2)
    )
}

/// Shows four sessions at once with 10,000 entries each. In each turn a session looks for its last entry.
pub fn show_four_sessions(
    rt: &(impl Print + AllocGlobal + Threads + Wait + Clock + Sync),
) -> io::Result<()> {
    let ledger = Ledger::new(rt.alloc());
    let Some(served) = serve(rt, rt.alloc(), ledger, 1, 4, 10_000) else {
        return println!(rt; "four sessions: no memory");
    };
    let log = served.ledger.entries();
    println!(rt;
        "four sessions: {} entries, {} missed",
        log.len(),
        served.misses
    )?;
    for session in 1..5 {
        show_session(rt, log, session)?;
    }
    Ok(())
}

fn show_session(rt: &impl Print, log: &[Entry], session: u32) -> io::Result<()> {
    println!(rt;
        "session {}: {} entries, in order: {}",
        session,
        count_of(log, session),
        is_in_order(log, session)
    )
}

/// Shows a lock over a log that has an entry of session 4: the next session is number 5.
pub fn show_numbers_from(
    rt: &(impl Print + AllocGlobal + Threads + Wait + Clock + Sync),
) -> io::Result<()> {
    let ledger = ledger_of_4(rt.alloc());
    let Some(served) = serve(rt, rt.alloc(), ledger, 5, 1, 2) else {
        return println!(rt; "a log that is opened: no memory");
    };
    let log = served.ledger.entries();
    println!(rt;
        "a log that is opened: {} entries, {} of session 4, {} of session 5",
        log.len(),
        count_of(log, 4),
        count_of(log, 5)
    )
}

// A log with one entry, of session 4.
fn ledger_of_4(alloc: Global) -> Ledger
    ensures { AllBelow 5 (map bare result) }
{
    let mut ledger = Ledger::new(alloc);
    ledger.note(4, 1);
    ledger
}
