//! The times of turns.
ghost use Rattle.std.specs.Prelude.{◌≡◌, []};
ghost use Rattle.hq_histlock.specs.Passes.{IsPassOf};

use crate::ledger::Ledger;
use crate::sessions::{serve, take_turn};
use hq_histlock::{HistLock, Pass};
use std::alloc::Global;
use std::sync::Wait;
use std::thread::Threads;
use std::time::{Clock, Duration, Instant};

/// Turns whose time is taken.
#[derive(Clone, Copy, Debug)]
pub enum Times {
    /// By one session, over a history that has so many entries.
    Alone { length: u32, turns: u32 },
    /// By each of so many sessions at once.
    Together { sessions: u32, turns: u32 },
}

impl Times {
    /// What the words ask for.
    pub fn asked(words: &[String]) -> Option<Times> {
        let [kind, count, turns] = words else {
            return None;
        };
        let count: u32 = count.parse().ok()?;
        let turns: u32 = turns.parse().ok()?;
        match kind.as_str() {
            "alone" => Some(Times::Alone {
                length: count,
                turns,
            }),
            "together" => Some(Times::Together {
                sessions: count,
                turns,
            }),
            _ => None,
        }
    }

    /// How many turns are taken.
    pub fn turns(&self) -> u64 {
        match self {
            Times::Alone { length: _, turns } => u64::from(*turns),
            Times::Together { sessions, turns } => u64::from(*sessions) * u64::from(*turns),
        }
    }

    /// The time that the turns take, or None where there is no memory or the clock fails.
    pub fn run<R: Threads + Wait + Clock + Sync>(&self, rt: &R, alloc: Global) -> Option<Duration> {
        match self {
            Times::Alone { length, turns } => time_alone(rt, alloc, *length, *turns),
            Times::Together { sessions, turns } => {
                serve(rt, alloc, Ledger::new(alloc), 1, *sessions, *turns)?.took
            }
        }
    }
}

// An empty log with room for so many entries and so many more.
fn roomy(alloc: Global, length: u32, more: u32) -> Ledger
    ensures { result ≡ [] }
{
    let mut ledger = Ledger::new(alloc);
    ledger.reserve(length as usize + more as usize);
    ledger
}

// So many turns of one session.
fn time_turns<R: Wait + Clock>(
    rt: &R,
    lock: &HistLock<Ledger>,
    pass: &mut Pass,
    turns: u32,
) -> Option<Duration>
    requires { IsPassOf lock.now pass.old }
    ensures { IsPassOf lock.now pass.new }
{
    let start = Instant::now(rt).ok()?;
    for turn in 0..turns {
        take_turn(rt, lock, pass, 0, turn);
    }
    start.elapsed(rt).ok()
}

// The first turns fill the history.
fn time_alone<R: Wait + Clock>(rt: &R, alloc: Global, length: u32, turns: u32) -> Option<Duration> {
    let ledger = roomy(alloc, length, turns);
    let (lock, mut first) = HistLock::open(alloc, ledger, 1).ok()?;
    let mut pass = lock.split(&mut first);
    time_turns(rt, &lock, &mut pass, length)?;
    time_turns(rt, &lock, &mut pass, turns)
}
