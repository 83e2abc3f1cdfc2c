//! Sessions that take turns, each in a thread.
ghost use Rattle.std.specs.Prelude.{◌≡◌, ◌<◌, ◌≤◌, ◌+◌, [], map, vec_len, IfSome, IsTrue, All};
ghost use Rattle.hq_history.specs.History.{AllBelow};
ghost use Rattle.hq_histlock.specs.Passes.{view, IsPassOf, IsFirstOf};
ghost use Rattle.hq_locktests.specs.Home.{IsHome};
ghost use Rattle.hq_locktests.specs.Ledgers.{bare};

use crate::ledger::Ledger;
use hq_histlock::{HistLock, Logged, Pass};
use hq_value::Entry;
use std::alloc::Global;
use std::sync::Wait;
use std::thread;
use std::thread::Threads;
use std::time::{Clock, Duration, Instant};

/// A session, how many turns it takes, and how often it missed its last entry where it had left it.
#[derive(Drop)]
pub struct Session {
    pub pass: Pass,
    pub turns: u32,
    pub misses: u32,
}

/// The log at the end, what all sessions missed, and the time that they took, where the clock tells it.
#[derive(Drop)]
pub struct Served {
    pub ledger: Ledger,
    pub misses: u32,
    pub took: Option<Duration>,
}

/// How long the history was after a turn, and 1 where the session missed its last entry.
#[derive(Clone, Copy, Debug)]
pub struct Turn {
    pub length: usize,
    pub misses: u32,
}

// Whether the history is as long as the session left it, and its last entry there is the session's.
fn stays(log: &[Entry], length: usize, session: u32, statement: u32) -> bool {
    if length == 0 {
        return true;
    }
    match log.get(length - 1) {
        Some(entry) => entry.session == session && entry.statement == statement,
        None => false,
    }
}

/// One turn, which leaves one entry. The session's last one made the history so long, 0 for none.
pub fn take_turn<R: Wait>(
    rt: &R,
    lock: &HistLock<Ledger>,
    pass: &mut Pass,
    length: usize,
    statement: u32,
) -> Turn
    requires { IsPassOf lock.now pass.old }
    ensures pass { IsPassOf lock.now pass.new }
    ensures chief { (view pass.new).chief ≡ (view pass.old).chief }
    ensures ended { (view pass.new).ended ≡ (view pass.old).ended }
    ensures numbers { ((view pass.new).first ≡ (view pass.old).first) × ((view pass.new).next ≡ (view pass.old).next) }
{
    let mut held = lock.enter(rt, pass);
    let stays = stays(
        held.value.entries(),
        length,
        pass.number,
        statement.saturating_sub(1),
    );
    held.value.note(pass.number, statement);
    let length = held.value.entries().len();
    lock.leave(pass, held);
    Turn {
        length,
        misses: u32::from(!stays),
    }
}

impl Session {
    ghost use Rattle.hq_histlock.specs.Passes.{IsPassOf};

    fn serve<R: Wait>(&mut self, rt: &R, lock: &HistLock<Ledger>)
        requires { IsPassOf lock.now self.old.pass }
        ensures { IsPassOf lock.now self.new.pass }
    {
        let mut length = 0;
        for turn in 0..self.turns {
            let taken = take_turn(rt, lock, &mut self.pass, length, turn + 1);
            length = taken.length;
            self.misses = self.misses.saturating_add(taken.misses);
        }
    }
}

// One session more. False where there is no memory or no number left.
fn make_one(
    lock: &HistLock<Ledger>,
    first: &mut Pass,
    sessions: &mut Vec<Session>,
    turns: u32,
) -> bool
    requires home { IsHome lock.now first.old (vec_len sessions.old) }
    requires all { All (λ session. IsPassOf lock.now session.pass) sessions.old.items }
    ensures home { IsHome lock.now first.new (vec_len sessions.new) }
    ensures all { All (λ session. IsPassOf lock.now session.pass) sessions.new.items }
{
    if first.made == u32::MAX {
        return false;
    }
    if sessions.reserve(1).is_err() {
        return false;
    }
    let pass = lock.split(first);
    sessions.push_reserved(Session {
        pass,
        turns,
        misses: 0,
    });
    true
}

// So many sessions, or none.
fn make_all(
    alloc: Global,
    lock: &HistLock<Ledger>,
    first: &mut Pass,
    count: u32,
    turns: u32,
) -> Option<Vec<Session>>
    requires { IsHome lock.now first.old 0 }
    ensures home { IfSome result (λ sessions. IsHome lock.now first.new (vec_len sessions)) }
    ensures all { IfSome result (λ sessions. All (λ session. IsPassOf lock.now session.pass) sessions.items) }
{
    let mut sessions = Vec::new(alloc);
    for _ in 0..count {
        if !make_one(lock, first, &mut sessions, turns) {
            return None;
        }
    }
    Some(sessions)
}

// All sessions at once.
fn serve_all<R: Threads + Wait + Sync>(rt: &R, lock: &HistLock<Ledger>, sessions: &mut Vec<Session>)
    requires { All (λ session. IsPassOf lock.now session.pass) sessions.old.items }
    ensures all { All (λ session. IsPassOf lock.now session.pass) sessions.new.items }
    ensures count { vec_len sessions.new ≡ vec_len sessions.old }
{
    thread::for_each_mut(
        rt,
        sessions.as_mut_slice(),
        64,
        &|_, session: &mut Session| session.serve(rt, lock),
    );
}

// Takes the last session's pass back, and tells what it missed.
fn take_one(lock: &HistLock<Ledger>, first: &mut Pass, sessions: &mut Vec<Session>) -> u32
    requires home { IsHome lock.now first.old (vec_len sessions.old) }
    requires all { All (λ session. IsPassOf lock.now session.pass) sessions.old.items }
    requires some { 0 < vec_len sessions.old }
    ensures home { IsHome lock.now first.new (vec_len sessions.new) }
    ensures all { All (λ session. IsPassOf lock.now session.pass) sessions.new.items }
    ensures left { vec_len sessions.new + 1 ≡ vec_len sessions.old }
{
    let Some(session) = sessions.pop() else {
        unreachable!()
    };
    let Session {
        pass,
        turns: _,
        misses,
    } = session;
    lock.join(first, pass);
    misses
}

// Takes all back, the last one first, and tells what they missed.
fn take_all(lock: &HistLock<Ledger>, first: &mut Pass, mut sessions: Vec<Session>) -> u32
    requires home { IsHome lock.now first.old (vec_len sessions) }
    requires all { All (λ session. IsPassOf lock.now session.pass) sessions.items }
    ensures { IsHome lock.now first.new 0 }
{
    let mut misses: u32 = 0;
    for _ in 0..sessions.len() {
        misses = misses.saturating_add(take_one(lock, first, &mut sessions));
    }
    misses
}

fn since(clock: &impl Clock, start: Option<Instant>) -> Option<Duration> {
    match start {
        Some(start) => start.elapsed(clock).ok(),
        None => None,
    }
}

/// The log after so many sessions with so many turns each, all at once. Their numbers begin with `first`.
pub fn serve<R: Threads + Wait + Clock + Sync>(
    rt: &R,
    alloc: Global,
    ledger: Ledger,
    first: u32,
    count: u32,
    turns: u32,
) -> Option<Served>
    requires some { 0 < first }
    requires above { AllBelow first (map bare ledger) }
{
    let (lock, mut pass) = HistLock::open(alloc, ledger, first).ok()?;
    let mut sessions = make_all(alloc, &lock, &mut pass, count, turns)?;
    let start = Instant::now(rt).ok();
    serve_all(rt, &lock, &mut sessions);
    let took = since(rt, start);
    let misses = take_all(&lock, &mut pass, sessions);
    let ledger = lock.close(pass);
    Some(Served {
        ledger,
        misses,
        took,
    })
}
