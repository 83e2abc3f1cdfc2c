//! The times of answers.

use crate::asks::Turn;
use crate::turns::Said;
use crate::world::{Work, World, name_of, table_of};
use hq_snap::{Have, Scope};
use std::alloc::Global;
use std::time::{Clock, CpuClock, Duration, Instant};

/// How many answers there were, and how many nanoseconds they took by the clock and of the processor.
#[derive(Clone, Copy)]
pub(crate) struct Took {
    pub(crate) answers: u64,
    pub(crate) clock: u128,
    pub(crate) processor: u128,
}

/// The same of each kind.
#[derive(Clone, Copy)]
pub(crate) struct Times {
    pub(crate) looks: Took,
    pub(crate) lanes: Took,
    pub(crate) commits: Took,
}

// When answers began.
#[derive(Clone, Copy)]
struct Began {
    clock: Instant,
    processor: Duration,
}

// Sessions 1 to 64, one for each lane of a table.
const SESSIONS: u32 = 64;

impl Took {
    const NOTHING: Took = Took {
        answers: 0,
        clock: 0,
        processor: 0,
    };

    // The same and so many answers since.
    fn and<R: Clock + CpuClock>(self, rt: &R, began: Began, answers: u32) -> Option<Took> {
        let clock = began.clock.elapsed(rt).ok()?;
        let processor = rt.process_cpu_time().ok()?.checked_sub(began.processor)?;
        Some(Took {
            answers: self.answers.saturating_add(u64::from(answers)),
            clock: self.clock.saturating_add(clock.as_nanos()),
            processor: self.processor.saturating_add(processor.as_nanos()),
        })
    }
}

fn begin<R: Clock + CpuClock>(rt: &R) -> Option<Began> {
    let processor = rt.process_cpu_time().ok()?;
    let clock = Instant::now(rt).ok()?;
    Some(Began { clock, processor })
}

// One session looks at what changed since its last look, whose place is noted.
fn look(world: &mut World, session: u32, last: &mut Option<u64>) -> Option<()> {
    let have = match *last {
        None => None,
        Some(at) => Some(Have { table: 0, at }),
    };
    let scope = Scope::All;
    match world.turn(session, Turn::Look { scope, have }) {
        Said::Seen { at, .. } => {
            *last = Some(at);
            Some(())
        }
        _ => None,
    }
}

fn look_all(world: &mut World, places: &mut [Option<u64>]) -> Option<()> {
    let mut session = 0u32;
    for place in 0..places.len() {
        session = session.saturating_add(1);
        look(world, session, &mut places[place])?;
    }
    Some(())
}

fn lend_all(world: &mut World) -> Option<()> {
    for session in 1..=SESSIONS {
        match world.turn(session, Turn::Lend(0)) {
            Said::Clean(_) | Said::Fresh(_) => {}
            _ => return None,
        }
    }
    Some(())
}

// Each session writes a row and seals its lane.
fn write_all(world: &mut World) {
    for session in 1..=SESSIONS {
        let bucket = (session % 16) as u8;
        world.work(session, Work::Write { bucket, rows: 1 });
        world.work(session, Work::Seal);
    }
}

fn commit_all(world: &mut World) -> Option<()> {
    for session in 1..=SESSIONS {
        match world.turn(session, Turn::Commit) {
            Said::Done => {}
            _ => return None,
        }
    }
    Some(())
}

// A look, a lane and a commit of each session, in which just the answers are timed.
fn round<R: Clock + CpuClock>(
    rt: &R,
    world: &mut World,
    places: &mut [Option<u64>],
    times: Times,
) -> Option<Times> {
    let began = begin(rt)?;
    look_all(world, places)?;
    let looks = times.looks.and(rt, began, SESSIONS)?;
    let began = begin(rt)?;
    lend_all(world)?;
    let lanes = times.lanes.and(rt, began, SESSIONS)?;
    write_all(world);
    let began = begin(rt)?;
    commit_all(world)?;
    let commits = times.commits.and(rt, began, SESSIONS)?;
    Some(Times {
        looks,
        lanes,
        commits,
    })
}

fn time_rounds<R: Clock + CpuClock>(
    rt: &R,
    alloc: Global,
    world: &mut World,
    rounds: u64,
) -> Option<Times> {
    let table = table_of(alloc, name_of(alloc, "t").ok()??).ok()?;
    let _ = world.turn(1, Turn::Create(table));
    let mut places = vec![in alloc; None; SESSIONS as usize].ok()?;
    let mut times = Times {
        looks: Took::NOTHING,
        lanes: Took::NOTHING,
        commits: Took::NOTHING,
    };
    for _ in 0..rounds {
        times = round(rt, world, &mut places, times)?;
    }
    Some(times)
}

/// The times of so many rounds, in each of which each of 64 sessions looks, takes one of the 64 lanes of a table, writes
/// a row outside of the clock, and commits. None where there is no memory or the clock fails.
pub(crate) fn answers<R: Clock + CpuClock>(rt: &R, alloc: Global, rounds: u64) -> Option<Times> {
    let mut world = World::new(alloc, 1).ok()?;
    let times = time_rounds(rt, alloc, &mut world, rounds);
    world.end();
    times
}
