//! The lanes of a table, lent and given back. Their values are numbers.

use hq_cases as cases;
use hq_pool::{Lent, Place, Pool};
use std::alloc::Global;
use std::test::Fail;

// Gives a lane back where it is out.
fn back(pool: &mut Pool<u32>, n: u8, value: u32, clean: bool) -> bool {
    match pool.place(n) {
        Some(place) if place.is_out() => {}
        _ => return false,
    }
    if clean {
        pool.back_clean(n, value);
    } else {
        pool.back_dirty(n, value);
    }
    true
}

// Takes over a lane where session `k` has swept it.
fn adopt(pool: &mut Pool<u32>, n: u8, k: u32) -> bool {
    match pool.place(n) {
        Some(Place::Sweeping(by)) if by == k => {
            pool.adopt(n, k);
            true
        }
        _ => false,
    }
}

fn lend(alloc: Global, pool: &mut Pool<u32>, k: u32) -> Result<String, Fail> {
    let text = match pool.lend(k) {
        Lent::Clean(n, value) => format!(in alloc; "clean {n} with {value}")?,
        Lent::Sweep(n, value) => format!(in alloc; "to sweep {n} with {value}")?,
        Lent::Fresh(n) => format!(in alloc; "fresh {n}")?,
        Lent::AllOut { out } => format!(in alloc; "all {out} out")?,
    };
    Ok(text)
}

fn sweep_any(alloc: Global, pool: &mut Pool<u32>, k: u32) -> Result<String, Fail> {
    let text = match pool.sweep_any(k) {
        Some((n, value)) => format!(in alloc; "to sweep {n} with {value}")?,
        None => String::from_str(alloc, "none")?,
    };
    Ok(text)
}

fn done(alloc: Global, moved: bool) -> Result<String, Fail> {
    Ok(String::from_str(alloc, if moved { "done" } else { "not done" })?)
}

// A number below 256.
fn lane(text: &str) -> u8 {
    cases::number(text).min(255) as u8
}

// What a step gives, or none where the word is of no step.
fn step(
    alloc: Global,
    pool: &mut Pool<u32>,
    word: &str,
    rest: &str,
) -> Result<Option<String>, Fail> {
    let (first, second) = cases::counted(rest);
    let n = first.min(255) as u8;
    let k = cases::number(second).min(1_000_000) as u32;
    let text = match word {
        "lend" => lend(alloc, pool, n as u32)?,
        "sweep_any" => sweep_any(alloc, pool, n as u32)?,
        "adopt" => {
            let moved = adopt(pool, n, k);
            done(alloc, moved)?
        }
        "back_clean" => {
            let moved = back(pool, n, k, true);
            done(alloc, moved)?
        }
        "back_dirty" => {
            let moved = back(pool, n, k, false);
            done(alloc, moved)?
        }
        "place" => format!(in alloc; "{:?}", pool.place(lane(rest)))?,
        _ => return Ok(None),
    };
    Ok(Some(text))
}

fn lend_many(rt: HostRuntime, pool: &mut Pool<u32>, count: usize) -> Result<(), Fail> {
    for _ in 0..count {
        let lent = lend(rt.alloc(), pool, 7)?;
        print!(rt; " {lent}")?;
    }
    println!(rt; "")?;
    Ok(())
}

/// Shows the cases of `pools.txt`: what each step gives, and which lane is lent next.
pub fn run(rt: HostRuntime) -> Result<(), Fail> {
    let alloc = rt.alloc();
    let text = cases::text_of(rt, "pools.txt")?;
    let mut pool = Pool::new(alloc)?;
    for line in text.as_str().lines() {
        match cases::line_of(line) {
            None => {}
            Some(("lend_many", rest)) => lend_many(rt, &mut pool, cases::number(rest))?,
            Some((word, rest)) => match step(alloc, &mut pool, word, rest)? {
                Some(gave) => {
                    let next = pool.next();
                    println!(rt; "  {gave}, next {next:?}")?;
                }
                None => {
                    println!(rt; "{word} {rest}")?;
                    pool = Pool::new(alloc)?;
                }
            },
        }
    }
    let slots = pool.into_slots();
    let count = slots.len();
    println!(rt; "slots {count}")?;
    Ok(())
}
