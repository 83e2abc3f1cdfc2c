//! Plans in bytes, and bytes that are no plan.

use crate::show::show_plan;
use hq_cases as cases;
use hq_planwire::{PlanFault, decode_plan, encode_plan};
use std::alloc::Global;
use std::test::Fail;

#[derive(Drop)]
struct Case {
    alloc: Global,
    bytes: Vec<u8>,
}

// What bytes are. A plan is written in the very bytes that it was read from.
fn what_is(alloc: Global, bytes: &[u8]) -> Result<&'static str, Fail> {
    match decode_plan(alloc, bytes) {
        Ok(plan) => {
            let again = encode_plan(alloc, &plan)?;
            Ok(if again.as_slice() == bytes {
                "a plan"
            } else {
                "a plan in other bytes"
            })
        }
        Err(PlanFault::NotAPlan) => Ok("no plan"),
        Err(PlanFault::NoMemory) => Ok("no memory"),
    }
}

// The bytes with another one at a place.
fn changed(alloc: Global, bytes: &[u8], place: usize, byte: u8) -> Result<Vec<u8>, Fail> {
    let mut copy = bytes.to_vec(alloc)?;
    if let Some(at) = copy.get_mut(place) {
        *at = byte;
    }
    Ok(copy)
}

impl Case {
    fn show(&self, rt: HostRuntime) -> Result<(), Fail> {
        match decode_plan(self.alloc, &self.bytes) {
            Ok(plan) => show_plan(rt, &plan)?,
            Err(PlanFault::NotAPlan) => println!(rt; "  no plan")?,
            Err(PlanFault::NoMemory) => println!(rt; "  no memory")?,
        }
        Ok(())
    }

    // The bytes, cut at every length.
    fn cuts(&self, rt: HostRuntime) -> Result<(), Fail> {
        let mut plans: u64 = 0;
        let mut others: u64 = 0;
        for length in 0..self.bytes.len() {
            match what_is(self.alloc, &self.bytes[..length])? {
                "a plan" => plans = plans.saturating_add(1),
                "no plan" => others = others.saturating_add(1),
                what => println!(rt; "  {length} bytes: {what}")?,
            }
        }
        println!(rt; "  {plans} plans, {others} no plan")?;
        Ok(())
    }

    // The bytes with each of them changed to each other one.
    fn changes(&self, rt: HostRuntime) -> Result<(), Fail> {
        let mut plans: u64 = 0;
        let mut others: u64 = 0;
        for (place, was) in self.bytes.iter().enumerate() {
            for byte in 0..256u16 {
                let byte = byte as u8;
                if byte == *was {
                    continue;
                }
                let bytes = changed(self.alloc, &self.bytes, place, byte)?;
                match what_is(self.alloc, &bytes)? {
                    "a plan" => plans = plans.saturating_add(1),
                    "no plan" => others = others.saturating_add(1),
                    what => println!(rt; "  {place} to {byte}: {what}")?,
                }
            }
        }
        println!(rt; "  {plans} plans, {others} no plan")?;
        Ok(())
    }

    fn line(&mut self, rt: HostRuntime, word: &str, rest: &str) -> Result<(), Fail> {
        match word {
            "bytes" => cases::add(&mut self.bytes, rest)?,
            "many" => cases::add_many(&mut self.bytes, rest)?,
            "show" => self.show(rt)?,
            "is" => {
                let what = what_is(self.alloc, &self.bytes)?;
                println!(rt; "  {what}")?;
            }
            "cuts" => self.cuts(rt)?,
            "changes" => self.changes(rt)?,
            _ => {
                println!(rt; "{word} {rest}")?;
                self.bytes.clear();
            }
        }
        Ok(())
    }
}

/// Shows the cases of `plan_bytes.txt`.
pub fn run(rt: HostRuntime) -> Result<(), Fail> {
    let alloc = rt.alloc();
    let text = cases::text_of(rt, "plan_bytes.txt")?;
    let mut case = Case {
        alloc,
        bytes: Vec::new(alloc),
    };
    for line in text.as_str().lines() {
        if let Some((word, rest)) = cases::line_of(line) {
            case.line(rt, word, rest)?;
        }
    }
    Ok(())
}
