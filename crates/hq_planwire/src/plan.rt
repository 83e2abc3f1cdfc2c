//! Plans read.
ghost use Rattle.std.specs.Prelude.{◌≡◌, Err, IfOk, OnOk};
ghost use Rattle.hq_algebra.specs.declared.plan.Plan.{Plan as ThePlan};
ghost use Rattle.hq_planwire.specs.Reading as spec;
ghost use Rattle.hq_planwire.specs.Reading.{Gives};
ghost use Rattle.hq_planwire.specs.Wire.{IsPlan};

use crate::PlanFault;
use crate::fields::byte_at;
use crate::lists::{Member, items_at, list_at};
use crate::ops::op_at;
use crate::rules::is_well_formed;
use hq_algebra::{Motion, Plan, Slice};
use std::alloc::Global;

/// How deep 64 operators may be nested.
const DEPTH: u16 = 64;

/// The plan that the bytes spell. NotAPlan comes exactly where they spell none that is well formed. What the bytes
/// claim takes no memory before it is read. The call is nested at most 2,101 deep.
pub fn decode_plan(alloc: Global, bytes: &[u8]) -> Result<Plan, PlanFault>
    ensures found { IfOk result (λ plan. IsPlan plan bytes.now) }
    ensures not_a_plan { result ≡ Err PlanFault.NotAPlan → (plan : ThePlan) → IsPlan plan bytes.now → ⊥ }
{
    let plan = plan_at(alloc, bytes)?;
    let formed = is_well_formed(alloc, &plan)?;
    if !formed {
        return Err(PlanFault::NotAPlan);
    }
    Ok(plan)
}

#[tactic(auto, unfolding(crate::specs::Reading::plan_at))]
fn plan_at(alloc: Global, bytes: &[u8]) -> Result<Plan, PlanFault>
    ensures { Gives (λ plan. plan) result (spec.plan_at bytes.now) }
{
    let (count, rest) = head_at(bytes)?;
    let (slices, rest) = items_at(alloc, count as u16, rest)?;
    if !rest.is_empty() {
        return Err(PlanFault::NotAPlan);
    }
    Ok(Plan { slices })
}

#[tactic(auto, unfolding(crate::specs::Reading::head_at))]
fn head_at(bytes: &[u8]) -> Result<(u8, &[u8]), PlanFault>
    ensures { Gives (λ x. (x.0, x.1.now)) result (spec.head_at bytes.now) }
{
    let rest = after(&[0x48, 0x50, 1], bytes)?;
    byte_at(rest)
}

// The bytes after these very bytes.
fn after<'a>(expected: &[u8], bytes: &'a [u8]) -> Result<&'a [u8], PlanFault>
    ensures { Gives (λ x. x.now) result (spec.after expected.now bytes.now) }
{
    match bytes.strip_prefix(expected) {
        Some(rest) => Ok(rest),
        None => Err(PlanFault::NotAPlan),
    }
}

fn motion_of(alloc: Global, tag: u8, bytes: &[u8]) -> Result<(Motion, &[u8]), PlanFault>
    ensures { Gives (λ x. (x.0, x.1.now)) result (spec.motion_of tag bytes.now) }
{
    match tag {
        1 => Ok((Motion::Gather, bytes)),
        2 => Ok((Motion::Broadcast, bytes)),
        3 => {
            let (keys, rest) = list_at(alloc, bytes)?;
            Ok((Motion::Redistribute(keys), rest))
        }
        4 => Ok((Motion::Result, bytes)),
        _ => Err(PlanFault::NotAPlan),
    }
}

#[tactic(auto, unfolding(crate::specs::Reading::motion_at))]
fn motion_at(alloc: Global, bytes: &[u8]) -> Result<(Motion, &[u8]), PlanFault>
    ensures { Gives (λ x. (x.0, x.1.now)) result (spec.motion_at bytes.now) }
{
    let (tag, rest) = byte_at(bytes)?;
    motion_of(alloc, tag, rest)
}

impl Member for Slice {
    ghost use Rattle.hq_planwire.specs.Reading.{slice_at};

    ghost reader = { slice_at };

    fn read(alloc: Global, bytes: &[u8]) -> Result<(Slice, &[u8]), PlanFault> {
        let (out, rest) = motion_at(alloc, bytes)?;
        let (root, rest) = op_at(alloc, DEPTH, rest)?;
        Ok((Slice { out, root }, rest))
    }
}
