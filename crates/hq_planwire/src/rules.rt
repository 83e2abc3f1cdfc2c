//! Whether a plan is well formed.
ghost use Rattle.std.specs.Prelude.{◌≡◌, ◌==◌, ◌≤◌, ◌-◌, List, Some, IfOk, length, take, drop, flat_map, count_by, []};
ghost use Rattle.hq_value.specs.Tables.{all_below};
ghost use Rattle.hq_value.specs.declared.kind.Kind.{Kind as KindValue};
ghost use Rattle.std.specs.List.{list_all, list_any, range_with_len};
ghost use Rattle.hq_algebra.specs.Plans as spec;
ghost use Rattle.hq_planwire.specs.Rules.{the_ops, slices_of, keep_rules, counted};

use crate::op_rules::{is_fine, is_join, is_scan, stands_over_pairs};
use crate::parts::parts;
use crate::slice_part::Part;
use hq_algebra::{Misfit, Motion, Op, Plan, Slice};
use hq_value::{Kind, NoMemory};
use std::alloc::Global;

/// Whether the plan keeps the rules of plans. The call is nested at most as deep as the plan.
pub fn is_well_formed(alloc: Global, plan: &Plan) -> Result<bool, NoMemory>
    ensures { IfOk result (λ b. b ≡ spec.is_well_formed plan.now) }
{
    let slices = plan.slices.as_slice();
    if slices.len() < 2 || slices.len() > 64 || !ends_with_result(slices) {
        return Ok(false);
    }
    match parts(alloc, slices) {
        Ok(parts) => Ok(keep_rules(parts.as_slice())),
        Err(Misfit::Wrong) => Ok(false),
        Err(Misfit::NoMemory) => Err(NoMemory),
    }
}

fn is_result(motion: &Motion) -> bool
    ensures { result ≡ spec.is_result motion.now }
{
    matches!(motion, Motion::Result)
}

fn ends_with_result(slices: &[Slice]) -> bool
    ensures { result ≡ spec.ends_with_result slices.now }
{
    match slices {
        [] => false,
        [last] => is_result(&last.out),
        [first, rest @ ..] => !is_result(&first.out) && ends_with_result(rest),
    }
}

fn keep_rules(parts: &[Part]) -> bool
    ensures { result ≡ keep_rules (slices_of parts.now) }
{
    are_fine(parts)
        && motions_are_fine(parts)
        && fit_from(parts, 0)
        && ends_with_gather(parts)
        && are_received_once(parts)
        && joins_without_counts(parts)
}

fn are_fine(parts: &[Part]) -> bool
    ensures { result ≡ list_all spec.slice_is_fine (slices_of parts.now) }
{
    each_is_fine(parts)
}

fn each_is_fine(parts: &[Part]) -> bool
    ensures { result ≡ list_all (λ p. spec.slice_is_fine p.slice.now) parts.now }
{
    parts.iter().all(|part| part_is_fine(part))
}

fn part_is_fine(part: &Part) -> bool
    ensures { result ≡ spec.slice_is_fine part.now.slice.now }
{
    part.ops.len() <= 64 && ops_are_fine(part.ops.as_slice())
}

fn ops_are_fine(ops: &[&Op]) -> bool
    ensures { result ≡ list_all spec.op_is_fine (the_ops ops.now) }
{
    each_op_is_fine(ops)
}

fn each_op_is_fine(ops: &[&Op]) -> bool
    ensures { result ≡ list_all (λ o. spec.op_is_fine o.now) ops.now }
{
    ops.iter().all(|op| is_fine(op))
}

fn motions_are_fine(parts: &[Part]) -> bool
    ensures { result ≡ list_all spec.motion_is_fine (slices_of parts.now) }
{
    each_motion_is_fine(parts)
}

fn each_motion_is_fine(parts: &[Part]) -> bool
    ensures { result ≡ list_all (λ p. spec.motion_is_fine p.slice.now) parts.now }
{
    parts.iter().all(|part| motion_is_fine(part))
}

fn motion_is_fine(part: &Part) -> bool
    ensures { result ≡ spec.motion_is_fine part.now.slice.now }
{
    match &part.slice.out {
        Motion::Redistribute(keys) => keys_stand(keys.as_slice(), part.kinds.len()),
        _ => true,
    }
}

fn keys_stand(keys: &[u16], columns: usize) -> bool
    ensures { (kinds : List KindValue) → columns ≡ length kinds → result ≡ spec.keys_stand keys.now (Some kinds) }
{
    !keys.is_empty() && keys.len() <= 65_535 && all_below(keys, columns)
}

fn all_below(keys: &[u16], columns: usize) -> bool
    ensures { result ≡ all_below columns keys.now }
{
    keys.iter().all(|key| (*key as usize) < columns)
}

// Each part from this place on fits those before it.
fn fit_from(parts: &[Part], place: usize) -> bool
    requires { place ≤ length parts.now }
    ensures { result ≡ spec.fit_in_order (take place (slices_of parts.now)) (drop place (slices_of parts.now)) }
{
    if place == parts.len() {
        return true;
    }
    fits_before(&parts[..place], &parts[place]) && fit_from(parts, place + 1)
}

fn fits_before(before: &[Part], part: &Part) -> bool
    ensures { result ≡ spec.fits_before (slices_of before.now) part.now.slice.now }
{
    receive_what_is_sent(before, part.ops.as_slice()) && gathers_alone(before, part.ops.as_slice())
}

fn receive_what_is_sent(before: &[Part], ops: &[&Op]) -> bool
    ensures { result ≡ list_all (spec.receives_what_is_sent (slices_of before.now)) (the_ops ops.now) }
{
    each_receives_what_is_sent(before, ops)
}

fn each_receives_what_is_sent(before: &[Part], ops: &[&Op]) -> bool
    ensures { result ≡ list_all (λ o. spec.receives_what_is_sent (slices_of before.now) o.now) ops.now }
{
    ops.iter().all(|op| receives_what_is_sent(before, op))
}

fn receives_what_is_sent(before: &[Part], op: &Op) -> bool
    ensures { result ≡ spec.receives_what_is_sent (slices_of before.now) op.now }
{
    match op {
        Op::Receive { slice, kinds } => are_sent(kinds.as_slice(), before, *slice),
        _ => true,
    }
}

fn are_sent(kinds: &[Kind], before: &[Part], slice: u8) -> bool
    ensures { result ≡ spec.are_sent kinds.now (spec.sent_kinds (slices_of before.now) slice) }
{
    match before.get(slice as usize) {
        Some(part) => kinds == part.kinds.as_slice() && !kinds.is_empty(),
        None => false,
    }
}

fn gathers(before: &[Part], slice: u8) -> bool
    ensures { result ≡ spec.gathers (slices_of before.now) slice }
{
    match before.get(slice as usize) {
        Some(part) => matches!(part.slice.out, Motion::Gather),
        None => false,
    }
}

fn receives_a_gather(before: &[Part], op: &Op) -> bool
    ensures { result ≡ spec.receives_a_gather (slices_of before.now) op.now }
{
    match op {
        Op::Receive { slice, .. } => gathers(before, *slice),
        _ => false,
    }
}

fn only_gathers(before: &[Part], op: &Op) -> bool
    ensures { result ≡ spec.only_gathers (slices_of before.now) op.now }
{
    match op {
        Op::Scan { .. } => false,
        Op::Receive { slice, .. } => gathers(before, *slice),
        _ => true,
    }
}

fn some_receives_a_gather(before: &[Part], ops: &[&Op]) -> bool
    ensures { result ≡ list_any (spec.receives_a_gather (slices_of before.now)) (the_ops ops.now) }
{
    any_receives_a_gather(before, ops)
}

fn any_receives_a_gather(before: &[Part], ops: &[&Op]) -> bool
    ensures { result ≡ list_any (λ o. spec.receives_a_gather (slices_of before.now) o.now) ops.now }
{
    ops.iter().any(|op| receives_a_gather(before, op))
}

fn all_only_gather(before: &[Part], ops: &[&Op]) -> bool
    ensures { result ≡ list_all (spec.only_gathers (slices_of before.now)) (the_ops ops.now) }
{
    each_only_gathers(before, ops)
}

fn each_only_gathers(before: &[Part], ops: &[&Op]) -> bool
    ensures { result ≡ list_all (λ o. spec.only_gathers (slices_of before.now) o.now) ops.now }
{
    ops.iter().all(|op| only_gathers(before, op))
}

fn gathers_alone(before: &[Part], ops: &[&Op]) -> bool
    ensures { result ≡ spec.gathers_alone (slices_of before.now) (the_ops ops.now) }
{
    !some_receives_a_gather(before, ops) || all_only_gather(before, ops)
}

fn ends_with_gather(parts: &[Part]) -> bool
    ensures { result ≡ spec.ends_with_gather [] (slices_of parts.now) }
{
    match parts.split_last() {
        Some((last, before)) => part_receives_a_gather(before, last),
        None => false,
    }
}

fn part_receives_a_gather(before: &[Part], part: &Part) -> bool
    ensures { result ≡ list_any (spec.receives_a_gather (slices_of before.now)) (spec.operators part.now.slice.now.root) }
{
    some_receives_a_gather(before, part.ops.as_slice())
}

fn are_received_once(parts: &[Part]) -> bool
    ensures { result ≡ spec.are_received_once (slices_of parts.now) }
{
    are_received_from(parts, 0, parts.len().saturating_sub(1))
}

// Each slice from this one on, up to the end, is received once.
fn are_received_from(parts: &[Part], slice: usize, end: usize) -> bool
    ensures { result ≡ list_all (λ i. count_by (λ j. j == i) (flat_map spec.received (spec.all_operators (slices_of parts.now))) == 1) (range_with_len slice (end - slice)) }
{
    if end <= slice {
        return true;
    }
    is_received_once(parts, slice) && are_received_from(parts, slice + 1, end)
}

fn is_received_once(parts: &[Part], slice: usize) -> bool
    ensures { result ≡ (count_by (λ j. j == slice) (flat_map spec.received (spec.all_operators (slices_of parts.now))) == 1) }
{
    times_received(parts, slice) == 1
}

// How often the slice is received.
fn times_received(parts: &[Part], slice: usize) -> u64
    ensures { result ≡ counted (count_by (λ j. j == slice) (flat_map spec.received (spec.all_operators (slices_of parts.now)))) }
{
    match parts {
        [] => 0,
        [first, rest @ ..] => {
            times_in_part(first, slice).saturating_add(times_received(rest, slice))
        }
    }
}

fn times_in_part(part: &Part, slice: usize) -> u64
    ensures { result ≡ counted (count_by (λ j. j == slice) (flat_map spec.received (spec.operators part.now.slice.now.root))) }
{
    times_in(part.ops.as_slice(), slice)
}

fn times_in(ops: &[&Op], slice: usize) -> u64
    ensures { result ≡ counted (count_by (λ j. j == slice) (flat_map spec.received (the_ops ops.now))) }
{
    match ops {
        [] => 0,
        [first, rest @ ..] => receives(first, slice).saturating_add(times_in(rest, slice)),
    }
}

fn receives(op: &Op, wanted: usize) -> u64
    ensures { result ≡ count_by (λ j. j == wanted) (spec.received op.now) }
{
    match op {
        Op::Receive { slice, .. } if *slice as usize == wanted => 1,
        _ => 0,
    }
}

fn some_join(parts: &[Part]) -> bool
    ensures { result ≡ list_any spec.is_join (spec.all_operators (slices_of parts.now)) }
{
    any_joins(parts)
}

fn any_joins(parts: &[Part]) -> bool
    ensures { result ≡ list_any (λ p. list_any spec.is_join (spec.operators p.slice.now.root)) parts.now }
{
    parts.iter().any(|part| part_joins(part))
}

fn part_joins(part: &Part) -> bool
    ensures { result ≡ list_any spec.is_join (spec.operators part.now.slice.now.root) }
{
    some_is_join(part.ops.as_slice())
}

fn some_is_join(ops: &[&Op]) -> bool
    ensures { result ≡ list_any spec.is_join (the_ops ops.now) }
{
    any_is_join(ops)
}

fn any_is_join(ops: &[&Op]) -> bool
    ensures { result ≡ list_any (λ o. spec.is_join o.now) ops.now }
{
    ops.iter().any(|op| is_join(op))
}

fn all_stand_over_pairs(parts: &[Part]) -> bool
    ensures { result ≡ list_all spec.stands_over_pairs (spec.all_operators (slices_of parts.now)) }
{
    each_stands_over_pairs(parts)
}

fn each_stands_over_pairs(parts: &[Part]) -> bool
    ensures { result ≡ list_all (λ p. list_all spec.stands_over_pairs (spec.operators p.slice.now.root)) parts.now }
{
    parts.iter().all(|part| part_stands_over_pairs(part))
}

fn part_stands_over_pairs(part: &Part) -> bool
    ensures { result ≡ list_all spec.stands_over_pairs (spec.operators part.now.slice.now.root) }
{
    ops_stand_over_pairs(part.ops.as_slice())
}

fn ops_stand_over_pairs(ops: &[&Op]) -> bool
    ensures { result ≡ list_all spec.stands_over_pairs (the_ops ops.now) }
{
    each_op_stands_over_pairs(ops)
}

fn each_op_stands_over_pairs(ops: &[&Op]) -> bool
    ensures { result ≡ list_all (λ o. spec.stands_over_pairs o.now) ops.now }
{
    ops.iter().all(|op| stands_over_pairs(op))
}

fn joins_without_counts(parts: &[Part]) -> bool
    ensures { result ≡ spec.joins_without_counts (spec.all_operators (slices_of parts.now)) }
{
    !some_join(parts) || all_stand_over_pairs(parts)
}
