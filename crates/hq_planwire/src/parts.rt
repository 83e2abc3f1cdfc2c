//! The slices of a plan, each with its operators and its kinds.
ghost use Rattle.std.specs.Prelude.{◌≡◌, ◌++◌, false, IfOk, OnOk, None, Err};
ghost use Rattle.std.specs.List.{list_all};
ghost use Rattle.hq_algebra.specs.Operators.{op_kinds};
ghost use Rattle.hq_algebra.specs.Plans as spec;
ghost use Rattle.hq_planwire.specs.Rules.{the_ops, slices_of};

use crate::slice_part::Part;
use hq_algebra::{Misfit, Op, Slice, checked_kinds};
use hq_value::NoMemory;
use std::alloc::Global;

/// The slices as parts. Wrong comes only where a kind does not fit in some slice.
pub fn parts<'a>(alloc: Global, slices: &'a [Slice]) -> Result<Vec<Part<'a>>, Misfit>
    ensures found { IfOk result (λ found. slices_of found.items ≡ slices.now) }
    ensures wrong { result ≡ Err Misfit.Wrong → list_all spec.slice_is_fine slices.now ≡ false }
{
    let mut found = Vec::with_capacity(alloc, slices.len())?;
    for slice in slices {
        found.push(part_of(alloc, slice)?)?;
    }
    Ok(found)
}

fn part_of<'a>(alloc: Global, slice: &'a Slice) -> Result<Part<'a>, Misfit>
    ensures found { IfOk result (λ part. part.slice.now ≡ slice.now) }
    ensures wrong { result ≡ Err Misfit.Wrong → op_kinds slice.now.root ≡ None }
{
    let kinds = checked_kinds(alloc, &slice.root)?;
    let mut ops = Vec::new(alloc);
    push_operators(&slice.root, &mut ops)?;
    Ok(Part { slice, ops, kinds })
}

fn push_operators<'a>(op: &'a Op, found: &mut Vec<&'a Op>) -> Result<(), NoMemory>
    ensures { OnOk result (the_ops found.new.items ≡ the_ops found.old.items ++ spec.operators op.now) }
{
    found.push(op)?;
    match op {
        Op::Scan { .. } => Ok(()),
        Op::Receive { .. } => Ok(()),
        Op::Filter { input, .. } => push_operators(input.get(), found),
        Op::Project { input, .. } => push_operators(input.get(), found),
        Op::Join { left, right, .. } => {
            push_operators(left.get(), found)?;
            push_operators(right.get(), found)
        }
        Op::Partial { input, .. } => push_operators(input.get(), found),
        Op::Final { input, .. } => push_operators(input.get(), found),
        Op::Distinct(input) => push_operators(input.get(), found),
        Op::Sort { input, .. } => push_operators(input.get(), found),
    }
}
