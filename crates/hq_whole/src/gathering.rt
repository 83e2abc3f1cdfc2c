//! The plan that gathers each source by itself and does the rest in the last slice.
ghost use Rattle.std.specs.Prelude.{◌≡◌, ◌<◌, ◌≤◌, [], IfOk, IsTrue, length, map};
ghost use Rattle.hq_algebra.specs.Bound.{has_places};
ghost use Rattle.hq_laws.specs.Gathered as spec;
ghost use Rattle.hq_laws.specs.Guards.{with_guards};
ghost use Rattle.hq_whole.specs.Gathers.{gathered_of};
ghost use Rattle.hq_whole.specs.Tables as tables;

use crate::making::by_keys;
use crate::source::source_op;
use crate::stages::{filters, final_op, partial_op, sending, tail_op};
use crate::tables::{kinds_by, width_of};
use hq_algebra::{Expr, Keys16, Motion, Op, Plan, Query, Slices};
use hq_value::{NoMemory, TableDef};
use std::alloc::Global;

/// The plan that gathers each source by itself, under its guards.
pub fn gathered(alloc: Global, query: &Query, defs: &[(u32, TableDef)]) -> Result<Plan, NoMemory>
    requires { IsTrue (has_places query.now) }
    ensures { IfOk result (λ plan. plan ≡ gathered_of (tables.kinds_by defs.now) query.now (with_guards (tables.kinds_by defs.now) query.now.conds 0 query.now.sources) query.now.sources) }
{
    let sources = query.sources.as_slice();
    let product = product(alloc, sources, defs)?;
    let root = rest(alloc, query, product)?;
    let mut slices = scans(alloc, query.conds.as_slice(), sources, defs)?;
    slices.push(sending(Motion::Result, root))?;
    Ok(Plan { slices })
}

// All that a query does behind its sources.
fn rest(alloc: Global, query: &Query, input: Op) -> Result<Op, NoMemory>
    requires { IsTrue (has_places query.now) }
    ensures { IfOk result (λ op. op ≡ spec.rest_op query.now input) }
{
    let kept = filters(alloc, query.conds.as_slice(), input)?;
    let partial = partial_op(alloc, query, kept)?;
    let grouped = final_op(alloc, query, partial)?;
    tail_op(alloc, query, grouped)
}

// A slice for each source.
fn scans(
    alloc: Global,
    conds: &[Expr],
    sources: &[u32],
    defs: &[(u32, TableDef)],
) -> Result<Slices, NoMemory>
    requires { length sources.now ≤ 8 }
    ensures { IfOk result (λ slices. slices ≡ map (spec.scan_slice (tables.kinds_by defs.now)) (with_guards (tables.kinds_by defs.now) conds.now 0 sources.now)) }
{
    let mut slices = Slices::new(alloc);
    let mut width = 0;
    for table in sources {
        let scan = source_op(alloc, conds, defs, width, *table)?;
        slices.push(sending(Motion::Gather, scan))?;
        width += width_of(defs, *table);
    }
    Ok(slices)
}

// The product of the sources.
fn product(alloc: Global, sources: &[u32], defs: &[(u32, TableDef)]) -> Result<Op, NoMemory>
    requires some { 0 < length sources.now }
    requires few { length sources.now ≤ 8 }
    ensures { IfOk result (λ op. op ≡ spec.product_op (tables.kinds_by defs.now) sources.now) }
{
    let mut op = received(alloc, 0, sources[0], defs)?;
    for i in 1..sources.len() {
        let next = received(alloc, i as u8, sources[i], defs)?;
        op = beside(alloc, op, next)?;
    }
    Ok(op)
}

// The rows of a table that a slice sent.
fn received(alloc: Global, slice: u8, table: u32, defs: &[(u32, TableDef)]) -> Result<Op, NoMemory>
    ensures { IfOk result (λ op. op ≡ Op.Receive slice (tables.kinds_by defs.now table)) }
{
    let kinds = kinds_by(alloc, defs, table)?;
    Ok(Op::Receive { slice, kinds })
}

// The product of two inputs.
fn beside(alloc: Global, left: Op, right: Op) -> Result<Op, NoMemory>
    ensures { IfOk result (λ op. op ≡ Op.Join [] [] left right) }
{
    by_keys(alloc, Keys16::new(alloc), Keys16::new(alloc), left, right)
}
