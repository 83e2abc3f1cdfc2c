//! A plan over the columns that are taken of tables, as one over the tables.
ghost use Rattle.std.specs.Prelude.{◌≡◌, IfOk, OnOk, IsTrue, length, map};
ghost use Rattle.std.specs.Option.{option_copied, option_map};
ghost use Rattle.hq_algebra.specs.declared.expr.Expr.TheVariants as expr;
ghost use Rattle.hq_laws.specs.Turned.{renamed};
ghost use Rattle.hq_narrow.specs.Narrow.{place_from};
ghost use Rattle.hq_narrow.specs.Widened as spec;
ghost use Rattle.hq_whole.specs.Tables as tables;
ghost use Rattle.hq_planner.specs.Widens.{Widens, WidensPlan};

use crate::fitting::{are_few, are_kinds};
use crate::keeping::{distinct, joined, merged, partial, projected, received, sorted, under};
use crate::not_narrowed::NotNarrowed;
use crate::renaming::widened;
use hq_algebra::{Expr, Exprs, Op, Plan, Slice, Slices};
use hq_narrow::Taken;
use hq_value::{Kind, Kinds, NoMemory, TableDef};
use hq_whole::{kinds_by, width_of};
use sqlite_items::Boxed;
use std::alloc::Global;

/// The plan in which a Project over the Scan of each source's table, under the condition that stands directly above it,
/// takes its columns, where these are not all columns in order. Unfit where a Scan has other kinds, or a slice more operators than it may have.
pub fn widened_plan(
    alloc: Global,
    taken: &[Taken],
    defs: &[(u32, TableDef)],
    plan: &Plan,
) -> Result<Plan, NotNarrowed>
    ensures { IfOk result (λ new. WidensPlan (tables.kinds_by defs.now) taken.now plan.now new) }
{
    let all = plan.slices.as_slice();
    let mut slices = Slices::new(alloc);
    for slice in all {
        slices.push(widened_slice(alloc, taken, defs, slice)?)?;
    }
    Ok(Plan { slices })
}

fn widened_slice(
    alloc: Global,
    taken: &[Taken],
    defs: &[(u32, TableDef)],
    slice: &Slice,
) -> Result<Slice, NotNarrowed>
    ensures same { IfOk result (λ new. new ≡ spec.widened_slice (tables.kinds_by defs.now) taken.now slice.now) }
    ensures fits { OnOk result (IsTrue (spec.scans_fit (tables.kinds_by defs.now) taken.now slice.now.root)) }
    ensures few { OnOk result (IsTrue (spec.are_few (tables.kinds_by defs.now) taken.now slice.now)) }
{
    let root = widened_op(alloc, taken, defs, None, &slice.root)?;
    if !are_few(&root) {
        return Err(NotNarrowed::Unfit);
    }
    let out = slice.out.copy(alloc)?;
    Ok(Slice { out, root })
}

// The call is nested at most as deep as the operator.
fn widened_op(
    alloc: Global,
    taken: &[Taken],
    defs: &[(u32, TableDef)],
    above: Option<&Expr>,
    op: &Op,
) -> Result<Op, NotNarrowed>
    ensures { IfOk result (λ new. Widens (tables.kinds_by defs.now) taken.now (option_copied above.entry) op.now new) }
{
    match op {
        Op::Scan { table, kinds } => scanned(alloc, taken, defs, above, *table, kinds.as_slice()),
        Op::Receive { slice, kinds } => Ok(received(alloc, above, *slice, kinds.as_slice())?),
        Op::Filter { cond, input } => {
            let input = widened_op(alloc, taken, defs, Some(cond), input.get())?;
            Ok(under(alloc, above, input)?)
        }
        Op::Project { items, input } => {
            let input = widened_op(alloc, taken, defs, None, input.get())?;
            Ok(projected(alloc, above, items.as_slice(), input)?)
        }
        Op::Join {
            left_keys,
            right_keys,
            left,
            right,
        } => {
            let left = widened_op(alloc, taken, defs, None, left.get())?;
            let right = widened_op(alloc, taken, defs, None, right.get())?;
            Ok(joined(
                alloc,
                above,
                left_keys.as_slice(),
                right_keys.as_slice(),
                left,
                right,
            )?)
        }
        Op::Partial {
            keys,
            aggregates,
            input,
        } => {
            let input = widened_op(alloc, taken, defs, None, input.get())?;
            Ok(partial(alloc, above, keys.as_slice(), aggregates.as_slice(), input)?)
        }
        Op::Final {
            keys,
            aggregates,
            input,
        } => {
            let input = widened_op(alloc, taken, defs, None, input.get())?;
            Ok(merged(alloc, above, *keys, aggregates.as_slice(), input)?)
        }
        Op::Distinct(input) => {
            let input = widened_op(alloc, taken, defs, None, input.get())?;
            Ok(distinct(alloc, above, input)?)
        }
        Op::Sort {
            order,
            limit,
            input,
        } => {
            let input = widened_op(alloc, taken, defs, None, input.get())?;
            Ok(sorted(alloc, above, order.as_slice(), *limit, input)?)
        }
    }
}

// In place of the Scan of a source. It has to have these kinds.
fn scanned(
    alloc: Global,
    taken: &[Taken],
    defs: &[(u32, TableDef)],
    above: Option<&Expr>,
    number: u32,
    kinds: &[Kind],
) -> Result<Op, NotNarrowed>
    ensures { IfOk result (λ new. Widens (tables.kinds_by defs.now) taken.now (option_copied above.entry) (Op.Scan number kinds.now) new) }
{
    let Some(source) = taken.get(number as usize) else {
        return Err(NotNarrowed::Unfit);
    };
    let width = width_of(defs, source.table);
    let whole = kinds_by(alloc, defs, source.table)?;
    if !are_kinds(whole.as_slice(), source.columns.as_slice(), kinds) {
        return Err(NotNarrowed::Unfit);
    }
    let op = source_op(alloc, source, whole, width, above)?;
    Ok(op)
}

// The columns of a source, whose table has the kinds `whole`.
fn source_op(
    alloc: Global,
    source: &Taken,
    whole: Kinds,
    width: u16,
    above: Option<&Expr>,
) -> Result<Op, NoMemory>
    requires { width ≡ length whole }
    ensures { IfOk result (λ op. op ≡ spec.taken_op (λ t. whole) source.now (option_copied above.entry)) }
{
    let columns = source.columns.as_slice();
    let scan = Op::Scan {
        table: source.table,
        kinds: whole,
    };
    let kept = kept(alloc, columns, width, above, scan)?;
    columns_of(alloc, columns, width, kept)
}

// The rows of a Scan at which a condition over its columns that are taken is true, if there is one.
fn kept(
    alloc: Global,
    columns: &[u16],
    width: u16,
    above: Option<&Expr>,
    scan: Op,
) -> Result<Op, NoMemory>
    ensures { IfOk result (λ op. op ≡ spec.under (option_map (renamed (place_from columns.now width)) (option_copied above.entry)) scan) }
{
    match above {
        None => Ok(scan),
        Some(cond) => {
            let cond = widened(alloc, columns, width, cond)?;
            let input = Boxed::new(alloc, scan)?;
            Ok(Op::Filter { cond, input })
        }
    }
}

// The columns of a table of `width` columns. All of them in order are its rows as they stand.
fn columns_of(alloc: Global, columns: &[u16], width: u16, input: Op) -> Result<Op, NoMemory>
    ensures { IfOk result (λ op. op ≡ spec.columns_of width columns.now input) }
{
    if are_all(columns, width) {
        return Ok(input);
    }
    only(alloc, columns, input)
}

fn are_all(columns: &[u16], width: u16) -> bool
    ensures { result ≡ spec.are_all_from 0 width columns.now }
{
    for i in 0..columns.len() {
        if columns[i] as usize != i {
            return false;
        }
    }
    columns.len() == width as usize
}

// These columns of the rows.
fn only(alloc: Global, columns: &[u16], input: Op) -> Result<Op, NoMemory>
    ensures { IfOk result (λ op. op ≡ Op.Project (map expr.Column columns.now) input) }
{
    let items = as_items(alloc, columns)?;
    let input = Boxed::new(alloc, input)?;
    Ok(Op::Project { items, input })
}

fn as_items(alloc: Global, columns: &[u16]) -> Result<Exprs, NoMemory>
    ensures { IfOk result (λ items. items ≡ map expr.Column columns.now) }
{
    let mut items = Exprs::new(alloc);
    for column in columns {
        items.push(Expr::Column(*column))?;
    }
    Ok(items)
}
