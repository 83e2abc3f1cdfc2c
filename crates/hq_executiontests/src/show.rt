//! Rows and plans as they are shown.

use hq_algebra::{Aggregate, ArithKind, CompareKind, Expr, Motion, Op, Plan, SortKey};
use hq_value::{Row, Value};
use std::alloc::Global;
use std::test::Fail;

fn show_value(out: &mut String, value: &Value) -> Result<(), Fail> {
    match value {
        Value::Bool(truth) => write!(out, "{truth}")?,
        Value::Int(number) => write!(out, "{number}")?,
        Value::Text(text) => {
            let text = text.as_str();
            write!(out, "'{text}'")?;
        }
        Value::Null => out.push_str("null")?,
    }
    Ok(())
}

/// Shows rows, one a line.
pub fn show_rows(rt: HostRuntime, rows: &[Row]) -> Result<(), Fail> {
    for row in rows {
        let mut line = String::new(rt.alloc());
        for value in row.as_slice() {
            line.push(' ')?;
            show_value(&mut line, value)?;
        }
        println!(rt; "   {line}")?;
    }
    Ok(())
}

fn arith_sign(kind: ArithKind) -> &'static str {
    match kind {
        ArithKind::Plus => "(+ ",
        ArithKind::Minus => "(- ",
        ArithKind::Times => "(* ",
    }
}

fn compare_sign(kind: CompareKind) -> &'static str {
    match kind {
        CompareKind::Equal => "(= ",
        CompareKind::NotEqual => "(<> ",
        CompareKind::Less => "(< ",
        CompareKind::AtMost => "(<= ",
        CompareKind::Greater => "(> ",
        CompareKind::AtLeast => "(>= ",
    }
}

fn show_expr(out: &mut String, e: &Expr) -> Result<(), Fail> {
    match e {
        Expr::Column(place) => {
            write!(out, "c{place}")?;
            return Ok(());
        }
        Expr::Literal(value) => return show_value(out, value),
        Expr::Arith { kind, left, right } => {
            out.push_str(arith_sign(*kind))?;
            show_expr(out, left.get())?;
            out.push(' ')?;
            show_expr(out, right.get())?;
        }
        Expr::Compare { kind, left, right } => {
            out.push_str(compare_sign(*kind))?;
            show_expr(out, left.get())?;
            out.push(' ')?;
            show_expr(out, right.get())?;
        }
        Expr::And { left, right } => {
            out.push_str("(and ")?;
            show_expr(out, left.get())?;
            out.push(' ')?;
            show_expr(out, right.get())?;
        }
        Expr::Or { left, right } => {
            out.push_str("(or ")?;
            show_expr(out, left.get())?;
            out.push(' ')?;
            show_expr(out, right.get())?;
        }
        Expr::Not(of) => {
            out.push_str("(not ")?;
            show_expr(out, of.get())?;
        }
        Expr::IsNull(of) => {
            out.push_str("(null ")?;
            show_expr(out, of.get())?;
        }
    }
    out.push(')')?;
    Ok(())
}

fn show_exprs(out: &mut String, exprs: &[Expr]) -> Result<(), Fail> {
    let mut before = "(";
    for e in exprs {
        out.push_str(before)?;
        show_expr(out, e)?;
        before = ", ";
    }
    out.push_str(")")?;
    Ok(())
}

fn show_aggregate(out: &mut String, aggregate: &Aggregate) -> Result<(), Fail> {
    match aggregate {
        Aggregate::CountAll => out.push_str(" count all")?,
        Aggregate::Count(e) => {
            out.push_str(" count ")?;
            show_expr(out, e)?;
        }
        Aggregate::Sum(e) => {
            out.push_str(" sum ")?;
            show_expr(out, e)?;
        }
        Aggregate::Min(e) => {
            out.push_str(" min ")?;
            show_expr(out, e)?;
        }
        Aggregate::Max(e) => {
            out.push_str(" max ")?;
            show_expr(out, e)?;
        }
    }
    Ok(())
}

fn show_order(out: &mut String, order: &[SortKey]) -> Result<(), Fail> {
    for key in order {
        let word = if key.descending { "down" } else { "up" };
        write!(out, " {} {word}", key.column)?;
    }
    Ok(())
}

// An operator with its own parts, and whether its input follows.
fn show_head(out: &mut String, op: &Op) -> Result<(), Fail> {
    match op {
        Op::Scan { table, kinds } => write!(out, "scan {table} {:?}", kinds.as_slice())?,
        Op::Receive { slice, kinds } => write!(out, "receive {slice} {:?}", kinds.as_slice())?,
        Op::Filter { cond, .. } => {
            out.push_str("filter ")?;
            show_expr(out, cond)?;
        }
        Op::Project { items, .. } => {
            out.push_str("project ")?;
            show_exprs(out, items.as_slice())?;
        }
        Op::Join {
            left_keys,
            right_keys,
            ..
        } => write!(
            out,
            "join {:?} {:?}",
            left_keys.as_slice(),
            right_keys.as_slice()
        )?,
        Op::Partial {
            keys,
            aggregates,
            ..
        } => {
            write!(out, "partial {:?}", keys.as_slice())?;
            for aggregate in aggregates.as_slice() {
                show_aggregate(out, aggregate)?;
            }
        }
        Op::Final {
            keys,
            aggregates,
            ..
        } => {
            write!(out, "final {keys}")?;
            for aggregate in aggregates.as_slice() {
                show_aggregate(out, aggregate)?;
            }
        }
        Op::Distinct(_) => out.push_str("distinct")?,
        Op::Sort { order, limit, .. } => {
            out.push_str("sort")?;
            show_order(out, order.as_slice())?;
            if let Some(limit) = limit {
                write!(out, " limit {limit}")?;
            }
        }
    }
    Ok(())
}

// An operator, and its inputs in parentheses.
fn show_op(out: &mut String, op: &Op) -> Result<(), Fail> {
    show_head(out, op)?;
    match op {
        Op::Scan { .. } => return Ok(()),
        Op::Receive { .. } => return Ok(()),
        Op::Filter { input, .. } => {
            out.push_str(" (")?;
            show_op(out, input.get())?;
        }
        Op::Project { input, .. } => {
            out.push_str(" (")?;
            show_op(out, input.get())?;
        }
        Op::Join { left, right, .. } => {
            out.push_str(" (")?;
            show_op(out, left.get())?;
            out.push_str(") (")?;
            show_op(out, right.get())?;
        }
        Op::Partial { input, .. } => {
            out.push_str(" (")?;
            show_op(out, input.get())?;
        }
        Op::Final { input, .. } => {
            out.push_str(" (")?;
            show_op(out, input.get())?;
        }
        Op::Distinct(input) => {
            out.push_str(" (")?;
            show_op(out, input.get())?;
        }
        Op::Sort { input, .. } => {
            out.push_str(" (")?;
            show_op(out, input.get())?;
        }
    }
    out.push(')')?;
    Ok(())
}

fn show_motion(out: &mut String, motion: &Motion) -> Result<(), Fail> {
    match motion {
        Motion::Gather => out.push_str("gathered")?,
        Motion::Broadcast => out.push_str("to all")?,
        Motion::Redistribute(keys) => write!(out, "by {:?}", keys.as_slice())?,
        Motion::Result => out.push_str("result")?,
    }
    Ok(())
}

/// Shows a plan, a line for each slice.
pub fn show_plan(rt: HostRuntime, plan: &Plan) -> Result<(), Fail> {
    let alloc: Global = rt.alloc();
    for slice in plan.slices.as_slice() {
        let mut line = String::new(alloc);
        show_motion(&mut line, &slice.out)?;
        line.push_str(": ")?;
        show_op(&mut line, &slice.root)?;
        println!(rt; "  {line}")?;
    }
    Ok(())
}
