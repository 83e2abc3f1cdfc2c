//! What statements are bound to, as it is shown.

ghost use Rattle.std.specs.Prelude.{IsTrue, IfOk};
ghost use Rattle.hq_sql.specs.Fits.{fits};
ghost use Rattle.hq_bind.specs.Bound.{IsBindable};

use crate::show::{arith_sign, compare_sign, show_bytes};
use hq_algebra::{Aggregate, Expr, Query, SortKey};
use hq_bind::{Bound, Refusal, bind};
use hq_cases as cases;
use hq_sql::{ParseFault, Statement, parse, parsed_statements_fit};
use hq_value::{Column, Kind, Row, TableDef, Value};
use std::alloc::Global;
use std::test::Fail;

// A text of more bytes is shown as their number.
const MOST: usize = 400;

fn show_text(out: &mut String, bytes: &[u8]) -> Result<(), Fail> {
    out.push_str("'")?;
    if bytes.len() > MOST {
        write!(out, "{} bytes", bytes.len())?;
    } else {
        show_bytes(out, bytes)?;
    }
    out.push_str("'")?;
    Ok(())
}

fn show_value(out: &mut String, value: &Value) -> Result<(), Fail> {
    match value {
        Value::Null => out.push_str("null")?,
        Value::Bool(b) => write!(out, "{b}")?,
        Value::Int(n) => write!(out, "{n}")?,
        Value::Text(text) => show_text(out, text.as_bytes())?,
    }
    Ok(())
}

// A column is its place behind `#`, and an operator stands before its operands.
fn show_expr(out: &mut String, e: &Expr) -> Result<(), Fail> {
    match e {
        Expr::Column(place) => {
            write!(out, "#{place}")?;
            return Ok(());
        }
        Expr::Literal(value) => return show_value(out, value),
        Expr::Arith { kind, left, right } => {
            out.push_str(arith_sign(*kind))?;
            show_expr(out, left.get())?;
            out.push_str(" ")?;
            show_expr(out, right.get())?;
        }
        Expr::Compare { kind, left, right } => {
            out.push_str(compare_sign(*kind))?;
            show_expr(out, left.get())?;
            out.push_str(" ")?;
            show_expr(out, right.get())?;
        }
        Expr::And { left, right } => {
            out.push_str("(and ")?;
            show_expr(out, left.get())?;
            out.push_str(" ")?;
            show_expr(out, right.get())?;
        }
        Expr::Or { left, right } => {
            out.push_str("(or ")?;
            show_expr(out, left.get())?;
            out.push_str(" ")?;
            show_expr(out, right.get())?;
        }
        Expr::Not(of) => {
            out.push_str("(not ")?;
            show_expr(out, of.get())?;
        }
        Expr::IsNull(of) => {
            out.push_str("(null ")?;
            show_expr(out, of.get())?;
        }
    }
    out.push_str(")")?;
    Ok(())
}

fn show_argument(out: &mut String, sign: &str, of: &Expr) -> Result<(), Fail> {
    out.push_str(sign)?;
    show_expr(out, of)?;
    out.push_str(")")?;
    Ok(())
}

fn show_exprs(out: &mut String, word: &str, exprs: &[Expr]) -> Result<(), Fail> {
    if exprs.is_empty() {
        return Ok(());
    }
    out.push_str(word)?;
    for e in exprs {
        out.push_str(" ")?;
        show_expr(out, e)?;
    }
    Ok(())
}

fn show_aggregate(out: &mut String, aggregate: &Aggregate) -> Result<(), Fail> {
    match aggregate {
        Aggregate::CountAll => {
            out.push_str(" count")?;
            Ok(())
        }
        Aggregate::Count(e) => show_argument(out, " (count ", e),
        Aggregate::Sum(e) => show_argument(out, " (sum ", e),
        Aggregate::Min(e) => show_argument(out, " (min ", e),
        Aggregate::Max(e) => show_argument(out, " (max ", e),
    }
}

fn show_order(out: &mut String, key: SortKey) -> Result<(), Fail> {
    write!(out, " order {}", key.column)?;
    if key.descending {
        out.push_str(" desc")?;
    }
    Ok(())
}

fn show_groups(out: &mut String, query: &Query) -> Result<(), Fail> {
    if !query.grouped {
        return Ok(());
    }
    out.push_str(" grouped")?;
    for place in query.groups.as_slice() {
        write!(out, " by {place}")?;
    }
    if !query.aggregates.is_empty() {
        out.push_str(" aggregates")?;
    }
    for aggregate in query.aggregates.as_slice() {
        show_aggregate(out, aggregate)?;
    }
    show_exprs(out, " having", query.having.as_slice())
}

fn show_query(out: &mut String, query: &Query) -> Result<(), Fail> {
    out.push_str("query from")?;
    for table in query.sources.as_slice() {
        write!(out, " {table}")?;
    }
    show_exprs(out, " where", query.conds.as_slice())?;
    show_groups(out, query)?;
    show_exprs(out, " items", query.items.as_slice())?;
    if query.distinct {
        out.push_str(" distinct")?;
    }
    for key in query.order.as_slice() {
        show_order(out, *key)?;
    }
    if let Some(limit) = query.limit {
        write!(out, " limit {limit}")?;
    }
    Ok(())
}

fn show_row(out: &mut String, row: &Row) -> Result<(), Fail> {
    out.push_str(" (")?;
    for value in row.as_slice() {
        out.push_str(" ")?;
        show_value(out, value)?;
    }
    out.push_str(" )")?;
    Ok(())
}

fn show_column(out: &mut String, column: &Column) -> Result<(), Fail> {
    out.push_str(" ")?;
    show_bytes(out, column.name.as_bytes())?;
    out.push_str(match column.kind {
        Kind::Bool => ":bool",
        Kind::Int => ":int",
        Kind::Text => ":text",
    })?;
    if column.not_null {
        out.push_str(" not null")?;
    }
    Ok(())
}

fn show_table(out: &mut String, def: &TableDef) -> Result<(), Fail> {
    out.push_str("create ")?;
    show_bytes(out, def.name().as_bytes())?;
    for column in def.columns().as_slice() {
        show_column(out, column)?;
    }
    for key in def.keys().as_slice() {
        write!(out, " by {key}")?;
    }
    Ok(())
}

fn show_place(out: &mut String, place: Option<u16>) -> Result<(), Fail> {
    match place {
        Some(place) => write!(out, " {place}")?,
        None => out.push_str(" -")?,
    }
    Ok(())
}

fn show_bound(out: &mut String, bound: &Bound) -> Result<(), Fail> {
    match bound {
        Bound::Create(def) => show_table(out, def),
        Bound::Query(query) => show_query(out, query),
        Bound::Values { table, rows } => {
            write!(out, "values {table}")?;
            for row in rows {
                show_row(out, row)?;
            }
            Ok(())
        }
        Bound::InsertQuery {
            table,
            places,
            query,
        } => {
            write!(out, "insert {table} at")?;
            for place in places.as_slice() {
                show_place(out, *place)?;
            }
            out.push_str(" ")?;
            show_query(out, query)
        }
    }
}

fn refusal_word(refusal: Refusal) -> &'static str {
    match refusal {
        Refusal::UndefinedTable => "undefined table",
        Refusal::DuplicateSource => "duplicate source",
        Refusal::Limit => "limit",
        Refusal::DuplicateColumn => "duplicate column",
        Refusal::UndefinedColumn => "undefined column",
        Refusal::AmbiguousColumn => "ambiguous column",
        Refusal::TypeMismatch => "type mismatch",
        Refusal::NotGrouped => "not grouped",
        Refusal::NoMemory => "no memory",
    }
}

// A statement that keeps the limits of the grammar.
fn read(alloc: Global, text: &[u8]) -> Result<Statement, ParseFault>
    ensures { IfOk result (λ s. IsTrue (fits s)) }
{
    parsed_statements_fit();
    match parse(alloc, text) {
        Ok(statement) => Ok(statement),
        Err(fault) => Err(fault),
    }
}

/// The tables that statements are bound over, each with its number.
pub type Defs = Vec<(u32, TableDef)>;

fn bound(alloc: Global, statement: &Statement, defs: &Defs) -> Option<Result<Bound, Refusal>>
    requires { IsTrue (fits statement.now) }
{
    match statement {
        Statement::Create(_) => Some(bind(alloc, statement, defs)),
        Statement::Insert(_) => Some(bind(alloc, statement, defs)),
        Statement::Select(_) => Some(bind(alloc, statement, defs)),
        _ => None,
    }
}

fn add_table(defs: &mut Defs, bound: Bound) -> Result<(), Fail> {
    if let Bound::Create(def) = bound {
        let number = defs.len().min(1_000) as u32;
        defs.push((number, def))?;
    }
    Ok(())
}

fn show_made(defs: &mut Defs, bound: Bound, is_added: bool, out: &mut String) -> Result<(), Fail> {
    show_bound(out, &bound)?;
    if is_added {
        add_table(defs, bound)?;
    }
    Ok(())
}

fn show_statement(
    alloc: Global,
    statement: &Statement,
    defs: &mut Defs,
    is_added: bool,
) -> Result<String, Fail>
    requires { IsTrue (fits statement.now) }
{
    let mut out = String::new(alloc);
    match bound(alloc, statement, defs) {
        None => out.push_str("not bound")?,
        Some(Err(refusal)) => out.push_str(refusal_word(refusal))?,
        Some(Ok(bound)) => show_made(defs, bound, is_added, &mut out)?,
    }
    Ok(out)
}

// What a text is bound to. A table that it makes is added where that is asked.
fn show_binding(
    alloc: Global,
    text: &[u8],
    defs: &mut Defs,
    is_added: bool,
) -> Result<String, Fail> {
    match read(alloc, text) {
        Ok(statement) => show_statement(alloc, &statement, defs, is_added),
        Err(_) => Ok(String::from_str(alloc, "-")?),
    }
}

fn print_case(rt: HostRuntime, word: &str, bytes: &[u8], gave: &String) -> Result<(), Fail> {
    let text = cases::shown(rt.alloc(), bytes)?;
    println!(rt; "{word} {text} => {gave}")?;
    Ok(())
}

fn run_case(
    rt: HostRuntime,
    word: &str,
    rest: &str,
    bytes: &mut Vec<u8>,
    defs: &mut Defs,
) -> Result<(), Fail> {
    cases::add(bytes, rest)?;
    let gave = show_binding(rt.alloc(), bytes, defs, word == "table")?;
    print_case(rt, word, bytes, &gave)?;
    bytes.clear();
    Ok(())
}

/// Shows each line of a file of cases, and what it gives. `table` adds the table that a CREATE TABLE makes, `text` and
/// `many` add to a text which the next call gets.
pub fn run(rt: HostRuntime, name: &str) -> Result<(), Fail> {
    let alloc = rt.alloc();
    let file = cases::text_of(rt, name)?;
    let mut defs = Vec::new(alloc);
    let mut bytes = Vec::new(alloc);
    for line in file.as_str().lines() {
        match cases::line_of(line) {
            Some(("text", rest)) => cases::add(&mut bytes, rest)?,
            Some(("many", rest)) => cases::add_many(&mut bytes, rest)?,
            Some((word, rest)) => run_case(rt, word, rest, &mut bytes, &mut defs)?,
            None => {}
        }
    }
    Ok(())
}
