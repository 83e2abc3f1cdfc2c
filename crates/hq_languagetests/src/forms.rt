//! Forms as they are shown.

use crate::show::show_bytes;
use hq_forms::{Form, ParseFault, forms_are_statements, read_form};
use hq_value::{Column, Kind, Row, Value};
use std::alloc::Global;
use std::test::Fail;

fn show_column(out: &mut String, column: &Column) -> Result<(), Fail> {
    out.push_str(" ")?;
    show_bytes(out, column.name.as_bytes())?;
    match column.kind {
        Kind::Bool => out.push_str(":bool")?,
        Kind::Int => out.push_str(":int")?,
        Kind::Text => out.push_str(":text")?,
    }
    Ok(())
}

fn show_row(out: &mut String, row: &Row) -> Result<(), Fail> {
    out.push_str(" (")?;
    for value in row.as_slice() {
        match value {
            Value::Null => out.push_str(" null")?,
            Value::Bool(b) => write!(out, " {b}")?,
            Value::Int(n) => write!(out, " {n}")?,
            Value::Text(text) => {
                out.push_str(" ")?;
                show_bytes(out, text.as_bytes())?;
            }
        }
    }
    out.push_str(" )")?;
    Ok(())
}

fn show(alloc: Global, form: &Form) -> Result<String, Fail> {
    let mut out = String::new(alloc);
    match form {
        Form::Create {
            name,
            columns,
            keys,
        } => {
            out.push_str("create ")?;
            show_bytes(&mut out, name.as_bytes())?;
            for column in columns.as_slice() {
                show_column(&mut out, column)?;
            }
            for key in keys.as_slice() {
                write!(out, " by {key}")?;
            }
        }
        Form::Insert { name, rows } => {
            out.push_str("insert ")?;
            show_bytes(&mut out, name.as_bytes())?;
            for row in rows.as_slice() {
                show_row(&mut out, row)?;
            }
        }
        Form::Select { name } => {
            out.push_str("select ")?;
            show_bytes(&mut out, name.as_bytes())?;
        }
    }
    Ok(out)
}

/// The form that a text is, or `refused` where it is none.
pub fn form_of(alloc: Global, text: &[u8]) -> Result<String, Fail> {
    forms_are_statements();
    match read_form(alloc, text) {
        Ok(form) => show(alloc, &form),
        Err(ParseFault::Syntax) => Ok(String::from_str(alloc, "refused")?),
        Err(ParseFault::NoMemory) => Ok(String::from_str(alloc, "no memory")?),
    }
}
