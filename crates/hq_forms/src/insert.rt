//! INSERT as a form.
ghost use Rattle.std.specs.Prelude.{◌≡◌};
ghost use Rattle.hq_forms.specs.Forms as spec;
ghost use Rattle.hq_forms.specs.Forms.{every};
ghost use Rattle.hq_forms.specs.Gives.{Gives};

use crate::form::Form;
use hq_sql::{InsertInput, InsertStatement, Literal, Literals, LongText, ParseFault};
use hq_value::{Row, Sequence, Value};
use std::alloc::Global;

/// The rows that an INSERT puts. Syntax exactly where it names columns, has a SELECT, or a text that is too long.
pub fn insert(alloc: Global, statement: &InsertStatement) -> Result<Form, ParseFault>
    ensures { Gives result (spec.insert_of statement.now) }
{
    if !statement.columns.is_empty() {
        return Err(ParseFault::Syntax);
    }
    let rows = input_rows(alloc, &statement.input)?;
    let name = statement.name.copy(alloc)?;
    Ok(Form::Insert { name, rows })
}

fn input_rows(alloc: Global, input: &InsertInput) -> Result<Sequence<Row>, ParseFault>
    ensures { Gives result (spec.rows_of input.now) }
{
    match input {
        InsertInput::Tuples(tuples) => rows(alloc, tuples.as_slice()),
        InsertInput::Select(_) => Err(ParseFault::Syntax),
    }
}

#[tactic(auto, using(crate::proofs::Every::goes_on, crate::proofs::Every::stops, crate::proofs::Every::done))]
fn rows(alloc: Global, tuples: &[Literals]) -> Result<Sequence<Row>, ParseFault>
    ensures { Gives result (every spec.row_of tuples.now) }
{
    let mut rows = Vec::with_capacity(alloc, tuples.len())?;
    for tuple in tuples {
        let row = row(alloc, tuple.as_slice())?;
        rows.push(row)?;
    }
    Ok(Sequence::from_vec(rows))
}

#[tactic(auto, using(crate::proofs::Every::goes_on, crate::proofs::Every::stops, crate::proofs::Every::done))]
fn row(alloc: Global, literals: &[Literal]) -> Result<Row, ParseFault>
    ensures { Gives result (spec.row_of literals.now) }
{
    let mut row = Row::with_capacity(alloc, literals.len())?;
    for literal in literals {
        let value = value(literal)?;
        row.push(value)?;
    }
    Ok(row)
}

fn value(literal: &Literal) -> Result<Value, ParseFault>
    ensures { Gives result (spec.value_of literal.now) }
{
    match literal {
        Literal::Null => Ok(Value::Null),
        Literal::Bool(b) => Ok(Value::Bool(*b)),
        Literal::Int(n) => Ok(Value::Int(*n)),
        Literal::Text(text) => text_value(text),
    }
}

fn text_value(text: &LongText) -> Result<Value, ParseFault>
    ensures { Gives result (spec.text_of text.now) }
{
    if text.is_long() {
        return Err(ParseFault::Syntax);
    }
    match text.chars() {
        Some(chars) => Ok(Value::Text(chars.copy()?)),
        None => unreachable!(),
    }
}
