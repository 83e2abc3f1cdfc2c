//! Texts as forms.
ghost use Rattle.std.specs.Prelude.{◌≡◌, IfOk};
ghost use Rattle.hq_forms.specs.Forms as spec;
ghost use Rattle.hq_forms.specs.Forms.{IsGood};
ghost use Rattle.hq_forms.specs.Gives.{Gives};

use crate::create::create;
use crate::form::Form;
use crate::insert::insert;
use crate::select::select;
use hq_sql::{ParseFault, Statement, parse};
use std::alloc::Global;

/// The form that a text is. Syntax exactly where it is none.
pub fn read_form(alloc: Global, text: &[u8]) -> Result<Form, ParseFault>
    ensures form { Gives result (spec.form_in text.now) }
    ensures good { IfOk result IsGood }
{
    match parse(alloc, text) {
        Ok(statement) => form(alloc, &statement),
        Err(fault) => Err(fault),
    }
}

fn form(alloc: Global, statement: &Statement) -> Result<Form, ParseFault>
    ensures form { Gives result (spec.form_of statement.now) }
    ensures good { IfOk result IsGood }
{
    match statement {
        Statement::Create(statement) => create(alloc, statement),
        Statement::Insert(statement) => insert(alloc, statement),
        Statement::Select(statement) => select(alloc, statement),
        _ => Err(ParseFault::Syntax),
    }
}
