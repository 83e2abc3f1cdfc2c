//! Texts as statements.
ghost use Rattle.std.specs.Prelude.{◌≡◌, List, IfOk, IfSome, IfNone, IsErrOf};
ghost use Rattle.std.specs.Str.{IsUtf8};
ghost use Rattle.hq_sql.specs.Statements.{IsStatement, Parses, IsControl};
ghost use Rattle.hq_sql.specs.declared.tree.Statement.{Statement as StatementType};

use crate::statement::statement;
use crate::tree::Statement;
use hq_expr::{Cursor, Lexeme, Mark, ParseFault, are_marks, lexemes};
use std::alloc::Global;
use std::str;

/// The statement that a text is. `Syntax` exactly where the text isn't UTF-8 or no statement of the grammar.
pub fn parse(alloc: Global, text: &[u8]) -> Result<Statement, ParseFault>
    ensures found { IfOk result (λ s. Parses text.now s) }
    ensures refused { IsErrOf result ParseFault.Syntax → (s : StatementType) → Parses text.now s → ⊥ }
{
    match str::from_utf8(text) {
        Err(_) => Err(ParseFault::Syntax),
        Ok(text) => lexed(alloc, text),
    }
}

// Of a text that is UTF-8.
fn lexed(alloc: Global, text: &str) -> Result<Statement, ParseFault>
    ensures found { IfOk result (λ s. Parses text.now s) }
    ensures refused { IsErrOf result ParseFault.Syntax → (s : StatementType) → Parses text.now s → ⊥ }
{
    match lexemes(alloc, text) {
        Err(fault) => Err(fault),
        Ok(lexemes) => whole(alloc, lexemes),
    }
}

// The statement that these lexemes are.
fn whole(alloc: Global, lexemes: Vec<Lexeme>) -> Result<Statement, ParseFault>
    ensures found { IfOk result (λ s. IsStatement lexemes.items s) }
    ensures refused { IsErrOf result ParseFault.Syntax → (s : StatementType) → IsStatement lexemes.items s → ⊥ }
{
    let mut cursor = Cursor::new(lexemes);
    alone(alloc, &mut cursor)
}

// The statement that the lexemes of a cursor at their first are.
fn alone(alloc: Global, cursor: &mut Cursor) -> Result<Statement, ParseFault>
    requires { cursor.old ≡ record { left = 256; rest = cursor.old.rest } }
    ensures found { IfOk result (λ s. IsStatement cursor.old.rest s) }
    ensures refused { IsErrOf result ParseFault.Syntax → (s : StatementType) → IsStatement cursor.old.rest s → ⊥ }
{
    match statement(alloc, cursor) {
        Err(fault) => Err(fault),
        Ok(statement) => {
            if cursor.is_done() {
                Ok(statement)
            } else {
                Err(ParseFault::Syntax)
            }
        }
    }
}

/// The statement where the text is BEGIN, BEGIN SNAPSHOT, COMMIT or ROLLBACK, and none otherwise. It takes no memory.
pub fn control(text: &[u8]) -> Option<Statement>
    ensures control { IfSome result IsControl }
    ensures found { IfSome result (λ s. Parses text.now s) }
    ensures refused { IfNone result ((s : StatementType) → IsControl s → Parses text.now s → ⊥) }
{
    match str::from_utf8(text) {
        Err(_) => None,
        Ok(_) => control_words(text),
    }
}

// Of a text that is UTF-8.
fn control_words(text: &[u8]) -> Option<Statement>
    requires { IsUtf8 text.now }
    ensures control { IfSome result IsControl }
    ensures found { IfSome result (λ s. Parses text.now s) }
    ensures refused { IfNone result ((s : StatementType) → IsControl s → Parses text.now s → ⊥) }
{
    if are_marks(text, &[Mark::Begin]) {
        return Some(Statement::Begin { snapshot: false });
    }
    if are_marks(text, &[Mark::Begin, Mark::Snapshot]) {
        return Some(Statement::Begin { snapshot: true });
    }
    if are_marks(text, &[Mark::Commit]) {
        return Some(Statement::Commit);
    }
    if are_marks(text, &[Mark::Rollback]) {
        return Some(Statement::Rollback);
    }
    None
}
