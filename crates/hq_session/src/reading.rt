//! The texts of pieces, read.
ghost use Rattle.std.specs.Prelude.{◌≡◌, Some, None, IsTrue, IfOk, IsErrOf};
ghost use Rattle.hq_sql.specs.Fits.{fits};
ghost use Rattle.hq_sql.specs.Statements.{IsControl};
ghost use Rattle.hq_sql.specs.Texts.{statement_in};
ghost use Rattle.hq_sql.specs.declared.tree.Statement.{Statement as AStatement};

use hq_sql::{ParseFault, Statement, control, parse};
use std::alloc::Global;

/// The statement that a text is. There is always memory for BEGIN, COMMIT and ROLLBACK.
pub fn read(alloc: Global, text: &[u8]) -> Result<Statement, ParseFault>
    ensures found { IfOk result (λ s. statement_in text.now ≡ Some s) }
    ensures grammar { IfOk result (λ s. IsTrue (fits s)) }
    ensures none { IsErrOf result ParseFault.Syntax → statement_in text.now ≡ None }
    ensures short { IsErrOf result ParseFault.NoMemory → (s : AStatement) → statement_in text.now ≡ Some s → IsControl s → ⊥ }
{
    match control(text) {
        Some(statement) => Ok(statement),
        None => parse(alloc, text),
    }
}
