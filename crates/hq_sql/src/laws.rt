//! Laws of the grammar.
ghost use Rattle.std.specs.Prelude.{◌≡◌, ◌↔◌, ℕ, List, Some, IsTrue};
ghost use Rattle.hq_sql.specs.Statements.{Parses};
ghost use Rattle.hq_sql.specs.Fits.{fits};
ghost use Rattle.hq_sql.specs.Texts.{statement_in};
ghost use Rattle.hq_sql.specs.declared.tree.Statement.{Statement as StatementType};

/// A text is at most one statement.
pub fn one_reading()
    ensures { (text : List ℕ) (s t : StatementType) → Parses text s → Parses text t → s ≡ t }
{}

/// Just the statement that a text is, the function `statement_in` finds.
pub fn statements_are_found()
    ensures { (text : List ℕ) (s : StatementType) → (statement_in text ≡ Some s) ↔ Parses text s }
{}

/// The statement that a text is keeps the limits of the grammar.
pub fn parsed_statements_fit()
    ensures { (text : List ℕ) (s : StatementType) → Parses text s → IsTrue (fits s) }
{}
