//! What the function that reads a text says of the grammar.
ghost use Rattle.std.specs.Prelude.{◌≡◌, ◌↔◌, ℕ, List, Some};
ghost use Rattle.hq_sql.specs.Statements.{Parses};
ghost use Rattle.hq_sql.specs.declared.tree.Statement.{Statement as StatementType};
ghost use Rattle.hq_sql.specs.Texts.{statement_in};
ghost use Rattle.hq_forms.specs.Forms.{form_of, form_in};
ghost use Rattle.hq_forms.specs.declared.form.Form.{Form as FormType};

/// A text is a form exactly where the grammar spells a statement that is this form.
pub fn forms_are_statements()
    ensures statements { (text : List ℕ) (s : StatementType) → (statement_in text ≡ Some s) ↔ Parses text s }
    ensures found { (text : List ℕ) (f : FormType) → form_in text ≡ Some f → (s : StatementType) × Parses text s × (form_of s ≡ Some f) }
    ensures read { (text : List ℕ) (f : FormType) (s : StatementType) → Parses text s → form_of s ≡ Some f → form_in text ≡ Some f }
{}
