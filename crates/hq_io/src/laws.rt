//! Laws of pieces.
ghost use Rattle.std.specs.Prelude.{◌≡◌, ◌++◌, ◌∷◌, [], ℕ, List, IsTrue};
ghost use Rattle.hq_io.specs.Pieces.{texts, lead, quoted, commented, is_one_line, is_blank};

/// A text in quotes, whose own quotes are doubled, and a comment up to its line feed end no piece, whatever stands in
/// them and behind them. Any other `;` ends one.
pub fn semicolons_in_texts_and_comments_end_no_piece()
    ensures texts { (text rest : List ℕ) → texts (quoted text ++ rest) ≡ lead (quoted text) (texts rest) }
    ensures comments { (text rest : List ℕ) → IsTrue (is_one_line text) → texts (commented text ++ rest) ≡ lead (commented text) (texts rest) }
    ensures ends { (rest : List ℕ) → texts (59 ∷ rest) ≡ [] ∷ texts rest }
{}

/// A comment up to its line feed says nothing.
pub fn comments_are_blank()
    ensures { (text rest : List ℕ) → IsTrue (is_one_line text) → is_blank (commented text ++ rest) ≡ is_blank rest }
{}
