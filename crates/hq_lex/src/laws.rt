//! Laws of cutting.

ghost use Rattle.std.specs.Prelude.{◌≡◌, ◌≤◌, ℕ, List, length};
ghost use Rattle.hq_lex.specs.Cut.{IsTokens, NoTokenAt, AreSlices};
ghost use Rattle.hq_lex.specs.declared.token.Token.{Token as TokenType};

/// A text is cut into tokens in at most one way.
pub fn one_cutting()
    ensures { (text : List ℕ) (at : ℕ) (ts us : List TokenType) → IsTokens text at ts → IsTokens text at us → ts ≡ us }
{}

/// No text has both tokens and a place where none begins, and there is one such place at most.
pub fn places_are_exact()
    ensures not_both { (text : List ℕ) (at place : ℕ) (ts : List TokenType) → IsTokens text at ts → NoTokenAt text at place → ⊥ }
    ensures one_place { (text : List ℕ) (at place other : ℕ) → NoTokenAt text at place → NoTokenAt text at other → place ≡ other }
{}

/// Each token is a slice of the text that is a token of its kind, and the slices stand in order.
pub fn tokens_are_slices()
    ensures { (text : List ℕ) (at : ℕ) (ts : List TokenType) → at ≤ length text → IsTokens text at ts → AreSlices text at ts }
{}
