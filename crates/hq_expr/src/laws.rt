//! Laws of items, conditions and values: just what is spelled is read.
ghost use Rattle.std.specs.Prelude.{◌≡◌, Bool, List, Some, None, true};
ghost use Rattle.hq_expr.specs.State.{State};
ghost use Rattle.hq_expr.specs.Reader.{peek};
ghost use Rattle.hq_expr.specs.Whole.{IsItem, IsCond, IsValue, ends_expr};
ghost use Rattle.hq_expr.specs.Parts as read;
ghost use Rattle.hq_expr.specs.declared.lexeme.Lexeme.{Lexeme};
ghost use Rattle.hq_expr.specs.declared.tree.Literal.{Literal};
ghost use Rattle.hq_expr.specs.declared.tree.SqlExpr.{SqlExpr};

/// An item's sum is read exactly where one is spelled, and in just one way.
pub fn items_are_exact()
    ensures found { (s t : State) (x : SqlExpr) → read.item_sum s ≡ Some (x, t) → IsItem s.rest x t.rest }
    ensures refused { (s : State) → read.item_sum s ≡ None
        → (x : SqlExpr) (rest : List Lexeme) → IsItem s.rest x rest → ends_expr (peek rest) ≡ true → ⊥ }
    ensures one_way { (ts r r' : List Lexeme) (x y : SqlExpr)
        → IsItem ts x r → ends_expr (peek r) ≡ true → IsItem ts y r' → ends_expr (peek r') ≡ true → x ≡ y }
{}

/// A condition is read exactly where one is spelled, and in just one way.
pub fn conditions_are_exact()
    ensures found { (aggs : Bool) (s t : State) (x : SqlExpr) → read.condition aggs s ≡ Some (x, t) → IsCond aggs s.rest x t.rest }
    ensures refused { (aggs : Bool) (s : State) → read.condition aggs s ≡ None
        → (x : SqlExpr) (rest : List Lexeme) → IsCond aggs s.rest x rest → ends_expr (peek rest) ≡ true → ⊥ }
    ensures one_way { (aggs : Bool) (ts r r' : List Lexeme) (x y : SqlExpr)
        → IsCond aggs ts x r → ends_expr (peek r) ≡ true → IsCond aggs ts y r' → ends_expr (peek r') ≡ true → x ≡ y }
{}

/// A literal is read exactly where one is spelled.
pub fn values_are_exact()
    ensures found { (s t : State) (v : Literal) → read.value s ≡ Some (v, t) → IsValue s.rest v t.rest }
    ensures refused { (s : State) → read.value s ≡ None → (v : Literal) (rest : List Lexeme) → IsValue s.rest v rest → ⊥ }
{}
