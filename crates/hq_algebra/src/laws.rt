//! A law of evaluation.
ghost use Rattle.std.specs.Prelude.{◌≡◌, false, List};
ghost use Rattle.hq_value.specs.declared.value.Value.{Value as Datum};
ghost use Rattle.hq_algebra.specs.declared.expr.Expr.{Expr as AnyExpr};
ghost use Rattle.hq_algebra.specs.Shape.{has_arith};
ghost use Rattle.hq_algebra.specs.Eval.{faults_at};

/// An expression without arithmetic, as a condition is, faults over no row.
pub fn conditions_never_fault()
    ensures { (e : AnyExpr) (row : List Datum) → has_arith e ≡ false → faults_at e row ≡ false }
{}
