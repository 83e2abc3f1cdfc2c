//! What an expression is made of.
ghost use Rattle.std.specs.Prelude.{◌≡◌, ◌+◌, ◌||◌, true, false};
ghost use Rattle.hq_planwire.specs.Rules.{counted, shape_of};

use hq_algebra::Expr;

/// What an expression is made of.
#[derive(Clone, Copy, Debug, PartialEq, Eq)]
pub struct Shape {
    /// How many of its parts compute: all but columns and literals.
    pub parts: u64,
    /// Some part is a step of arithmetic.
    pub arith: bool,
    /// Some part is a column.
    pub column: bool,
}

/// What an expression is made of. The call is nested at most as deep as the expression.
pub fn shape_of(e: &Expr) -> Shape
    ensures { result ≡ shape_of e.now }
{
    match e {
        Expr::Column(_) => leaf(true),
        Expr::Literal(_) => leaf(false),
        Expr::Arith { left, right, .. } => with_arith(two(
            shape_of(left.get()),
            shape_of(right.get()),
        )),
        Expr::Compare { left, right, .. } => two(shape_of(left.get()), shape_of(right.get())),
        Expr::And { left, right } => two(shape_of(left.get()), shape_of(right.get())),
        Expr::Or { left, right } => two(shape_of(left.get()), shape_of(right.get())),
        Expr::Not(of) => one(shape_of(of.get())),
        Expr::IsNull(of) => one(shape_of(of.get())),
    }
}

fn leaf(column: bool) -> Shape
    ensures { result ≡ record { parts = 0; arith = false; column = column } }
{
    Shape {
        parts: 0,
        arith: false,
        column,
    }
}

fn one(of: Shape) -> Shape
    ensures { result ≡ record { parts = counted (1 + of.parts); arith = of.arith; column = of.column } }
{
    Shape {
        parts: 1u64.saturating_add(of.parts),
        arith: of.arith,
        column: of.column,
    }
}

fn two(a: Shape, b: Shape) -> Shape
    ensures { result ≡ record { parts = counted (counted (1 + a.parts) + b.parts); arith = a.arith || b.arith; column = a.column || b.column } }
{
    Shape {
        parts: 1u64.saturating_add(a.parts).saturating_add(b.parts),
        arith: a.arith || b.arith,
        column: a.column || b.column,
    }
}

fn with_arith(of: Shape) -> Shape
    ensures { result ≡ record { parts = of.parts; arith = true; column = of.column } }
{
    Shape {
        parts: of.parts,
        arith: true,
        column: of.column,
    }
}
