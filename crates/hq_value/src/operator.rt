//! The operators of expressions.
ghost use Rattle.std.specs.Prelude.{◌≡◌};
ghost use Rattle.hq_value.specs.Compare.{passes};

use std::cmp::Ordering;

/// A step of arithmetic.
#[derive(Clone, Copy, Debug, PartialEq, Eq)]
pub enum ArithKind {
    Plus,
    Minus,
    Times,
}

/// A comparison of two values.
#[derive(Clone, Copy, Debug, PartialEq, Eq)]
pub enum CompareKind {
    Equal,
    NotEqual,
    Less,
    AtMost,
    Greater,
    AtLeast,
}

impl CompareKind {
    /// Whether the comparison holds of two values in this order.
    pub fn passes(self, order: Ordering) -> bool
        ensures { result ≡ passes self order }
    {
        match self {
            CompareKind::Equal => order.is_eq(),
            CompareKind::NotEqual => order.is_ne(),
            CompareKind::Less => order.is_lt(),
            CompareKind::AtMost => order.is_le(),
            CompareKind::Greater => order.is_gt(),
            CompareKind::AtLeast => order.is_ge(),
        }
    }
}
