//! Where an operator's first rows come from.
ghost use Rattle.std.specs.Prelude.{◌≡◌, option_map};
ghost use Rattle.hq_exec.specs.Stages.{leaf_of, above_of};

use crate::inputs::{Inputs, inputs_of};
use hq_algebra::{Expr, Op};

/// The Scan or the Receive that is reached by first inputs, and the condition of the Filter directly above it, if there
/// is one.
#[derive(Drop)]
pub struct Leaf<'a> {
    pub op: &'a Op,
    pub above: Option<&'a Expr>,
}

/// The leaf of an operator. The call is nested at most as deep as the operator.
pub fn leaf_of<'a>(op: &'a Op, above: Option<&'a Expr>) -> Leaf<'a>
    ensures op { result.op.now ≡ leaf_of op.now }
    ensures above { option_map (λ e. e.now) result.above ≡ above_of op.now (option_map (λ e. e.now) above.entry) }
{
    match inputs_of(op) {
        Inputs::Alone => Leaf { op, above },
        Inputs::One(input, cond) => leaf_of(input, cond),
        Inputs::Two(left, _) => leaf_of(left, None),
    }
}
