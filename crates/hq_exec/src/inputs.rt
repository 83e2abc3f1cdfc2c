//! An operator and its inputs.
ghost use Rattle.hq_exec.specs.Inputs.{HasInputsOf};

use hq_algebra::{Expr, Op};

/// The inputs of an operator, and the condition of a Filter. A Join has two inputs, of which the second is its right side.
#[derive(Drop)]
pub enum Inputs<'a> {
    Alone,
    One(&'a Op, Option<&'a Expr>),
    Two(&'a Op, &'a Op),
}

/// The inputs of an operator.
pub fn inputs_of(op: &Op) -> Inputs<'_>
    ensures { HasInputsOf op.now result }
{
    match op {
        Op::Scan { .. } => Inputs::Alone,
        Op::Receive { .. } => Inputs::Alone,
        Op::Filter { cond, input } => Inputs::One(input.get(), Some(cond)),
        Op::Project { input, .. } => Inputs::One(input.get(), None),
        Op::Join { left, right, .. } => Inputs::Two(left.get(), right.get()),
        Op::Partial { input, .. } => Inputs::One(input.get(), None),
        Op::Final { input, .. } => Inputs::One(input.get(), None),
        Op::Distinct(input) => Inputs::One(input.get(), None),
        Op::Sort { input, .. } => Inputs::One(input.get(), None),
    }
}
