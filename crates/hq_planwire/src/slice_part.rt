//! A slice of a plan with its operators and its kinds.
ghost use Rattle.std.specs.Prelude.{◌≡◌, Some, map};
ghost use Rattle.hq_algebra.specs.Operators.{op_kinds};
ghost use Rattle.hq_algebra.specs.Plans.{operators};

use hq_algebra::{Op, Slice};
use hq_value::Kinds;

/// A slice, its operators, and the kinds of what it sends.
#[derive(Drop)]
pub struct Part<'a> {
    pub slice: &'a Slice,
    pub ops: Vec<&'a Op>,
    pub kinds: Kinds,
    ghost ops_are: { map (λ r. r.now) ops.items ≡ operators slice.now.root },
    ghost kinds_are: { op_kinds slice.now.root ≡ Some kinds },
}
