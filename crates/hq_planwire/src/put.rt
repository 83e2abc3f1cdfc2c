//! Plans written.
ghost use Rattle.std.specs.Prelude.{◌≡◌, ◌≤◌, ◌++◌, ◌∷◌, [], ℕ, List, IsTrue, IfOk, OnOk, flat_map, length};
ghost use Rattle.std.specs.List.{AllByRecursion};
ghost use Rattle.hq_algebra.specs.Plans.{is_well_formed};
ghost use Rattle.hq_planwire.specs.Bytes as spec;
ghost use Rattle.hq_planwire.specs.Ranges.{Always, IsShort, HaveRoom, ValueHasRoom, ExprHasRoom, AggregateHasRoom, LimitHasRoom, OpHasRoom, MotionHasRoom};
ghost use Rattle.hq_planwire.specs.Wire.{IsPlan, Written};

use crate::fields::{put_byte, put_bytes, put_count, put_short};
use hq_algebra::{Aggregate, ArithKind, CompareKind, Expr, Motion, Op, Plan, Slice, SortKey};
use hq_value::{Kind, NoMemory, Value};
use std::alloc::Global;

/// The bytes of a plan, of which there is one spelling. The call is nested at most as deep as the plan.
pub fn encode_plan(alloc: Global, plan: &Plan) -> Result<Vec<u8>, NoMemory>
    requires { IsTrue (is_well_formed plan.now) }
    ensures spelled { IfOk result (λ bytes. bytes.items ≡ spec.plan_bytes plan.now) }
    ensures is_plan { IfOk result (λ bytes. IsPlan plan.now bytes.items) }
{
    let slices = plan.slices.as_slice();
    let mut out = Vec::new(alloc);
    put_bytes(&mut out, &[0x48, 0x50, 1, slices.len() as u8])?;
    put_items(&mut out, slices)?;
    Ok(out)
}

/// What is written as an item of a list.
pub trait Item {
    ghost spelling: { Self → List ℕ };

    ghost HasRoom: { Self → Type 0 };

    /// Adds its bytes.
    fn put(&self, out: &mut Vec<u8>) -> Result<(), NoMemory>
        ensures { OnOk result (Written HasRoom spelling out.old.items self.now out.new.items) };
}

fn put_items<T: Item>(out: &mut Vec<u8>, items: &[T]) -> Result<(), NoMemory>
    ensures { OnOk result (Written (AllByRecursion T.HasRoom) (flat_map T.spelling) out.old.items items.now out.new.items) }
{
    for item in items {
        item.put(out)?;
    }
    Ok(())
}

fn put_list<T: Item>(out: &mut Vec<u8>, items: &[T]) -> Result<(), NoMemory>
    ensures { OnOk result (Written (HaveRoom T.HasRoom) (spec.list_bytes T.spelling) out.old.items items.now out.new.items) }
{
    put_count(out, items.len())?;
    put_items(out, items)
}

impl Item for Kind {
    ghost use Rattle.hq_planwire.specs.Bytes.{kind_byte};
    ghost use Rattle.hq_planwire.specs.Ranges.{Always};

    ghost spelling = { kind_byte };

    ghost HasRoom = { Always };

    fn put(&self, out: &mut Vec<u8>) -> Result<(), NoMemory> {
        match self {
            Kind::Bool => put_byte(out, 1),
            Kind::Int => put_byte(out, 2),
            Kind::Text => put_byte(out, 3),
        }
    }
}

impl Item for u16 {
    ghost use Rattle.hq_planwire.specs.Bytes.{short};
    ghost use Rattle.hq_planwire.specs.Ranges.{IsShort};

    ghost spelling = { short };

    ghost HasRoom = { IsShort };

    fn put(&self, out: &mut Vec<u8>) -> Result<(), NoMemory> {
        put_short(out, *self)
    }
}

fn bool_byte(b: bool) -> u8
    ensures { result ∷ [] ≡ spec.bool_byte b }
{
    if b { 1 } else { 0 }
}

fn arith_byte(kind: ArithKind) -> u8
    ensures { result ∷ [] ≡ spec.arith_byte kind }
{
    match kind {
        ArithKind::Plus => 1,
        ArithKind::Minus => 2,
        ArithKind::Times => 3,
    }
}

fn compare_byte(kind: CompareKind) -> u8
    ensures { result ∷ [] ≡ spec.compare_byte kind }
{
    match kind {
        CompareKind::Equal => 1,
        CompareKind::NotEqual => 2,
        CompareKind::Less => 3,
        CompareKind::AtMost => 4,
        CompareKind::Greater => 5,
        CompareKind::AtLeast => 6,
    }
}

fn put_literal(out: &mut Vec<u8>, value: &Value) -> Result<(), NoMemory>
    ensures { OnOk result (Written ValueHasRoom spec.literal_bytes out.old.items value.now out.new.items) }
{
    match value {
        Value::Null => put_byte(out, 0),
        Value::Bool(b) => put_bytes(out, &[1, bool_byte(*b)]),
        Value::Int(n) => put_int(out, *n),
        Value::Text(text) => put_text(out, text.as_str()),
    }
}

fn put_int(out: &mut Vec<u8>, n: i64) -> Result<(), NoMemory>
    ensures { OnOk result (Written ValueHasRoom spec.literal_bytes out.old.items (Value.Int n) out.new.items) }
{
    put_number(out, n)
}

fn put_number(out: &mut Vec<u8>, n: i64) -> Result<(), NoMemory>
    ensures { OnOk result (out.new.items ≡ out.old.items ++ spec.literal_bytes (Value.Int n)) }
{
    put_byte(out, 2)?;
    put_bytes(out, &n.to_be_bytes())
}

fn put_text(out: &mut Vec<u8>, text: &str) -> Result<(), NoMemory>
    requires { length text.now ≤ 1000 }
    ensures { OnOk result (Written ValueHasRoom spec.literal_bytes out.old.items (Value.Text text.now) out.new.items) }
{
    put_byte(out, 3)?;
    put_count(out, text.len())?;
    put_bytes(out, text.as_bytes())
}

fn put_expr(out: &mut Vec<u8>, e: &Expr) -> Result<(), NoMemory>
    ensures { OnOk result (Written ExprHasRoom spec.expr_bytes out.old.items e.now out.new.items) }
{
    match e {
        Expr::Column(place) => {
            put_byte(out, 1)?;
            put_short(out, *place)
        }
        Expr::Literal(value) => {
            put_byte(out, 2)?;
            put_literal(out, value)
        }
        Expr::Arith { kind, left, right } => {
            put_bytes(out, &[3, arith_byte(*kind)])?;
            put_expr(out, left.get())?;
            put_expr(out, right.get())
        }
        Expr::Compare { kind, left, right } => {
            put_bytes(out, &[4, compare_byte(*kind)])?;
            put_expr(out, left.get())?;
            put_expr(out, right.get())
        }
        Expr::And { left, right } => {
            put_byte(out, 5)?;
            put_expr(out, left.get())?;
            put_expr(out, right.get())
        }
        Expr::Or { left, right } => {
            put_byte(out, 6)?;
            put_expr(out, left.get())?;
            put_expr(out, right.get())
        }
        Expr::Not(of) => {
            put_byte(out, 7)?;
            put_expr(out, of.get())
        }
        Expr::IsNull(of) => {
            put_byte(out, 8)?;
            put_expr(out, of.get())
        }
    }
}

impl Item for Expr {
    ghost use Rattle.hq_planwire.specs.Bytes.{expr_bytes};
    ghost use Rattle.hq_planwire.specs.Ranges.{ExprHasRoom};

    ghost spelling = { expr_bytes };

    ghost HasRoom = { ExprHasRoom };

    fn put(&self, out: &mut Vec<u8>) -> Result<(), NoMemory> {
        put_expr(out, self)
    }
}

impl Item for Aggregate {
    ghost use Rattle.hq_planwire.specs.Bytes.{aggregate_bytes};
    ghost use Rattle.hq_planwire.specs.Ranges.{AggregateHasRoom};

    ghost spelling = { aggregate_bytes };

    ghost HasRoom = { AggregateHasRoom };

    fn put(&self, out: &mut Vec<u8>) -> Result<(), NoMemory> {
        match self {
            Aggregate::CountAll => put_byte(out, 1),
            Aggregate::Count(e) => put_argument(out, 2, e),
            Aggregate::Sum(e) => put_argument(out, 3, e),
            Aggregate::Min(e) => put_argument(out, 4, e),
            Aggregate::Max(e) => put_argument(out, 5, e),
        }
    }
}

fn put_argument(out: &mut Vec<u8>, tag: u8, e: &Expr) -> Result<(), NoMemory>
    ensures { OnOk result (Written ExprHasRoom (λ e. tag ∷ spec.expr_bytes e) out.old.items e.now out.new.items) }
{
    put_byte(out, tag)?;
    put_expr(out, e)
}

impl Item for SortKey {
    ghost use Rattle.hq_planwire.specs.Bytes.{sort_key_bytes};
    ghost use Rattle.hq_planwire.specs.Ranges.{SortKeyHasRoom};

    ghost spelling = { sort_key_bytes };

    ghost HasRoom = { SortKeyHasRoom };

    fn put(&self, out: &mut Vec<u8>) -> Result<(), NoMemory> {
        put_short(out, self.column)?;
        put_byte(out, bool_byte(self.descending))
    }
}

fn put_limit(out: &mut Vec<u8>, limit: Option<u64>) -> Result<(), NoMemory>
    ensures { OnOk result (Written LimitHasRoom spec.limit_bytes out.old.items limit out.new.items) }
{
    match limit {
        None => put_byte(out, 0),
        Some(n) => {
            put_byte(out, 1)?;
            put_bytes(out, &n.to_be_bytes())
        }
    }
}

fn put_op(out: &mut Vec<u8>, op: &Op) -> Result<(), NoMemory>
    ensures { OnOk result (Written OpHasRoom spec.op_bytes out.old.items op.now out.new.items) }
{
    match op {
        Op::Scan { table, kinds } => {
            put_byte(out, 1)?;
            put_bytes(out, &table.to_be_bytes())?;
            put_list(out, kinds.as_slice())
        }
        Op::Receive { slice, kinds } => {
            put_bytes(out, &[2, *slice])?;
            put_list(out, kinds.as_slice())
        }
        Op::Filter { cond, input } => {
            put_byte(out, 3)?;
            put_expr(out, cond)?;
            put_op(out, input.get())
        }
        Op::Project { items, input } => {
            put_byte(out, 4)?;
            put_list(out, items.as_slice())?;
            put_op(out, input.get())
        }
        Op::Join {
            left_keys,
            right_keys,
            left,
            right,
        } => {
            put_byte(out, 5)?;
            put_list(out, left_keys.as_slice())?;
            put_list(out, right_keys.as_slice())?;
            put_op(out, left.get())?;
            put_op(out, right.get())
        }
        Op::Partial {
            keys,
            aggregates,
            input,
        } => {
            put_byte(out, 6)?;
            put_list(out, keys.as_slice())?;
            put_list(out, aggregates.as_slice())?;
            put_op(out, input.get())
        }
        Op::Final {
            keys,
            aggregates,
            input,
        } => {
            put_byte(out, 7)?;
            put_short(out, *keys)?;
            put_list(out, aggregates.as_slice())?;
            put_op(out, input.get())
        }
        Op::Distinct(input) => {
            put_byte(out, 8)?;
            put_op(out, input.get())
        }
        Op::Sort {
            order,
            limit,
            input,
        } => {
            put_byte(out, 9)?;
            put_list(out, order.as_slice())?;
            put_limit(out, *limit)?;
            put_op(out, input.get())
        }
    }
}

fn put_motion(out: &mut Vec<u8>, motion: &Motion) -> Result<(), NoMemory>
    ensures { OnOk result (Written MotionHasRoom spec.motion_bytes out.old.items motion.now out.new.items) }
{
    match motion {
        Motion::Gather => put_byte(out, 1),
        Motion::Broadcast => put_byte(out, 2),
        Motion::Redistribute(keys) => {
            put_byte(out, 3)?;
            put_list(out, keys.as_slice())
        }
        Motion::Result => put_byte(out, 4),
    }
}

impl Item for Slice {
    ghost use Rattle.hq_planwire.specs.Bytes.{slice_bytes};
    ghost use Rattle.hq_planwire.specs.Ranges.{SliceHasRoom};

    ghost spelling = { slice_bytes };

    ghost HasRoom = { SliceHasRoom };

    fn put(&self, out: &mut Vec<u8>) -> Result<(), NoMemory> {
        put_motion(out, &self.out)?;
        put_op(out, &self.root)
    }
}
