//! The operators of a plan over tables, of those of a plan over the columns that are taken of them. Each stands under a
//! condition, if there is one.
ghost use Rattle.std.specs.Prelude.{◌≡◌, IfOk};
ghost use Rattle.std.specs.Option.{option_copied};
ghost use Rattle.hq_narrow.specs.Widened.{under};

use hq_algebra::{
    Aggregate, Expr, Keys16, Op, SortKey, copy_aggregates, copy_exprs, copy_keys, copy_kinds,
    copy_order,
};
use hq_value::{Kind, NoMemory};
use sqlite_items::Boxed;
use std::alloc::Global;

/// The operator under the condition, if there is one.
pub fn under(alloc: Global, above: Option<&Expr>, input: Op) -> Result<Op, NoMemory>
    ensures { IfOk result (λ op. op ≡ under (option_copied above.entry) input) }
{
    match above {
        None => Ok(input),
        Some(cond) => {
            let cond = cond.copy(alloc)?;
            let input = Boxed::new(alloc, input)?;
            Ok(Op::Filter { cond, input })
        }
    }
}

pub fn received(
    alloc: Global,
    above: Option<&Expr>,
    slice: u8,
    kinds: &[Kind],
) -> Result<Op, NoMemory>
    ensures { IfOk result (λ op. op ≡ under (option_copied above.entry) (Op.Receive slice kinds.now)) }
{
    let kinds = copy_kinds(alloc, kinds)?;
    under(alloc, above, Op::Receive { slice, kinds })
}

pub fn projected(
    alloc: Global,
    above: Option<&Expr>,
    items: &[Expr],
    input: Op,
) -> Result<Op, NoMemory>
    ensures { IfOk result (λ op. op ≡ under (option_copied above.entry) (Op.Project items.now input)) }
{
    let items = copy_exprs(alloc, items)?;
    let input = Boxed::new(alloc, input)?;
    under(alloc, above, Op::Project { items, input })
}

pub fn joined(
    alloc: Global,
    above: Option<&Expr>,
    left_keys: &[u16],
    right_keys: &[u16],
    left: Op,
    right: Op,
) -> Result<Op, NoMemory>
    ensures { IfOk result (λ op. op ≡ under (option_copied above.entry) (Op.Join left_keys.now right_keys.now left right)) }
{
    let left_keys = copy_keys(alloc, left_keys)?;
    let right_keys = copy_keys(alloc, right_keys)?;
    let op = by_keys(alloc, left_keys, right_keys, left, right)?;
    under(alloc, above, op)
}

fn by_keys(
    alloc: Global,
    left_keys: Keys16,
    right_keys: Keys16,
    left: Op,
    right: Op,
) -> Result<Op, NoMemory>
    ensures { IfOk result (λ op. op ≡ Op.Join left_keys right_keys left right) }
{
    let left = Boxed::new(alloc, left)?;
    let right = Boxed::new(alloc, right)?;
    Ok(Op::Join {
        left_keys,
        right_keys,
        left,
        right,
    })
}

pub fn partial(
    alloc: Global,
    above: Option<&Expr>,
    keys: &[u16],
    aggregates: &[Aggregate],
    input: Op,
) -> Result<Op, NoMemory>
    ensures { IfOk result (λ op. op ≡ under (option_copied above.entry) (Op.Partial keys.now aggregates.now input)) }
{
    let keys = copy_keys(alloc, keys)?;
    let aggregates = copy_aggregates(alloc, aggregates)?;
    let input = Boxed::new(alloc, input)?;
    under(
        alloc,
        above,
        Op::Partial {
            keys,
            aggregates,
            input,
        },
    )
}

pub fn merged(
    alloc: Global,
    above: Option<&Expr>,
    keys: u16,
    aggregates: &[Aggregate],
    input: Op,
) -> Result<Op, NoMemory>
    ensures { IfOk result (λ op. op ≡ under (option_copied above.entry) (Op.Final keys aggregates.now input)) }
{
    let aggregates = copy_aggregates(alloc, aggregates)?;
    let input = Boxed::new(alloc, input)?;
    under(
        alloc,
        above,
        Op::Final {
            keys,
            aggregates,
            input,
        },
    )
}

pub fn distinct(alloc: Global, above: Option<&Expr>, input: Op) -> Result<Op, NoMemory>
    ensures { IfOk result (λ op. op ≡ under (option_copied above.entry) (Op.Distinct input)) }
{
    let input = Boxed::new(alloc, input)?;
    under(alloc, above, Op::Distinct(input))
}

pub fn sorted(
    alloc: Global,
    above: Option<&Expr>,
    order: &[SortKey],
    limit: Option<u64>,
    input: Op,
) -> Result<Op, NoMemory>
    ensures { IfOk result (λ op. op ≡ under (option_copied above.entry) (Op.Sort order.now limit input)) }
{
    let order = copy_order(alloc, order)?;
    let input = Boxed::new(alloc, input)?;
    under(
        alloc,
        above,
        Op::Sort {
            order,
            limit,
            input,
        },
    )
}
