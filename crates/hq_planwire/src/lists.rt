//! Lists of what stands in a plan.
ghost use Rattle.hq_planwire.specs.Reading.{Reader, Gives};
ghost use Rattle.hq_planwire.specs.Reading as spec;

use crate::PlanFault;
use crate::fields::{kind_at, u16_at};
use hq_value::{Kind, Sequence};
use std::alloc::Global;

/// What may stand in a list.
pub trait Member: Sized + Drop {
    ghost reader: { Reader Self };

    /// Reads one from the front.
    fn read(alloc: Global, bytes: &[u8]) -> Result<(Self, &[u8]), PlanFault>
        ensures { Gives (λ x. (x.0, x.1.now)) result (reader bytes.now) };
}

impl Member for Kind {
    ghost use Rattle.hq_planwire.specs.Reading.{coded_at, kind_of};

    ghost reader = { coded_at kind_of };

    fn read(_alloc: Global, bytes: &[u8]) -> Result<(Kind, &[u8]), PlanFault> {
        kind_at(bytes)
    }
}

impl Member for u16 {
    ghost use Rattle.std.specs.Int.{w16};
    ghost use Rattle.hq_planwire.specs.Reading.{number_at};

    ghost reader = { number_at w16 };

    fn read(_alloc: Global, bytes: &[u8]) -> Result<(u16, &[u8]), PlanFault> {
        u16_at(bytes)
    }
}

/// A count of two bytes, and the items.
pub fn list_at<T: Member>(alloc: Global, bytes: &[u8]) -> Result<(Sequence<T>, &[u8]), PlanFault>
    ensures { Gives (λ x. (x.0, x.1.now)) result (spec.list_at T.reader bytes.now) }
{
    let (count, rest) = u16_at(bytes)?;
    items_at(alloc, count, rest)
}

/// So many items. What the count claims takes no memory before it is read.
pub fn items_at<T: Member>(
    alloc: Global,
    count: u16,
    bytes: &[u8],
) -> Result<(Sequence<T>, &[u8]), PlanFault>
    ensures { Gives (λ x. (x.0, x.1.now)) result (spec.items_at T.reader count bytes.now) }
{
    let mut items = Sequence::new(alloc);
    let mut rest = bytes;
    for _ in 0..count {
        let (item, after) = T::read(alloc, rest)?;
        items.push(item)?;
        rest = after;
    }
    Ok((items, rest))
}
