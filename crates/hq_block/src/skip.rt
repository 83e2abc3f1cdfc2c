//! Blocks that no row of which can pass.
ghost use Rattle.std.specs.Prelude.{◌≡◌};
ghost use Rattle.std.specs.List.{list_any};
ghost use Rattle.hq_block.specs.Skipping as exact;

use crate::bounds::Bounds;
use crate::head::BlockHead;
use hq_value::{CompareKind, Value, compare_values};

/// A test of a condition: the column at this place is compared with a value.
#[derive(Debug, Drop)]
pub struct ColumnTest {
    pub column: u16,
    pub compare: CompareKind,
    pub value: Value,
}

fn is_outside(compare: CompareKind, least: &Value, greatest: &Value, value: &Value) -> bool
    ensures { result ≡ exact.is_outside compare least.now greatest.now value.now }
{
    match compare {
        CompareKind::Equal => {
            compare_values(value, least).is_lt() || compare_values(value, greatest).is_gt()
        }
        CompareKind::NotEqual => {
            compare_values(least, value).is_eq() && compare_values(greatest, value).is_eq()
        }
        CompareKind::Less => compare_values(least, value).is_ge(),
        CompareKind::AtMost => compare_values(least, value).is_gt(),
        CompareKind::Greater => compare_values(greatest, value).is_le(),
        CompareKind::AtLeast => compare_values(greatest, value).is_lt(),
    }
}

fn excludes(bounds: &[Bounds], test: &ColumnTest) -> bool
    ensures { result ≡ exact.excludes bounds.now test.now }
{
    match bounds.get(test.column as usize) {
        None => true,
        Some(Bounds::Text) => false,
        Some(Bounds::Empty) => true,
        Some(Bounds::Range { least, greatest }) => {
            is_outside(test.compare, least, greatest, &test.value)
        }
    }
}

fn some_excludes(bounds: &[Bounds], tests: &[ColumnTest]) -> bool
    ensures { result ≡ list_any (exact.excludes bounds.now) tests.now }
{
    tests.iter().any(|test| excludes(bounds, test))
}

/// Whether no row of a block of this head passes all tests, as its bounds show. A block without bounds is never
/// skipped.
pub fn skips(tests: &[ColumnTest], head: &BlockHead) -> bool
    ensures { result ≡ exact.skips tests.now head.now.bounds }
{
    let bounds = head.bounds.as_slice();
    !bounds.is_empty() && some_excludes(bounds, tests)
}
