//! The tests by which a Scan skips blocks.
ghost use Rattle.std.specs.Prelude.{◌≡◌, ◌++◌, slice_get, option_map, IfOk, OnOk};
ghost use Rattle.hq_algebra.specs.Steps.{is_null};
ghost use Rattle.hq_exec.specs.Skips.{test_on, tests_in, tests_under};
ghost use Rattle.hq_laws.specs.Sources.{column_of, literal_of};
ghost use Rattle.hq_laws.specs.Tests as spec;

use hq_algebra::{CompareKind, Expr};
use hq_block::ColumnTest;
use hq_value::{Kind, NoMemory, Value};
use std::alloc::Global;

/// The tests among the parts of the condition of the Filter directly above a Scan: the comparisons of a column of kind
/// Bool or Int with a value that is not NULL. The call is nested at most as deep as the condition.
pub fn tests_under(
    alloc: Global,
    kinds: &[Kind],
    above: Option<&Expr>,
) -> Result<Vec<ColumnTest>, NoMemory>
    ensures { IfOk result (λ tests. tests.items ≡ tests_under kinds.now (option_map (λ e. e.now) above.entry)) }
{
    match above {
        None => Ok(Vec::new(alloc)),
        Some(cond) => tests_in(alloc, kinds, cond),
    }
}

fn tests_in(alloc: Global, kinds: &[Kind], cond: &Expr) -> Result<Vec<ColumnTest>, NoMemory>
    ensures { IfOk result (λ tests. tests.items ≡ tests_in kinds.now cond.now) }
{
    let mut tests = Vec::new(alloc);
    add_tests(kinds, cond, &mut tests)?;
    Ok(tests)
}

fn add_tests(kinds: &[Kind], cond: &Expr, tests: &mut Vec<ColumnTest>) -> Result<(), NoMemory>
    ensures { OnOk result (tests.new.items ≡ tests.old.items ++ tests_in kinds.now cond.now) }
{
    match cond {
        Expr::And { left, right } => {
            add_tests(kinds, left.get(), tests)?;
            add_tests(kinds, right.get(), tests)
        }
        Expr::Compare { kind, left, right } => {
            add_test(kinds, *kind, left.get(), right.get(), tests)
        }
        Expr::Column(_) => Ok(()),
        Expr::Literal(_) => Ok(()),
        Expr::Arith { .. } => Ok(()),
        Expr::Or { .. } => Ok(()),
        Expr::Not(_) => Ok(()),
        Expr::IsNull(_) => Ok(()),
    }
}

fn add_test(
    kinds: &[Kind],
    compare: CompareKind,
    left: &Expr,
    right: &Expr,
    tests: &mut Vec<ColumnTest>,
) -> Result<(), NoMemory>
    ensures { OnOk result (tests.new.items ≡ tests.old.items ++ test_on kinds.now compare (column_of left.now) (literal_of right.now)) }
{
    match (left, right) {
        (Expr::Column(column), Expr::Literal(value)) => {
            if is_ranged(kinds, *column) && !is_null(value) {
                tests.push(ColumnTest {
                    column: *column,
                    compare,
                    value: value.copy()?,
                })?;
            }
            Ok(())
        }
        _ => Ok(()),
    }
}

fn is_ranged(kinds: &[Kind], column: u16) -> bool
    ensures { result ≡ spec.is_ranged (slice_get kinds.now column) }
{
    match kinds.get(column as usize) {
        Some(Kind::Bool) => true,
        Some(Kind::Int) => true,
        _ => false,
    }
}

fn is_null(value: &Value) -> bool
    ensures { result ≡ is_null value.now }
{
    matches!(value, Value::Null)
}
