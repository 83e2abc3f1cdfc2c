//! What stands for an aggregate in the rows that are given.
ghost use Rattle.std.specs.Prelude.{◌≡◌, [], ◌∷◌, ◌++◌, IfOk, OnOk, false};
ghost use Rattle.hq_meaning.specs.Aggregates.{or_zero, is_out, from_number};
ghost use Rattle.hq_meaning.specs.Halves as spec;
ghost use Rattle.hq_ops.specs.Ends.{StopsAt};
ghost use Rattle.hq_ops.specs.Parts.{listed};
ghost use Rattle.hq_ops.specs.Runnings.{sum_in, halves_in, best_in};

use crate::end::Stop;
use crate::halves::in_64;
use crate::running::Running;
use hq_value::{NoMemory, Row, Value};

/// One value, or the two halves of a sum.
#[derive(Debug, Drop)]
pub enum Parts {
    One(Value),
    Halves { high: Value, low: Value },
}

impl Parts {
    /// Adds the values to a row.
    pub fn push_to(self, row: &mut Row) -> Result<(), NoMemory>
        ensures { OnOk result (row.new ≡ row.old ++ listed self) }
    {
        match self {
            Parts::One(value) => row.push(value)?,
            Parts::Halves { high, low } => {
                row.push(high)?;
                row.push(low)?;
            }
        }
        Ok(())
    }
}

/// The count, which is 0 over nothing. One that leaves 64 bits takes more rows than there are.
pub fn count_part(running: &Running) -> Result<Parts, Stop>
    ensures parts { IfOk result (λ parts. listed parts ≡ or_zero (from_number (sum_in running.now)) ∷ []) }
    ensures numeric { StopsAt result false }
{
    match running.sum() {
        Some(count) => one_count(count),
        None => Ok(Parts::One(Value::Int(0))),
    }
}

fn one_count(count: i128) -> Result<Parts, Stop>
    ensures parts { IfOk result (λ parts. listed parts ≡ Value.Int count ∷ []) }
    ensures numeric { StopsAt result false }
{
    match i64::try_from(count) {
        Ok(count) => Ok(Parts::One(Value::Int(count))),
        Err(_) => Err(Stop::NoMemory),
    }
}

const HALF: i128 = 0x8000_0000_0000_0000;

/// A sum as two halves: so often 2^63, and what is left; two NULLs over nothing. A high half that leaves 64 bits takes
/// more rows than there are.
pub fn half_parts(running: &Running) -> Result<Parts, Stop>
    ensures parts { IfOk result (λ parts. listed parts ≡ spec.halves (from_number (sum_in running.now))) }
    ensures numeric { StopsAt result false }
{
    match running.sum() {
        Some(sum) => two_halves(sum),
        None => Ok(Parts::Halves {
            high: Value::Null,
            low: Value::Null,
        }),
    }
}

fn two_halves(sum: i128) -> Result<Parts, Stop>
    ensures parts { IfOk result (λ parts. listed parts ≡ spec.halves (Value.Int sum)) }
    ensures numeric { StopsAt result false }
{
    match i64::try_from(sum.div_euclid(HALF)) {
        Ok(high) => Ok(Parts::Halves {
            high: Value::Int(high),
            low: Value::Int(sum.rem_euclid(HALF) as i64),
        }),
        Err(_) => Err(Stop::NoMemory),
    }
}

/// The value that comes first.
pub fn best_part(running: &Running) -> Result<Parts, Stop>
    ensures parts { IfOk result (λ parts. listed parts ≡ best_in running.now ∷ []) }
    ensures numeric { StopsAt result false }
{
    let best = running.best()?;
    Ok(Parts::One(best))
}

/// The sum of partial counts, which is 0 over nothing. Numeric where it leaves 64 bits.
pub fn final_count(running: &Running) -> Result<Parts, Stop>
    ensures parts { IfOk result (λ parts. listed parts ≡ or_zero (from_number (sum_in running.now)) ∷ []) }
    ensures numeric { StopsAt result (is_out (or_zero (from_number (sum_in running.now)))) }
{
    match running.sum() {
        Some(count) => match i64::try_from(count) {
            Ok(count) => Ok(Parts::One(Value::Int(count))),
            Err(_) => Err(Stop::Numeric),
        },
        None => Ok(Parts::One(Value::Int(0))),
    }
}

/// The sum of halves, NULL over nothing. Numeric where it leaves 64 bits.
pub fn final_sum(running: &Running) -> Result<Parts, Stop>
    ensures parts { IfOk result (λ parts. listed parts ≡ from_number (halves_in running.now) ∷ []) }
    ensures numeric { StopsAt result (is_out (from_number (halves_in running.now))) }
{
    match running.halves() {
        Some(sum) => match in_64(sum) {
            Some(sum) => Ok(Parts::One(Value::Int(sum))),
            None => Err(Stop::Numeric),
        },
        None => Ok(Parts::One(Value::Null)),
    }
}
