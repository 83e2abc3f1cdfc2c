//! What an aggregate has come to over the rows so far.
ghost use Rattle.std.specs.Prelude.{◌≡◌, ◌+ℤ◌, IfOk, OnOk, IfSome, Some};
ghost use Rattle.std.specs.Ordering.{is_gt};
ghost use Rattle.hq_meaning.specs.Aggregates.{plus, sum_of, sooner, from_number};
ghost use Rattle.hq_ops.specs.Folds.{number_of, order_of};
ghost use Rattle.hq_ops.specs.Runnings.{sum_in, halves_in, best_in};

use crate::best::Extreme;
use crate::halves::add_totals;
use crate::total::Total;
use hq_value::{NoMemory, Value};

/// What an aggregate has come to: nothing, a sum, a sum in two parts, or the value that comes first.
#[derive(Debug, Drop)]
pub enum Running {
    Nothing,
    Sum(i128),
    Halves(Total),
    Best(Value),
}

impl Running {
    /// Adds a value to the sum; what is no number adds nothing.
    pub fn add_value(&mut self, value: &Value) -> Result<(), NoMemory>
        ensures { OnOk result (from_number (sum_in self.new) ≡ plus (from_number (sum_in self.old)) value.now) }
    {
        match value {
            Value::Int(n) => self.add_number(*n),
            _ => Ok(()),
        }
    }

    /// Adds halves to the sum in two parts.
    pub fn add_halves(&mut self, more: Option<Total>) -> Result<(), NoMemory>
        ensures { OnOk result (halves_in self.new ≡ sum_of (halves_in self.old) (number_of more)) }
    {
        match more {
            Some(more) => self.add_total(more),
            None => Ok(()),
        }
    }

    /// Keeps the value if it comes before the one so far.
    pub fn add_best(&mut self, extreme: Extreme, value: &Value) -> Result<(), NoMemory>
        ensures { OnOk result (best_in self.new ≡ sooner (order_of extreme) (best_in self.old) value.now) }
    {
        if self.is_behind(extreme, value) {
            *self = Running::Best(value.copy()?);
        }
        Ok(())
    }

    /// The sum, if there is one.
    pub fn sum(&self) -> Option<i128>
        ensures { result ≡ sum_in self.now }
    {
        match self {
            Running::Sum(sum) => Some(*sum),
            _ => None,
        }
    }

    /// The sum in two parts, if there is one.
    pub fn halves(&self) -> Option<Total>
        ensures { number_of result ≡ halves_in self.now }
    {
        match self {
            Running::Halves(total) => Some(*total),
            _ => None,
        }
    }

    /// The value that comes first, NULL where there is none.
    pub fn best(&self) -> Result<Value, NoMemory>
        ensures { IfOk result (λ value. value ≡ best_in self.now) }
    {
        match self {
            Running::Best(value) => value.copy(),
            _ => Ok(Value::Null),
        }
    }

    fn add_number(&mut self, n: i64) -> Result<(), NoMemory>
        ensures { OnOk result (sum_in self.new ≡ sum_of (sum_in self.old) (Some n)) }
    {
        match self {
            Running::Sum(sum) => add_to_sum(sum, n),
            _ => {
                *self = Running::Sum(n as i128);
                Ok(())
            }
        }
    }

    fn add_total(&mut self, more: Total) -> Result<(), NoMemory>
        ensures { OnOk result (halves_in self.new ≡ sum_of (halves_in self.old) (number_of (Some more))) }
    {
        let Some(total) = self.total_with(more) else {
            return Err(NoMemory);
        };
        *self = Running::Halves(total);
        Ok(())
    }

    fn total_with(&self, more: Total) -> Option<Total>
        ensures { IfSome result (λ total. sum_of (halves_in self.now) (number_of (Some more)) ≡ number_of (Some total)) }
    {
        match self {
            Running::Halves(total) => add_totals(*total, more),
            _ => Some(more),
        }
    }

    fn is_behind(&self, extreme: Extreme, value: &Value) -> bool
        ensures { result ≡ is_gt (order_of extreme (best_in self.now) value.now) }
    {
        match self {
            Running::Best(best) => extreme.compare(best, value).is_gt(),
            _ => extreme.compare(&Value::Null, value).is_gt(),
        }
    }
}

// The sum with a number more. No such sum is kept where it leaves 128 bits, which takes more rows than there are.
#[inline]
fn add_to_sum(sum: &mut i128, n: i64) -> Result<(), NoMemory>
    ensures { OnOk result (sum.new ≡ sum.old +ℤ n) }
{
    match sum.checked_add(n as i128) {
        Some(more) => {
            *sum = more;
            Ok(())
        }
        None => Err(NoMemory),
    }
}
