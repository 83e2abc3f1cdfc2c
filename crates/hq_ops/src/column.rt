//! What an aggregate reads of each row, and how that comes together.
ghost use Rattle.std.specs.Prelude.{◌≡◌, ◌+◌, pos, false, IfOk, OnOk};
ghost use Rattle.hq_algebra.specs.Answer.{value_of};
ghost use Rattle.hq_algebra.specs.Eval.{column, value_at, faults_at};
ghost use Rattle.hq_meaning.specs.Aggregates.{one_for, plus, sooner, from_number};
ghost use Rattle.hq_meaning.specs.Halves.{whole};
ghost use Rattle.hq_ops.specs.Columns.{seen, joins, reads, reads_fault, given, leaves};
ghost use Rattle.hq_ops.specs.Ends.{StopsAt};
ghost use Rattle.hq_ops.specs.Folds.{order_of};
ghost use Rattle.hq_ops.specs.Parts.{listed};
ghost use Rattle.hq_ops.specs.Runnings.{sum_in, halves_in, best_in};

use crate::best::Extreme;
use crate::end::Stop;
use crate::halves::halves_at;
use crate::parts::{Parts, best_part, count_part, final_count, final_sum, half_parts};
use crate::running::Running;
use crate::standing::standing;
use hq_algebra::{Expr, Seen, look};
use hq_value::{Row, Value};

/// What an aggregate reads of each row: one for each row, or for each at which an expression is not NULL; the value of
/// an expression; a number, two halves or a value of a partial row, from a place on.
#[derive(Clone, Copy)]
pub enum Column<'a> {
    Rows,
    Present(&'a Expr),
    Sum(&'a Expr),
    Best(Extreme, &'a Expr),
    SumAt(u32),
    HalvesAt(u32),
    BestAt(Extreme, u32),
}

impl Column<'_> {
    /// Adds what is read of a row.
    pub fn add(&self, running: &mut Running, row: &Row) -> Result<(), Stop>
        ensures value { OnOk result (seen self.now running.new ≡ joins self.now (seen self.now running.old) (reads self.now row.now)) }
        ensures numeric { StopsAt result (reads_fault self.now row.now) }
    {
        match self {
            Column::Rows => add_one(running),
            Column::Present(e) => add_present(running, e, row),
            Column::Sum(e) => add_number(running, e, row),
            Column::Best(extreme, e) => add_best(running, *extreme, e, row),
            Column::SumAt(place) => add_at(running, row, *place),
            Column::HalvesAt(place) => add_halves(running, row, *place),
            Column::BestAt(extreme, place) => add_best_at(running, *extreme, row, *place),
        }
    }

    /// What stands for it in the rows that are given. Numeric where a count or a sum leaves 64 bits.
    pub fn parts(&self, running: &Running) -> Result<Parts, Stop>
        ensures parts { IfOk result (λ parts. listed parts ≡ given self.now (seen self.now running.now)) }
        ensures numeric { StopsAt result (leaves self.now (seen self.now running.now)) }
    {
        match self {
            Column::Rows => count_part(running),
            Column::Present(_) => count_part(running),
            Column::Sum(_) => half_parts(running),
            Column::Best(_, _) => best_part(running),
            Column::SumAt(_) => final_count(running),
            Column::HalvesAt(_) => final_sum(running),
            Column::BestAt(_, _) => best_part(running),
        }
    }
}

// The value at a place; NULL past the end, where no column of a plan is.
fn at_place(row: &Row, place: u32) -> Seen<'_>
    ensures { value_of result ≡ column row.now place }
{
    match row.as_slice().get(place as usize) {
        Some(value) => Seen::Kept(value),
        None => Seen::Made(Value::Null),
    }
}

// The value of an expression over a row, which is not copied.
#[inline]
fn looked<'a>(e: &'a Expr, row: &'a Row) -> Result<Seen<'a>, Stop>
    ensures value { IfOk result (λ seen. value_of seen ≡ value_at e.now row.now) }
    ensures numeric { StopsAt result (faults_at e.now row.now) }
{
    match standing(e, row.as_slice()) {
        Some(value) => Ok(Seen::Kept(value)),
        None => computed(e, row),
    }
}

fn computed<'a>(e: &'a Expr, row: &'a Row) -> Result<Seen<'a>, Stop>
    ensures value { IfOk result (λ seen. value_of seen ≡ value_at e.now row.now) }
    ensures numeric { StopsAt result (faults_at e.now row.now) }
{
    match look(e, row.as_slice()) {
        Some(seen) => Ok(seen),
        None => Err(Stop::Numeric),
    }
}

fn one_for(value: &Value) -> Value
    ensures { result ≡ one_for value.now }
{
    match value {
        Value::Null => Value::Null,
        _ => Value::Int(1),
    }
}

fn add_one(running: &mut Running) -> Result<(), Stop>
    ensures value { OnOk result (from_number (sum_in running.new) ≡ plus (from_number (sum_in running.old)) (Value.Int (pos 1))) }
    ensures numeric { StopsAt result false }
{
    let one = Value::Int(1);
    running.add_value(&one)?;
    Ok(())
}

fn add_at(running: &mut Running, row: &Row, place: u32) -> Result<(), Stop>
    ensures value { OnOk result (from_number (sum_in running.new) ≡ plus (from_number (sum_in running.old)) (column row.now place)) }
    ensures numeric { StopsAt result false }
{
    let seen = at_place(row, place);
    running.add_value(seen.get())?;
    Ok(())
}

fn add_best_at(running: &mut Running, extreme: Extreme, row: &Row, place: u32) -> Result<(), Stop>
    ensures value { OnOk result (best_in running.new ≡ sooner (order_of extreme) (best_in running.old) (column row.now place)) }
    ensures numeric { StopsAt result false }
{
    let seen = at_place(row, place);
    running.add_best(extreme, seen.get())?;
    Ok(())
}

fn add_present(running: &mut Running, e: &Expr, row: &Row) -> Result<(), Stop>
    ensures value { OnOk result (from_number (sum_in running.new) ≡ plus (from_number (sum_in running.old)) (one_for (value_at e.now row.now))) }
    ensures numeric { StopsAt result (faults_at e.now row.now) }
{
    let seen = looked(e, row)?;
    let one = one_for(seen.get());
    running.add_value(&one)?;
    Ok(())
}

fn add_number(running: &mut Running, e: &Expr, row: &Row) -> Result<(), Stop>
    ensures value { OnOk result (from_number (sum_in running.new) ≡ plus (from_number (sum_in running.old)) (value_at e.now row.now)) }
    ensures numeric { StopsAt result (faults_at e.now row.now) }
{
    let seen = looked(e, row)?;
    running.add_value(seen.get())?;
    Ok(())
}

fn add_best(running: &mut Running, extreme: Extreme, e: &Expr, row: &Row) -> Result<(), Stop>
    ensures value { OnOk result (best_in running.new ≡ sooner (order_of extreme) (best_in running.old) (value_at e.now row.now)) }
    ensures numeric { StopsAt result (faults_at e.now row.now) }
{
    let seen = looked(e, row)?;
    running.add_best(extreme, seen.get())?;
    Ok(())
}

fn add_halves(running: &mut Running, row: &Row, place: u32) -> Result<(), Stop>
    ensures value { OnOk result (from_number (halves_in running.new)
        ≡ plus (from_number (halves_in running.old)) (whole (column row.now place) (column row.now (place + 1)))) }
    ensures numeric { StopsAt result false }
{
    let more = halves_at(row, place);
    running.add_halves(more)?;
    Ok(())
}
