//! An operator that is given its rows bit by bit.
ghost use Rattle.std.specs.Prelude.{◌≡◌, ◌++◌, [], List, IsTrue, IfOk, true};
ghost use Rattle.hq_value.specs.declared.value.Value.{Value as Datum};
ghost use Rattle.hq_algebra.specs.declared.op.Op.{Op as Operator};
ghost use Rattle.hq_ops.specs.declared.end.Stop.{Stop as Why};
ghost use Rattle.hq_ops.specs.Ends.{Gives, IsNumericAt, end_of};
ghost use Rattle.hq_ops.specs.Pipes.{gives, fails, is_streamed, takes_rows};
ghost use Rattle.hq_ops.specs.Taking.{HasTaken, HasTakenAfter, GivesRest, FailsFor, HasEnded, EndsAs};

use crate::OpEnd;
use crate::begin::begin;
use crate::end::{Stop, end_of};
use crate::rest::rest;
use crate::take::take;
use crate::work::Work;
use hq_algebra::Op;
use hq_value::{NoMemory, Row};
use std::alloc::Global;
use std::mem;

/// One operator of a slice, which is given its rows bit by bit. A Filter, a Project and a Join give at once what comes
/// of rows. The others give all at the end: Partial and Final keep what their aggregates have come to in each group,
/// Distinct the first of equal rows, and Sort all rows. The operator and a Join's right rows are borrowed.
#[derive(Drop)]
pub struct Pipe<'a> {
    alloc: Global,
    work: Work<'a>,
}

impl<'a> Pipe<'a> {
    /// The operator before any row; `build` has the right rows of a Join. The operator is no Scan and no Receive.
    pub fn new(alloc: Global, op: &'a Op, build: &'a [Row]) -> Result<Pipe<'a>, NoMemory>
        requires { IsTrue (takes_rows op.now) }
        ensures { IfOk result (HasTaken op.now build.now [] []) }
    {
        let work = begin(alloc, op, build)?;
        Ok(Pipe { alloc, work })
    }

    /// More rows, and what is given of them. Numeric only where an evaluation over some row so far faults, whatever rows
    /// follow. After an end without rows each later call ends so too.
    pub fn push(&mut self, rows: Vec<Row>) -> OpEnd
        ensures rows { (op : Operator) (build pushed given : List (List Datum)) → HasTaken op build pushed given self.old →
            HasTakenAfter op build (pushed ++ rows.items) given result self.new }
        ensures numeric { (op : Operator) (build pushed given more : List (List Datum)) → HasTaken op build pushed given self.old →
            FailsFor result (fails op (pushed ++ rows.items ++ more)) }
        ensures streamed { (op : Operator) (build pushed given : List (List Datum)) → HasTaken op build pushed given self.old →
            is_streamed op ≡ true → Gives result (gives op build rows.items) × IsNumericAt result (fails op rows.items) }
        ensures ends { EndsAs result self.new }
        ensures stays_ended { (why : Why) → HasEnded why self.old → result ≡ end_of why }
    {
        let work = mem::replace(&mut self.work, Work::Ended(Stop::NoMemory));
        match take(self.alloc, work, rows) {
            Ok((work, rows)) => {
                self.work = work;
                OpEnd::Rows(rows)
            }
            Err(stop) => {
                self.work = Work::Ended(stop);
                end_of(stop)
            }
        }
    }

    /// The rows that are left to give: with those given before they are the operator's rows over all that were pushed.
    /// Numeric exactly where an evaluation over these faults.
    pub fn finish(self) -> OpEnd
        ensures rows { (op : Operator) (build pushed given : List (List Datum)) → HasTaken op build pushed given self.entry →
            GivesRest result given (gives op build pushed) }
        ensures numeric { (op : Operator) (build pushed given : List (List Datum)) → HasTaken op build pushed given self.entry →
            IsNumericAt result (fails op pushed) }
        ensures streamed { (op : Operator) (build pushed given : List (List Datum)) → HasTaken op build pushed given self.entry →
            is_streamed op ≡ true → Gives result [] }
        ensures stays_ended { (why : Why) → HasEnded why self.entry → result ≡ end_of why }
    {
        let Pipe { alloc, work } = self;
        OpEnd::of(rest(alloc, work))
    }
}
