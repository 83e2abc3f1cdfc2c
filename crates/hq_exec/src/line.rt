//! Rows pushed through pipes.
ghost use Rattle.std.specs.Prelude.{◌≡◌, ◌<◌, ◌≤◌, ◌++◌, ℕ, Bool, true, false, [], List, Ok, Err, IfOk, OnOk, IsErrOf, IsTrue, vec_len, length};
ghost use Rattle.hq_value.specs.declared.value.Value.{Value as Datum};
ghost use Rattle.hq_value.specs.declared.kind.Kind.{Kind as Sort};
ghost use Rattle.hq_fits.specs.Supplied.{AreFit};
ghost use Rattle.hq_exec.specs.Given.{end_as};
ghost use Rattle.hq_exec.specs.Lines.{HasFlowed, HasPassed, CanPush, CanPass, Pushed, WasPassed, HasRun, CanTake, Takes, Finishes, Drained, line_state};
ghost use Rattle.hq_exec.specs.Stages.{Stage, faulted};

use crate::end::Halt;
use crate::out::RowOut;
use hq_ops::{OpEnd, Pipe};
use hq_value::{NoMemory, Row};

/// The pipes of a slice, from the leaf's to the root's, and whether an evaluation has faulted.
#[derive(Drop)]
pub struct Line<'a> {
    pub pipes: Vec<Pipe<'a>>,
    pub failed: bool,
}

/// Pushes rows to the first pipe, what it gives to the next one, and so on; what the last one gives is put. Nothing
/// happens where an evaluation has faulted.
pub fn take<O: RowOut>(line: &mut Line, rows: Vec<Row>, out: &mut O) -> Result<(), NoMemory>
    requires { (kinds : List Sort) × CanTake kinds (line_state line.old (O.state out.old)) × AreFit kinds rows.items }
    ensures takes { (kinds : List Sort) → AreFit kinds rows.items → OnOk result (Takes kinds rows.items
        (line_state line.old (O.state out.old)) (line_state line.new (O.state out.new))) }
    ensures can { (kinds : List Sort) → AreFit kinds rows.items → CanTake kinds (line_state line.old (O.state out.old)) →
        OnOk result (CanTake kinds (line_state line.new (O.state out.new))) }
    ensures stays { line.old.failed ≡ true → line.new.failed ≡ true }
    ensures kinds { (O.state out.new).kinds ≡ (O.state out.old).kinds }
{
    if line.failed {
        return Ok(());
    }
    match push_all(&mut line.pipes, rows, out) {
        Ok(()) => Ok(()),
        Err(Halt::Numeric) => {
            line.failed = true;
            Ok(())
        }
        Err(Halt::NoMemory) => Err(NoMemory),
    }
}

/// Finishes the pipes, from the first to the last, and tells whether an evaluation faulted.
pub fn finish<O: RowOut>(line: Line, out: &mut O) -> Result<bool, NoMemory>
    requires { (kinds : List Sort) × CanTake kinds (line_state line (O.state out.old)) }
    ensures ends { (kinds found : List Sort) (stages : List Stage) (pushed put : List (List Datum)) →
        HasRun kinds found stages pushed put line.entry.failed line.entry.pipes.items →
        IfOk result (λ fault. Finishes fault found stages pushed put (O.state out.old) (O.state out.new)) }
    ensures kinds { (O.state out.new).kinds ≡ (O.state out.old).kinds }
{
    let Line { pipes, failed } = line;
    if failed {
        return Ok(true);
    }
    match finish_all(pipes, out) {
        Ok(()) => Ok(false),
        Err(Halt::Numeric) => Ok(true),
        Err(Halt::NoMemory) => Err(NoMemory),
    }
}

// What an operator gives.
fn given(end: OpEnd) -> Result<Vec<Row>, Halt>
    ensures { end ≡ end_as result }
{
    match end {
        OpEnd::Rows(rows) => Ok(rows),
        OpEnd::Numeric => Err(Halt::Numeric),
        OpEnd::NoMemory => Err(Halt::NoMemory),
    }
}

fn push_all<O: RowOut>(pipes: &mut Vec<Pipe>, rows: Vec<Row>, out: &mut O) -> Result<(), Halt>
    requires { CanPush pipes.old.items rows.items (O.state out.old).kinds }
    ensures pushed { Pushed result rows.items pipes.old.items pipes.new.items (O.state out.old) (O.state out.new) }
    ensures kinds { (O.state out.new).kinds ≡ (O.state out.old).kinds }
{
    push_from(pipes, 0, rows, out)
}

// The pipes before this one have given the rows.
fn push_from<O: RowOut>(
    pipes: &mut Vec<Pipe>,
    at: usize,
    rows: Vec<Row>,
    out: &mut O,
) -> Result<(), Halt>
    requires within { at ≤ vec_len pipes.old }
    requires can { CanPass at pipes.old.items rows.items (O.state out.old).kinds }
    ensures passed { WasPassed result at rows.items pipes.old.items pipes.new.items (O.state out.old) (O.state out.new) }
    ensures kinds { (O.state out.new).kinds ≡ (O.state out.old).kinds }
{
    if at == pipes.len() {
        out.put(rows)?;
        return Ok(());
    }
    let pipe = &mut pipes[at];
    let rows = given(pipe.push(rows))?;
    push_from(pipes, at + 1, rows, out)
}

fn finish_all<O: RowOut>(pipes: Vec<Pipe>, out: &mut O) -> Result<(), Halt>
    requires { CanPush pipes.items [] (O.state out.old).kinds }
    ensures drained { Drained result pipes.entry.items (O.state out.old) (O.state out.new) }
    ensures kinds { (O.state out.new).kinds ≡ (O.state out.old).kinds }
{
    let mut pipes = pipes;
    if pipes.is_empty() {
        return Ok(());
    }
    let pipe = pipes.remove(0);
    let rows = given(pipe.finish())?;
    push_all(&mut pipes, rows, out)?;
    finish_all(pipes, out)
}
