//! The pipes of an operator and of those below it.
ghost use Rattle.std.specs.Prelude.{◌≡◌, [], List, IsTrue, IfOk};
ghost use Rattle.hq_exec.specs.Builds.{lists_of};
ghost use Rattle.hq_exec.specs.Lines.{HasFlowed};
ghost use Rattle.hq_exec.specs.Stages as spec;
ghost use Rattle.hq_exec.specs.Stages.{Stage, stages_of, behind};
ghost use Rattle.hq_ops.specs.Pipes.{takes_rows};

use crate::inputs::{Inputs, inputs_of};
use hq_algebra::Op;
use hq_ops::Pipe;
use hq_value::{NoMemory, Row};
use std::alloc::Global;

/// The pipes from the leaf's to the operator's own. `builds` has the right rows of the Joins, the root's first. The call
/// is nested at most as deep as the operator.
pub fn pipes_of<'a>(
    alloc: Global,
    op: &'a Op,
    builds: &'a [Vec<Row>],
) -> Result<Vec<Pipe<'a>>, NoMemory>
    ensures { IfOk result (λ pipes. HasFlowed (stages_of op.now (lists_of builds.now)) pipes.items [] []) }
{
    match inputs_of(op) {
        Inputs::Alone => Ok(Vec::new(alloc)),
        Inputs::One(input, _) => {
            let pipes = pipes_of(alloc, input, builds)?;
            with_pipe(alloc, op, &[], pipes)
        }
        Inputs::Two(left, _) => {
            let pipes = pipes_of(alloc, left, others_of(builds))?;
            with_pipe(alloc, op, first_of(builds), pipes)
        }
    }
}

// The operator's pipe behind those below it.
fn with_pipe<'a>(
    alloc: Global,
    op: &'a Op,
    build: &'a [Row],
    pipes: Vec<Pipe<'a>>,
) -> Result<Vec<Pipe<'a>>, NoMemory>
    requires { IsTrue (takes_rows op.now) }
    ensures { IfOk result (λ all. (stages : List Stage) → HasFlowed stages pipes.entry.items [] [] → HasFlowed (behind stages op.now build.now) all.items [] []) }
{
    let mut pipes = pipes;
    let pipe = Pipe::new(alloc, op, build)?;
    pipes.push(pipe)?;
    Ok(pipes)
}

// The right rows of the first Join; none where there is no Join.
fn first_of(builds: &[Vec<Row>]) -> &[Row]
    ensures { result.now ≡ spec.first_of (lists_of builds.now) }
{
    match builds {
        [] => &[],
        [first, ..] => first.as_slice(),
    }
}

// Those of the others.
fn others_of(builds: &[Vec<Row>]) -> &[Vec<Row>]
    ensures { lists_of result.now ≡ spec.others_of (lists_of builds.now) }
{
    match builds {
        [] => builds,
        [_, others @ ..] => others,
    }
}
