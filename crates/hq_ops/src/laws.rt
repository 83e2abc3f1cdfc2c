//! A law of pipes, the contract of a function that does nothing.
ghost use Rattle.std.specs.Prelude.{◌++◌, List};
ghost use Rattle.hq_value.specs.declared.value.Value.{Value as Datum};
ghost use Rattle.hq_algebra.specs.declared.op.Op.{Op as Operator};
ghost use Rattle.hq_ops.specs.declared.pipe.Pipe.{Pipe as ThePipe};
ghost use Rattle.hq_ops.specs.Pipes.{gives};
ghost use Rattle.hq_ops.specs.Taking.{HasTaken, IsFirstOf};

/// What a pipe has given is the first of what its operator gives, whatever rows follow.
pub fn what_a_pipe_gave_stays()
    ensures { (op : Operator) (build pushed given more : List (List Datum)) (pipe : ThePipe) → HasTaken op build pushed given pipe →
        IsFirstOf given (gives op build (pushed ++ more)) }
{}
