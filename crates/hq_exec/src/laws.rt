//! Laws of slices, each the contract of a function that does nothing.
ghost use Rattle.std.specs.Prelude.{◌≡◌, ◌+◌, ◌||◌, true, None};
ghost use Rattle.std.specs.List.{list_all};
ghost use Rattle.hq_algebra.specs.declared.op.Op.{Op as Operator};
ghost use Rattle.hq_algebra.specs.Plans.{operators, filters_without_arith};
ghost use Rattle.hq_exec.specs.Builds.{builds_read, leaf_kept, leaf_reads};
ghost use Rattle.hq_exec.specs.Files.{HeldState, here};
ghost use Rattle.hq_exec.specs.Slices.{HasInputs, HasSeals, HasOwn, slice_rows, slice_fault, slice_reads};
ghost use Rattle.hq_exec.specs.Stages.{flowed, faulted, stages_of, builds_of, builds_fault};

/// The rows of the blocks that a scan does not skip, passed through the operators one after another, are the rows of the
/// slice, and an evaluation faults over them where one of the slice does. What is read for the right sides of the Joins and
/// of the leaf is all that is read.
pub fn skipping_keeps_the_slice()
    ensures rows { (h : HeldState) (o : Operator) → HasInputs h o → HasSeals h o → HasOwn h o →
        flowed (stages_of o (builds_of o (here h))) (leaf_kept o None h) ≡ slice_rows h o }
    ensures fault { (h : HeldState) (o : Operator) → HasInputs h o → HasSeals h o → HasOwn h o → list_all filters_without_arith (operators o) ≡ true →
        slice_fault h o ≡ (builds_fault o (here h) || faulted (stages_of o (builds_of o (here h))) (leaf_kept o None h)) }
    ensures reads { (h : HeldState) (o : Operator) → slice_reads h o ≡ builds_read o h + leaf_reads o None h }
{}
