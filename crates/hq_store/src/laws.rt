//! Laws of files.
ghost use Rattle.std.specs.Prelude.{◌≡◌, ℕ, Bool, List, Result, OnOk, OnErr, IsErrOf};
ghost use Rattle.hq_value.specs.declared.entry.FileId.{FileId};
ghost use Rattle.hq_value.specs.declared.fault.Failed.{Failed as Failure};
ghost use Rattle.hq_store.specs.declared.store.StoreFault.{StoreFault as Fault};
ghost use Rattle.hq_store.specs.FileStep.{FileState, IsFresh, IsSame, IsSealed, HasNoTail};
ghost use Rattle.hq_store.specs.FileRun.{FileStep, FileRun, IsKept, KeepsSealed};
ghost use Rattle.hq_store.specs.Outcomes.{AfterAppend, AfterCut};

/// Whatever a call of a store answers, what it leaves of its file is one step of a file.
pub fn calls_are_steps()
    ensures append { (told : Bool) (old new : FileState) (added : List ℕ) (result : Result Unit Fault)
        → AfterAppend told old added result new → FileStep told old new }
    ensures cut { (told : Bool) (old new : FileState) (len : ℕ) (result : Result Unit Failure)
        → AfterCut told old len result new → FileStep told old new }
    ensures flush { (told : Bool) (old new : FileState) → IsSame told old new → FileStep told old new }
    ensures seal { (told : Bool) (old new : FileState) → HasNoTail told old → IsSealed told old new → FileStep told old new }
{}

/// Whatever calls of a store are made on a file, and whichever of them fail, the bytes under a seal stay, and the file
/// keeps its id.
pub fn sealed_bytes_stay()
    ensures fresh { (told : Bool) (id : FileId) (new : FileState) → IsFresh told id new → IsKept told new }
    ensures kept { (told : Bool) (old new : FileState) → IsKept told old → FileRun told old new → IsKept told new }
    ensures sealed { (told : Bool) (old new : FileState) → IsKept told old → FileRun told old new → KeepsSealed told old new }
    ensures id { (told : Bool) (old new : FileState) → FileRun told old new → new.id ≡ old.id }
{}
