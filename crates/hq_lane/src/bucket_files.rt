//! What is done to all files of a lane in order.
ghost use Rattle.std.specs.Prelude.{◌≡◌, ◌<◌, ◌≤◌, ◌↔◌, ℕ, true, false, length, IsTrue, OnOk, OnErr, IsErrOf};
ghost use Rattle.hq_value.specs.Causes.{Rose, GoesOn};
ghost use Rattle.hq_lane.specs.BucketFiles.{file_bytes, base_bytes, IsCutBack, KeepsBase, StaysIfClean, KeepsBytes, IsFlushed, KeepsFile};
ghost use Rattle.hq_lane.specs.Lanes.{file_of, EachFile, are_clean, AreWhole, AreFlushed, AreSealed, HaveNoSeal, StopsAt};

use crate::slot::Slots;
use hq_store::{SealCopy, Store, StoreFault, StoredFile};
use hq_value::{BUCKETS, Failed};

/// Whether each has just its committed bytes.
pub(crate) fn all_clean<F: StoredFile, Z: SealCopy>(files: &Slots<F, Z>) -> bool
    ensures clean { result ≡ are_clean files.now }
    ensures sixteen { length files.now ≡ 16 }
    ensures just { IsTrue result → IsTrue F.tells → (b : ℕ) → b < 16
        → file_bytes (file_of files.now b).file ≡ base_bytes (file_of files.now b) }
{
    for file in files {
        if !file.is_clean() {
            return false;
        }
    }
    true
}

/// Cuts each back, and stops at the first failure.
pub(crate) fn cut_all<F: StoredFile, Z: SealCopy, S: Store<File = F, Seal = Z>>(
    files: &mut Slots<F, Z>,
    store: &mut S,
) -> Result<(), Failed>
    requires { HaveNoSeal files.old }
    ensures cut { OnOk result (EachFile (IsCutBack F.tells) files.old files.new) }
    ensures stopped { OnErr result (StopsAt F.tells files.old files.new) }
    ensures kept { EachFile (KeepsBase F.tells) files.old files.new }
    ensures still { EachFile StaysIfClean files.old files.new }

    ensures cause { OnErr result (Rose (S.faults store.old) (S.faults store.new)) }
    ensures store { GoesOn S.faults S.given S.sound store.old store.new }
{
    for i in 0..BUCKETS {
        files[i].cut_back(store)?;
    }
    Ok(())
}

/// Flushes each that has grown, and stops at the first fault.
pub(crate) fn flush_each<F: StoredFile, Z: SealCopy, S: Store<File = F, Seal = Z>>(
    files: &mut Slots<F, Z>,
    store: &mut S,
) -> Result<(), StoreFault>
    requires { AreWhole files.old }
    ensures flushed { OnOk result ((b : ℕ) → b < 16 → IsFlushed (file_of files.new b)) }
    ensures kept { EachFile (KeepsBytes F.tells) files.old files.new }

    ensures cause { IsErrOf result StoreFault.Failed → Rose (S.faults store.old) (S.faults store.new) }
    ensures store { GoesOn S.faults S.given S.sound store.old store.new }
{
    for i in 0..BUCKETS {
        files[i].flush(store)?;
    }
    Ok(())
}

/// Seals each that has grown.
pub(crate) fn seal_each<F: StoredFile, Z: SealCopy, S: Store<File = F, Seal = Z>>(
    files: &mut Slots<F, Z>,
    store: &mut S,
)
    requires { AreFlushed files.old }
    ensures sealed { AreSealed F.tells Z.tells files.new }
    ensures kept { EachFile (KeepsFile F.tells) files.old files.new }

    ensures no_fault { S.faults store.new ≡ S.faults store.old }
    ensures store { GoesOn S.faults S.given S.sound store.old store.new }
{
    for i in 0..BUCKETS {
        files[i].seal(store);
    }
}
