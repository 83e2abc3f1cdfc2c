//! One lane swept.
ghost use Rattle.std.specs.Prelude.{◌≡◌};
ghost use Rattle.hq_value.specs.Causes.{Rose, GoesOn};
ghost use Rattle.hq_lane.specs.BucketFiles.{KeepsBase, StaysIfClean};
ghost use Rattle.hq_lane.specs.Lanes.{EachFile, HaveNoSeal};
ghost use Rattle.hq_clean.specs.Sweeps.{Swept};

use hq_lane::Lane;
use hq_store::Store;
use hq_value::Failed;

/// The lane after one cut of each file that is torn or past its committed bytes, up to the first that fails. Whatever
/// fails, the committed bytes stay, and a file that is clean is left as it is.
pub fn sweep_one<S: Store>(store: &mut S, lane: Lane<S::File, S::Seal>) -> Lane<S::File, S::Seal>
    requires { HaveNoSeal lane.files }
    ensures lane { result ≡ record lane { files = result.files } }
    ensures swept { Swept S.File.tells lane.files result.files (Rose (S.faults store.old) (S.faults store.new)) }
    ensures kept { EachFile (KeepsBase S.File.tells) lane.files result.files }
    ensures still { EachFile StaysIfClean lane.files result.files }

    ensures store { GoesOn S.faults S.given S.sound store.old store.new }
{
    let mut lane = lane;
    match lane.cut_back(store) {
        Ok(()) => lane,
        Err(Failed) => lane,
    }
}
