//! What goes through the store of node 0, whatever the marks say.
ghost use Rattle.std.specs.Prelude.{◌≡◌, ◌⊎◌, ◌<◌, ◌∷◌, ℕ, [], true, false, length, drop, IfOk, IfErr, IfSome, IsNone, OnOk, OnErr};
ghost use Rattle.hq_value.specs.Causes.{Rose};
ghost use Rattle.hq_lane.specs.BucketFiles.{KeepsBase};
ghost use Rattle.hq_lane.specs.Lanes.{EachFile, AreClean, are_clean};
ghost use Rattle.hq_clean.specs.Sweeps.{Swept};
ghost use Rattle.hq_txn.specs.Transactions.{lane_at, IsPrepared, IsUnsealed};
ghost use Rattle.hq_turns.specs.Counts.{counts_of, Later, IsCause};

use hq_detect::{Benches, Host};
use hq_lane::Lane;
use hq_link::Link;
use hq_reply::Fault;
use hq_store::{SealCopy, Store, StoreFault, StoredFile};
use hq_txn::{Txn, TxnState};

/// Hands out the lane that was lent first, after one cut. The transaction has failed then; where no lane is left it is idle.
pub fn abort_first<F: StoredFile, Z: SealCopy, S: Store<File = F, Seal = Z>, H: Host, L: Link>(
    txn: &mut Txn<F, Z>,
    benches: &mut Benches<S, H, L>,
) -> Option<Lane<F, Z>>
    requires { 0 < length benches.old.items }
    ensures none { IsNone result → txn.old.lanes ≡ [] }
    ensures idle { IsNone result → txn.new ≡ record txn.old { state = TxnState.Idle } }
    ensures there { IfSome result (λ _. txn.old.lanes ≡ lane_at txn.old.lanes 0 ∷ txn.new.lanes) }
    ensures failed { IfSome result (λ _. txn.new ≡ record txn.old { state = TxnState.Failed; lanes = drop 1 txn.old.lanes; spare = txn.new.spare }) }
    ensures first { IfSome result (λ lane. lane ≡ record (lane_at txn.old.lanes 0) { files = lane.files }) }
    ensures kept { IfSome result (λ lane. EachFile (KeepsBase F.tells) (lane_at txn.old.lanes 0).files lane.files) }
    ensures cut { IfSome result (λ lane. Swept F.tells (lane_at txn.old.lanes 0).files lane.files
        (Rose ((counts_of S.faults H.checks H.faults L.state benches.old.items).stores 0) ((counts_of S.faults H.checks H.faults L.state benches.new.items).stores 0))) }
    ensures tail { IfSome result (λ lane. are_clean lane.files ≡ false
        → Rose ((counts_of S.faults H.checks H.faults L.state benches.old.items).stores 0) ((counts_of S.faults H.checks H.faults L.state benches.new.items).stores 0)) }
    ensures later { Later (counts_of S.faults H.checks H.faults L.state benches.old.items) (counts_of S.faults H.checks H.faults L.state benches.new.items) }
{
    let bench = &mut benches[0];
    match txn.abort_one(&mut bench.store) {
        Some(lane) => {
            tells_if_clean(&lane);
            Some(lane)
        }
        None => None,
    }
}

// A lane of which each file has just its committed bytes is clean.
fn tells_if_clean<F: StoredFile, Z: SealCopy>(lane: &Lane<F, Z>)
    ensures { AreClean lane.now.files → are_clean lane.now.files ≡ true }
{
    let _clean = lane.is_clean();
}

/// Flushes and seals all lanes and hands them out. A fault seals none, and the transaction has failed then.
pub fn prepare_first<F: StoredFile, Z: SealCopy, S: Store<File = F, Seal = Z>, H: Host, L: Link>(
    txn: &mut Txn<F, Z>,
    benches: &mut Benches<S, H, L>,
) -> Result<Vec<Lane<F, Z>>, Fault>
    requires some { 0 < length benches.old.items }
    requires open { txn.old.state ≡ TxnState.Open }
    ensures count { IfOk result (λ lanes. length lanes.items ≡ length txn.old.lanes) }
    ensures prepared { IfOk result (λ lanes. (n : ℕ) → n < length txn.old.lanes
        → IsPrepared F.tells Z.tells (lane_at txn.old.lanes n) (lane_at lanes.items n)) }
    ensures idle { OnOk result (txn.new ≡ record txn.old { state = TxnState.Idle; lanes = []; spare = 0 }) }
    ensures failed { OnErr result (txn.new ≡ record txn.old { state = TxnState.Failed; lanes = txn.new.lanes }) }
    ensures kept { OnErr result (length txn.new.lanes ≡ length txn.old.lanes) }
    ensures unsealed { OnErr result ((n : ℕ) → n < length txn.old.lanes → IsUnsealed F.tells (lane_at txn.old.lanes n) (lane_at txn.new.lanes n)) }
    ensures why { IfErr result (λ why. (why ≡ Fault.Store) ⊎ (why ≡ Fault.NoMemory)) }
    ensures cause { IfErr result (λ why. IsCause (counts_of S.faults H.checks H.faults L.state benches.old.items) (counts_of S.faults H.checks H.faults L.state benches.new.items) why) }
    ensures later { Later (counts_of S.faults H.checks H.faults L.state benches.old.items) (counts_of S.faults H.checks H.faults L.state benches.new.items) }
{
    let bench = &mut benches[0];
    match txn.prepare_commit(&mut bench.store) {
        Ok(lanes) => Ok(lanes),
        Err(StoreFault::Failed) => Err(Fault::Store),
        Err(StoreFault::NoMemory) => Err(Fault::NoMemory),
    }
}
