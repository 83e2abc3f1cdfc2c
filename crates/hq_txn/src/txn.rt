//! A transaction.
ghost use Rattle.std.specs.Prelude.{◌≡◌, ◌+◌, ◌<◌, ◌≤◌, ◌++◌, ◌∷◌, ◌↔◌, ℕ, [], true, false, All, length, drop, vec_len, IsTrue, IfOk, IfSome, IsNone, OnOk, OnErr, IsErrOf};
ghost use Rattle.hq_value.specs.Causes.{Rose, IsSteady, GoesOn};
ghost use Rattle.hq_value.specs.Kinds.{Fits, kinds_of};
ghost use Rattle.hq_value.specs.Marks.{some_up};
ghost use Rattle.hq_lane.specs.BucketFiles.{KeepsBase, StaysIfClean};
ghost use Rattle.hq_lane.specs.Lanes.{AreClean, AreWhole, HaveNoSeal, EachFile};
ghost use Rattle.hq_clean.specs.Sweeps.{Swept};
ghost use Rattle.hq_txn.specs.Each.{At, Each};
ghost use Rattle.hq_txn.specs.Ends.{StoreFailed, HostFailed, AreWholeBefore};
ghost use Rattle.hq_txn.specs.InUse.{IsInUse, HasAnswered, HasFailed};
ghost use Rattle.hq_txn.specs.Transactions.{lane_at, has_lane, lane_of, with_lane, IsPrepared, IsUnsealed};
ghost use Rattle.hq_txn.specs.Writes.{AddsRows, AddsFirst, GainsRows};

use crate::lanes::{find_lane, is_there};
use crate::moves::push_sure;
use crate::prepare::{flush_lanes, seal_lanes};
use crate::state::{TxnState, WriteEnd};
use crate::write::write_lane;
use hq_clean::sweep_one;
use hq_detect::{Benches, Host};
use hq_lane::Lane;
use hq_store::{SealCopy, Store, StoreFault, StoredFile};
use hq_value::{Marks, NoMemory, Row, TableDef};
use std::alloc::Global;
use std::marker::Model;
use std::mem;
use std::thread::Threads;

/// A transaction and its lanes, one of each table that it has written, in the order in which they were lent. It must be spent
/// by `close`, when its lanes are handed out.
pub struct Txn<F: StoredFile, Z: SealCopy> {
    alloc: Global,
    state: TxnState,
    snapshot: bool,
    lanes: Vec<Lane<F, Z>>,
}

impl<F: StoredFile, Z: SealCopy> Model for Txn<F, Z> {
    ghost use Rattle.std.specs.Prelude.{◌-◌, vec_len, vec_capacity};
    ghost use Rattle.hq_txn.specs.Transactions.{Transaction, IsTransaction};

    ghost Value = { Transaction };

    ghost view = { λ t. record { state = t.state; snapshot = t.snapshot; lanes = t.lanes.items; spare = vec_capacity t.lanes - vec_len t.lanes } };

    ghost invariant = { λ t. IsTransaction t.state t.lanes.items };
}

impl<F: StoredFile, Z: SealCopy> Txn<F, Z> {
    /// An idle transaction without lanes.
    pub fn new(alloc: Global) -> Self
        ensures { result ≡ record { state = TxnState.Idle; snapshot = false; lanes = []; spare = 0 } }
    {
        Txn {
            alloc,
            state: TxnState::Idle,
            snapshot: false,
            lanes: Vec::new(alloc),
        }
    }

    /// Where it stands.
    pub fn state(&self) -> TxnState
        ensures { result ≡ self.now.state }
    {
        self.state
    }

    /// Whether its first look stands for all of it.
    pub fn is_snapshot(&self) -> bool
        ensures { result ≡ self.now.snapshot }
    {
        self.snapshot
    }

    /// Opens it.
    pub fn begin(&mut self, snapshot: bool)
        requires { self.old.state ≡ TxnState.Idle }
        ensures { self.new ≡ record self.old { state = TxnState.Open; snapshot = snapshot } }
    {
        self.state = TxnState::Open;
        self.snapshot = snapshot;
    }

    /// It has failed, and keeps its lanes.
    pub fn fail(&mut self)
        requires { self.old.state ≡ TxnState.Open }
        ensures { self.new ≡ record self.old { state = TxnState.Failed } }
    {
        self.state = TxnState::Failed;
    }

    /// Makes room for one lane more. Without memory nothing changes.
    pub fn reserve(&mut self) -> Result<(), NoMemory>
        ensures same { self.new ≡ record self.old { spare = self.new.spare } }
        ensures room { OnOk result (1 ≤ self.new.spare) }
        ensures never_lower { self.old.spare ≤ self.new.spare }
        ensures err { OnErr result (self.new ≡ self.old) }
    {
        Ok(self.lanes.reserve(1)?)
    }

    /// Takes a lane into hand, as the last one.
    pub fn take(&mut self, lane: Lane<F, Z>)
        requires open { self.old.state ≡ TxnState.Open }
        requires room { 1 ≤ self.old.spare }
        requires clean { AreClean lane.files }
        requires no_seal { HaveNoSeal lane.files }
        requires new_table { has_lane self.old.lanes lane.table ≡ false }
        ensures taken { self.new ≡ record self.old { lanes = self.old.lanes ++ lane ∷ []; spare = self.new.spare } }
        ensures spare { self.old.spare ≤ self.new.spare + 1 }
    {
        push_sure(&mut self.lanes, lane);
    }

    /// Its lanes, in the order in which they were lent.
    pub fn own(&self) -> &[Lane<F, Z>]
        ensures { result.now ≡ self.now.lanes }
    {
        self.lanes.as_slice()
    }

    /// Whether it has a lane of the table.
    pub fn has_lane(&self, table: u32) -> bool
        ensures { result ≡ has_lane self.now.lanes table }
    {
        is_there(self.lanes.as_slice(), table)
    }

    /// Flushes each lane, then seals each, and hands them out. A fault seals none of them.
    pub fn prepare_commit<S: Store<File = F, Seal = Z>>(
        &mut self,
        store: &mut S,
    ) -> Result<Vec<Lane<F, Z>>, StoreFault>
        requires { self.old.state ≡ TxnState.Open }
        ensures count { IfOk result (λ lanes. length lanes.items ≡ length self.old.lanes) }
        ensures prepared { IfOk result (λ lanes. (n : ℕ) → n < length self.old.lanes
            → IsPrepared F.tells Z.tells (lane_at self.old.lanes n) (lane_at lanes.items n)) }
        ensures idle { OnOk result (self.new ≡ record self.old { state = TxnState.Idle; lanes = []; spare = 0 }) }
        ensures failed { OnErr result (self.new ≡ record self.old { state = TxnState.Failed; lanes = self.new.lanes }) }
        ensures kept { OnErr result (length self.new.lanes ≡ length self.old.lanes) }
        ensures unsealed { OnErr result ((n : ℕ) → n < length self.old.lanes → IsUnsealed F.tells (lane_at self.old.lanes n) (lane_at self.new.lanes n)) }

        ensures cause { IsErrOf result StoreFault.Failed → Rose (S.faults store.old) (S.faults store.new) }
        ensures store { GoesOn S.faults S.given S.sound store.old store.new }
    {
        match flush_lanes(&mut self.lanes, store) {
            Ok(()) => {
                seal_lanes(&mut self.lanes, store);
                self.state = TxnState::Idle;
                Ok(mem::replace(&mut self.lanes, Vec::new(self.alloc)))
            }
            Err(fault) => {
                self.state = TxnState::Failed;
                Err(fault)
            }
        }
    }

    /// Hands out the lane that was lent first, after one cut of each of its files that is torn or past its committed bytes, up
    /// to the first that fails. The transaction has failed then. Where no lane is left it is idle.
    pub fn abort_one<S: Store<File = F, Seal = Z>>(&mut self, store: &mut S) -> Option<Lane<F, Z>>
        ensures none { IsNone result ↔ (self.old.lanes ≡ []) }
        ensures idle { IsNone result → self.new ≡ record self.old { state = TxnState.Idle } }
        ensures same { IsNone result → store.new ≡ store.old }
        ensures failed { IfSome result (λ _. self.new ≡ record self.old { state = TxnState.Failed; lanes = drop 1 self.old.lanes; spare = self.new.spare }) }
        ensures spare { self.old.spare ≤ self.new.spare }
        ensures first { IfSome result (λ lane. lane ≡ record (lane_at self.old.lanes 0) { files = lane.files }) }
        ensures cut { IfSome result (λ lane. Swept F.tells (lane_at self.old.lanes 0).files lane.files (Rose (S.faults store.old) (S.faults store.new))) }
        ensures kept { IfSome result (λ lane. EachFile (KeepsBase F.tells) (lane_at self.old.lanes 0).files lane.files) }
        ensures still { IfSome result (λ lane. EachFile StaysIfClean (lane_at self.old.lanes 0).files lane.files) }

        ensures store { GoesOn S.faults S.given S.sound store.old store.new }
    {
        if self.lanes.is_empty() {
            self.state = TxnState::Idle;
            return None;
        }
        self.state = TxnState::Failed;
        let lane = self.lanes.remove(0);
        Some(sweep_one(store, lane))
    }

    /// Ends it, when it has no lane.
    pub fn close(self)
        requires { self.lanes ≡ [] }
    {
        let Txn {
            alloc: _,
            state: _,
            snapshot: _,
            lanes,
        } = self;
        lanes.destroy_empty();
    }
}

impl<F: StoredFile + Send, Z: SealCopy + Send> Txn<F, Z> {
    /// Writes rows of the table to its lane, each to the file of its bucket, in their order. All nodes that own a bucket write
    /// at once, where there are rows enough for threads, each after one check of its host. At any error whole blocks of each
    /// bucket's first rows stand behind what was there, and the transaction has failed and keeps its lanes.
    pub fn write<R, S, H, L>(
        &mut self,
        rt: &R,
        benches: &mut Benches<S, H, L>,
        marks: &Marks,
        table: u32,
        def: &TableDef,
        rows: &[Row],
    ) -> Result<(), WriteEnd>
    where
        R: Threads + Sync,
        S: Store<File = F, Seal = Z> + Send,
        H: Host + Send,
        L: Send,
        requires open { self.old.state ≡ TxnState.Open }
        requires there { has_lane self.old.lanes table ≡ true }
        requires up { IsTrue (some_up marks.now) }
        requires nodes { length benches.old.items ≡ length marks.now }
        requires fit { All (Fits (kinds_of def.now.columns)) rows.now }
        ensures ok { OnOk result (self.new ≡ record self.old { lanes = self.new.lanes }) }
        ensures failed { OnErr result (self.new ≡ record self.old { state = TxnState.Failed; lanes = self.new.lanes }) }
        ensures others { self.new.lanes ≡ with_lane self.old.lanes table (lane_of self.new.lanes table) }
        ensures written { OnOk result (AddsRows F.tells def.now rows.now (lane_of self.old.lanes table) (lane_of self.new.lanes table)) }
        ensures rows { OnOk result (GainsRows F.tells def.now rows.now (lane_of self.old.lanes table) (lane_of self.new.lanes table)) }
        ensures first { AddsFirst F.tells def.now rows.now (lane_of self.old.lanes table) (lane_of self.new.lanes table) }
        ensures whole { IsErrOf result WriteEnd.NoMemory → AreWhole (lane_of self.new.lanes table).files }
        ensures whole_before { (n : ℕ) → IsErrOf result (WriteEnd.Host n) → AreWholeBefore marks.now (lane_of self.new.lanes table) n }

        ensures count { length benches.new.items ≡ length benches.old.items }
        ensures links { Each benches.old.items benches.new.items (λ a b. b.link ≡ a.link) }
        ensures unused { (n : ℕ) → n < length benches.old.items → (IsInUse marks.now n → ⊥) → At n benches.old.items benches.new.items (λ a b. b ≡ a) }
        ensures answered { OnOk result ((n : ℕ) → IsInUse marks.now n
            → At n benches.old.items benches.new.items (λ a b. HasAnswered H.checks H.faults a.host b.host)) }
        ensures store_cause { IsErrOf result WriteEnd.Store → StoreFailed (IsInUse marks.now) benches.old.items benches.new.items
            (λ a b. HasAnswered H.checks H.faults a.host b.host) (λ a b. HasFailed S.faults a.store b.store) }
        ensures host_cause { (n : ℕ) → IsErrOf result (WriteEnd.Host n) → HostFailed (IsInUse marks.now) benches.old.items benches.new.items
            (λ a b. HasAnswered H.checks H.faults a.host b.host) (λ a b. HasFailed H.faults a.host b.host) n }
        ensures no_memory { IsErrOf result WriteEnd.NoMemory → Each benches.old.items benches.new.items (λ a b. H.faults b.host ≡ H.faults a.host) }
        ensures hosts { Each benches.old.items benches.new.items (λ a b. IsSteady H.faults H.sound a.host b.host) }
        ensures stores { Each benches.old.items benches.new.items (λ a b. GoesOn S.faults S.given S.sound a.store b.store) }
    {
        let place = find_lane(&self.lanes, table);
        match write_lane(
            rt,
            self.alloc,
            &mut self.lanes[place],
            benches,
            marks,
            def,
            rows,
        ) {
            Ok(()) => Ok(()),
            Err(end) => {
                self.state = TxnState::Failed;
                Err(end)
            }
        }
    }
}
