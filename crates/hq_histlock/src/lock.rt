//! The lock.
ghost use Rattle.std.specs.Prelude.{◌≡◌, [], ◌∷◌, None, IfOk};

use crate::pass::{Held, Pass};
use crate::rule::{Back, Free, Law, Logged, LookAt, More, Note, Start, Take, Win};
use crate::view::View;
use atomic_table::{Refused, Seat, Table};
use hq_value::NoMemory;
use std::alloc::Global;
use std::marker::Model;
use std::sync::Wait;
use std::{hint, thread};

// How often a pass that waits looks whether the turn is free before it yields.
const LOOKS: u32 = 100;

/// A lock over a value that keeps a history. It is made with pass 0, which makes the others, one for each session,
/// and takes them back. A pass that has the turn holds the value; it leaves it with at most one entry more, of its
/// own number. What passes know of the history is in `View`. In contracts a lock is its identity.
///
/// Waiting is promised nothing. A pass that is dropped can't be joined, so the lock can't be closed any more.
#[derive(Drop)]
pub struct HistLock<V: Logged> {
    table: Table<Option<V>, View, u32, Law<V>, Global>,
}

impl<V: Logged> Model for HistLock<V> {
    ghost use Rattle.std.specs.Prelude.{◌≡◌};
    ghost use Rattle.atomic_table.specs.Seated.{TableId, table_id_coded};

    ghost Value = { TableId };

    ghost coded = { table_id_coded };

    ghost view = { λ lock. lock.table.shared.table_id };

    ghost invariant = { λ lock. (lock.table.shared.table_id.words ≡ 2) × (lock.table.shared.table_id.slots ≡ 1) };
}

impl<V: Logged> HistLock<V> {
    ghost use Rattle.std.specs.Prelude.{◌≤◌, ◌<◌, ◌+◌, ℕ, List, length, true, false, MatchOption, IfErr};
    ghost use Rattle.hq_history.specs.History.{StartsWith, AllBelow, GrewByOthers, by};
    ghost use Rattle.hq_histlock.specs.Views.{raw_view, first_view, with_more, made_by, entered, left_by, with_ended};
    ghost use Rattle.hq_histlock.specs.Closed.{IsClosed};
    ghost use Rattle.hq_histlock.specs.Passes.{view, IsWhole, IsPassOf, IsFirstOf, HasTurn, MayLeave};

    /// The lock over a value, and pass 0. The numbers of the passes to come begin with `first`. Without memory the
    /// value comes back.
    pub fn open(alloc: Global, value: V, first: u32) -> Result<(HistLock<V>, Pass), (V, NoMemory)>
        requires some { 0 < first }
        requires above { AllBelow first (V.history value) }
        ensures pass { IfOk result (λ opened. IsFirstOf opened.0 opened.1) }
        ensures view { IfOk result (λ opened. view opened.1 ≡ first_view first (V.fixed value) (V.history value)) }
        ensures back { IfErr result (λ refused. refused.0 ≡ value) }
    {
        let slots = match empty_slot(alloc) {
            Ok(slots) => slots,
            Err(no_memory) => return Err((value, no_memory)),
        };
        match Table::new(alloc, &[1, 0], slots, &first) {
            Ok((table, seat)) => {
                let lock = HistLock { table };
                let pass = lock.begin(seat, value, first);
                Ok((lock, pass))
            }
            Err(Refused { slots }) => {
                drop_slot(slots);
                Err((value, NoMemory))
            }
        }
    }

    // Puts the value in. Until then pass 0 has the turn, and there is no other.
    fn begin(&self, mut seat: Seat<Option<V>, View>, value: V, first: u32) -> Pass
        requires table { seat.table_id ≡ self.now }
        requires raw { seat.me ≡ (raw_view first, []) }
        requires some { 0 < first }
        requires above { AllBelow first (V.history value) }
        ensures pass { IsFirstOf self.now result }
        ensures view { view result ≡ first_view first (V.fixed value) (V.history value) }
    {
        let count = value.entries().len() as u64;
        let shared = &self.table.shared;
        shared.load::<Take>(&mut seat, 0);
        let old = shared.exchange(&mut seat, 0, Some(value));
        let None = old else { unreachable!() };
        shared.swap::<Start>(&mut seat, 1, count);
        shared.swap::<Free>(&mut seat, 0, 0);
        Pass {
            number: 0,
            made: first,
            badge: seat.into_badge(),
        }
    }

    /// A new pass, made by pass 0. Its number is the next one, and it has seen what pass 0 has.
    pub fn split(&self, pass: &mut Pass) -> Pass
        requires first { IsFirstOf self.now pass.old }
        requires room { pass.old.made < 4294967295 }
        ensures first { IsFirstOf self.now pass.new }
        ensures more { view pass.new ≡ with_more (view pass.old) }
        ensures pass { IsPassOf self.now result }
        ensures made { view result ≡ made_by (view pass.old) }
    {
        let mut seat = pass.take_seat::<V>();
        let made = self.table.shared.split_seat::<More>(&mut seat);
        pass.put_seat(seat);
        let number = pass.made;
        pass.made += 1;
        Pass {
            number,
            made: 0,
            badge: made.into_badge(),
        }
    }

    // One try to win the turn, and with it the value.
    fn try_enter(&self, seat: &mut Seat<Option<V>, View>) -> Option<V>
        requires table { seat.old.table_id ≡ self.now }
        requires empty { seat.old.me.1 ≡ [] }
        requires live { seat.old.me.0.live ≡ true }
        requires done { seat.old.me.0.raw ≡ false }
        ensures table { seat.new.table_id ≡ seat.old.table_id }
        ensures lost { MatchOption result (seat.new.me ≡ seat.old.me) (λ v. Unit {0}) }
        ensures won { MatchOption result (Unit {0}) (λ v.
            (seat.new.me ≡ (entered seat.old.me.0 (V.history v), (0, None) ∷ []))
            × GrewByOthers seat.old.me.0.number seat.old.me.0.seen (V.history v)
            × (by seat.old.me.0.number (V.history v) ≡ seat.old.me.0.mine) × (V.fixed v ≡ seat.old.me.0.fixed)) }
    {
        let shared = &self.table.shared;
        if shared.compare_exchange::<Win>(seat, 0, 0, 1) != 0 {
            return None;
        }
        shared.exchange(seat, 0, None)
    }

    // Waits a little for the turn to be free, and else lets other threads run.
    fn pause(&self) {
        for _ in 0..LOOKS {
            if self.table.shared.peek(0) == 0 {
                return;
            }
            hint::spin_loop();
        }
        thread::yield_now();
    }

    /// Waits for the turn, and lends the value. Its history is all that the pass has seen and what others added since,
    /// and of the pass's number it has just the entries that the pass left.
    pub fn enter<R: Wait>(&self, rt: &R, pass: &mut Pass) -> Held<V>
        requires { IsPassOf self.now pass.old }
        ensures turn { HasTurn self.now pass.new result.seat.table_id result.seat.me }
        ensures view { result.seat.me.0 ≡ entered (view pass.old) (V.history result.value) }
        ensures grown { GrewByOthers (view pass.old).number (view pass.old).seen (V.history result.value) }
        ensures own { by (view pass.old).number (V.history result.value) ≡ (view pass.old).mine }
        ensures fixed { V.fixed result.value ≡ (view pass.old).fixed }
        ensures same { (pass.new.number ≡ pass.old.number) × (pass.new.made ≡ pass.old.made) }
    {
        let mut seat = pass.take_seat::<V>();
        for _ in rt.forever() {
            if let Some(value) = self.try_enter(&mut seat) {
                return Held { value, seat };
            }
            self.pause();
        }
        unreachable!()
    }

    /// Gives the value back, with at most one entry more, which is of the pass's number. Nobody waits.
    pub fn leave(&self, pass: &mut Pass, held: Held<V>)
        requires turn { HasTurn self.now pass.old held.seat.table_id held.seat.me }
        requires grown { MayLeave held.seat.me.0.number held.seat.me.0.seen (V.history held.value) }
        requires fixed { V.fixed held.value ≡ held.seat.me.0.fixed }
        ensures pass { IsPassOf self.now pass.new }
        ensures view { view pass.new ≡ left_by held.seat.me.0 (V.history held.value) }
        ensures same { (pass.new.number ≡ pass.old.number) × (pass.new.made ≡ pass.old.made) }
    {
        let Held { value, mut seat } = held;
        let count = value.entries().len() as u64;
        let shared = &self.table.shared;
        let old = shared.exchange(&mut seat, 0, Some(value));
        let None = old else { unreachable!() };
        shared.swap::<Note>(&mut seat, 1, count);
        shared.swap::<Free>(&mut seat, 0, 0);
        pass.put_seat(seat);
    }

    /// How long the history is, at one moment of the call. Nobody waits.
    pub fn look(&self, pass: &mut Pass) -> u64
        requires { IsPassOf self.now pass.old }
        ensures pass { IsPassOf self.now pass.new }
        ensures view { view pass.new ≡ view pass.old }
        ensures same { (pass.new.number ≡ pass.old.number) × (pass.new.made ≡ pass.old.made) }
        ensures longer { length (view pass.old).seen ≤ result }
    {
        let mut seat = pass.take_seat::<V>();
        let count = self.table.shared.load::<LookAt>(&mut seat, 1);
        pass.put_seat(seat);
        count
    }

    /// Pass 0 takes another pass back, and has then seen what both had. Nobody waits.
    pub fn join(&self, into: &mut Pass, mut pass: Pass)
        requires first { IsFirstOf self.now into.old }
        requires pass { IsPassOf self.now pass }
        ensures first { IsFirstOf self.now into.new }
        ensures ended { view into.new ≡ with_ended (view into.old) (view pass) }
        ensures own { StartsWith (view into.new).seen (view into.old).seen }
        ensures others { StartsWith (view into.new).seen (view pass).seen }
    {
        let mut seat = into.take_seat::<V>();
        let other = pass.take_seat::<V>();
        let shared = &self.table.shared;
        shared.join_seat::<Back>(&mut seat, other);
        shared.load::<LookAt>(&mut seat, 1);
        into.put_seat(seat);
    }

    /// The value, once all passes are back: as many as were made. What pass 0 knows of each is in its history.
    pub fn close(self, mut pass: Pass) -> V
        requires first { IsFirstOf self pass }
        requires all { length (view pass).ended + (view pass).first ≡ (view pass).next }
        ensures closed { IsClosed (view pass) (V.history result) }
        ensures fixed { V.fixed result ≡ (view pass).fixed }
    {
        let HistLock { table } = self;
        let mut closed = table.close_with(pass.take_seat::<V>());
        let value = closed.take(0);
        closed.free();
        let Some(value) = value else { unreachable!() };
        value
    }
}

// One slot that is empty.
fn empty_slot<V>(alloc: Global) -> Result<Vec<Option<V>>, NoMemory>
    ensures { IfOk result (λ slots. slots.items ≡ None ∷ []) }
{
    let mut slots = Vec::with_capacity(alloc, 1)?;
    slots.push_reserved(None);
    Ok(slots)
}

// Frees it.
fn drop_slot<V>(mut slots: Vec<Option<V>>)
    requires { slots.items ≡ None ∷ [] }
{
    let Some(slot) = slots.pop() else {
        unreachable!()
    };
    slots.destroy_empty();
    let None = slot else { unreachable!() };
}
