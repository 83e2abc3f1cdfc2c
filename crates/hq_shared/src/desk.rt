//! The shared desk.
ghost use Rattle.std.specs.Prelude.{◌≡◌};
ghost use Rattle.hq_histlock.specs.Passes.{view, IsPassOf};
ghost use Rattle.hq_shared.specs.Answered.{Answered};

use hq_histlock::{HistLock, Logged, Pass};
use std::sync::Wait;

/// A value that answers, each ask by one step, which leaves at most one entry of the session that asks.
pub trait Answering: Logged {
    ghost use Rattle.std.specs.Prelude.{◌≡◌, ℕ, List};
    ghost use Rattle.hq_history.specs.declared.noted.Noted.{Noted};
    ghost use Rattle.hq_history.specs.History.{GrewByOthers};
    ghost use Rattle.hq_histlock.specs.Passes.{MayLeave};

    type Ask;

    type Answer;

    // The session may ask this of a value with this history and with this that is fixed.
    ghost may_ask: { ℕ → Self.Ask → List Noted → ℕ → Type 0 };

    // What one step is: of the session, its statement, the value before, the ask, the value after and the answer.
    ghost steps: { ℕ → ℕ → Self → Self.Ask → Self → Self.Answer → Type 0 };

    /// One step.
    fn answer(&mut self, session: u32, statement: u32, ask: Self::Ask) -> Self::Answer
        requires { may_ask session ask (Self.history self.old) (Self.fixed self.old) }
        ensures step { steps session statement self.old ask self.new result }
        ensures one { MayLeave session (Self.history self.old) (Self.history self.new) }
        ensures fixed { Self.fixed self.new ≡ Self.fixed self.old };

    /// What a session may ask it may still ask once others have added to the history that it has seen.
    fn others_change_nothing(&self)
        ensures { (session : ℕ) (ask : Self.Ask) (seen : List Noted) → GrewByOthers session seen (Self.history self.now) →
            may_ask session ask seen (Self.fixed self.now) → may_ask session ask (Self.history self.now) (Self.fixed self.now) };
}

/// A value under the lock that all sessions share.
#[derive(Drop)]
pub struct SharedDesk<V: Answering> {
    pub lock: HistLock<V>,
}

impl<V: Answering> SharedDesk<V> {
    /// Waits for the turn, and answers by one step, at the end of what the pass has seen and others have added since.
    /// What may be asked is said over what the pass has seen.
    pub fn answer<R: Wait>(&self, rt: &R, pass: &mut Pass, statement: u32, ask: V::Ask) -> V::Answer
        requires pass { IsPassOf self.now.lock pass.old }
        requires may { V.may_ask (view pass.old).number ask (view pass.old).seen (view pass.old).fixed }
        ensures pass { IsPassOf self.now.lock pass.new }
        ensures answered { Answered V.history V.steps (view pass.old) statement ask (view pass.new) result }
        ensures same { (pass.new.number ≡ pass.old.number) × (pass.new.made ≡ pass.old.made) }
    {
        let mut held = self.lock.enter(rt, pass);
        held.value.others_change_nothing();
        let answer = held.value.answer(pass.number, statement, ask);
        self.lock.leave(pass, held);
        answer
    }
}
