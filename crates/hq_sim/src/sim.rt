//! The link in memory.
ghost use Rattle.std.specs.Prelude.{◌≡◌, ◌≤◌, ◌<◌, [], ◌∷◌, ◌++◌, length, vec_len, vec_capacity, Ok, OnOk, OnErr};
ghost use Rattle.hq_link.specs.Link.{IsSent, IsNext};
ghost use Rattle.hq_sim.specs.Acting.{AreCounts, act_now, script_left, fails_now, send_left, acted, turned, HasActed, HasSent, TakesOut, ShowsAt, AreSent, has_failed, has_sent, troubled, has_given, state_of};
ghost use Rattle.rand_pcg.specs.Lcg.{started, increment_of};
ghost use Rattle.rand_pcg.specs.Pcg.{multiplier_64};

use crate::Act;
use crate::held::Held;
use crate::script::{Acts, Script};
use hq_link::{Got, Link, LinkFault};
use hq_value::{Failed, NoMemory};
use rand_pcg::Pcg32;
use std::alloc::Global;
use std::marker::Model;

/// A link in memory that follows a plan. It keeps all that was ever sent.
#[derive(Drop)]
pub struct SimLink {
    alloc: Global,
    script: Script,
    sent: Vec<Held>,
    flying: Vec<Held>,
    troubles: u64,
    given: u64,
    faults: u64,
}

impl Model for SimLink {
    ghost use Rattle.hq_sim.specs.Acting.{SimState, AreSent};

    ghost Value = { SimState };

    ghost view = { λ s. record { script = s.script; sent = s.sent.items; flying = s.flying.items; troubles = s.troubles; given = s.given; faults = s.faults } };

    ghost invariant = { λ s. AreSent s.flying.items s.sent.items };
}

impl SimLink {
    /// A link that loses the first `copies` copies of the Data of that number.
    pub fn dropping(alloc: Global, seq: u64, copies: u32) -> SimLink
        ensures { result ≡ record { script = Script.Dropping seq copies; sent = []; flying = []; troubles = 0; given = 0; faults = 0 } }
    {
        SimLink::with_script(alloc, Script::Dropping { seq, left: copies })
    }

    /// A link that follows these acts, and gives in order behind them.
    pub fn scripted(alloc: Global, acts: Vec<Act>) -> SimLink
        ensures { result ≡ record { script = Script.Acts acts.items; sent = []; flying = []; troubles = 0; given = 0; faults = 0 } }
    {
        SimLink::with_script(alloc, Script::Acts(Acts::new(acts)))
    }

    /// A link that draws each act: so many of a thousand lose, repeat or are late by one.
    pub fn drawn(alloc: Global, seed: u64, per_mille: u32) -> SimLink
        ensures { result ≡ record { script = Script.Drawn (started 64 multiplier_64 seed (increment_of 64 0)) per_mille; sent = []; flying = []; troubles = 0; given = 0; faults = 0 } }
    {
        let draws = Pcg32::new(seed, 0);
        SimLink::with_script(alloc, Script::Drawn { draws, per_mille })
    }

    fn with_script(alloc: Global, script: Script) -> SimLink
        ensures { result ≡ record { script = script; sent = []; flying = []; troubles = 0; given = 0; faults = 0 } }
    {
        SimLink {
            alloc,
            script,
            sent: Vec::new(alloc),
            flying: Vec::new(alloc),
            troubles: 0,
            given: 0,
            faults: 0,
        }
    }

    fn take_act(&mut self) -> Act
        ensures act { result ≡ act_now self.old.script self.old.flying }
        ensures left { self.new ≡ record self.old { script = script_left self.old.script self.old.flying } }
        ensures counts { AreCounts self.old }
        ensures within { AreSent self.old.flying self.old.sent }
    {
        let _counts = (self.troubles, self.given, self.faults);
        self.script.next(&self.flying)
    }

    fn takes_failure(&mut self) -> bool
        ensures fails { result ≡ fails_now self.old.script }
        ensures left { self.new ≡ record self.old { script = send_left self.old.script } }
        ensures counts { AreCounts self.old }
    {
        let _counts = (self.troubles, self.given, self.faults);
        self.script.fails()
    }

    fn trouble(&mut self)
        ensures { self.new ≡ troubled self.old }
    {
        self.troubles = self.troubles.saturating_add(1);
    }

    fn count(&mut self)
        ensures { self.new ≡ has_given self.old }
    {
        self.given = self.given.saturating_add(1);
    }

    fn fail(&mut self)
        ensures { self.new ≡ has_failed self.old }
    {
        self.troubles = self.troubles.saturating_add(1);
        self.faults = self.faults.saturating_add(1);
    }

    // Takes out the one that is flying at that place, and puts it into the buffer.
    fn take_out(&mut self, place: usize, into: &mut [u8]) -> Option<usize>
        requires { 1224 ≤ length into.old }
        ensures { TakesOut self.old place result into.new self.new }
    {
        if place >= self.flying.len() {
            return None;
        }
        let held = self.flying.remove(place);
        Some(held.put(into))
    }

    // Gives the first that is flying.
    fn give(&mut self, into: &mut [u8]) -> Got
        requires { 1224 ≤ length into.old }
        ensures { HasActed Act.Give self.old (Ok result) into.new self.new }
    {
        match self.take_out(0, into) {
            Some(len) => {
                self.count();
                Got::Bytes(len)
            }
            None => {
                self.trouble();
                Got::Quiet
            }
        }
    }

    // Loses the first that is flying.
    fn lose(&mut self)
        ensures { self.new ≡ acted Act.Lose self.old }
    {
        if !self.flying.is_empty() {
            self.flying.remove(0);
        }
        self.trouble();
    }

    // Gives the first that is flying, and leaves it there.
    fn repeat(&mut self, into: &mut [u8]) -> Got
        requires { 1224 ≤ length into.old }
        ensures { HasActed Act.Repeat self.old (Ok result) into.new self.new }
    {
        self.trouble();
        match put_at(&self.flying, 0, into) {
            Some(len) => {
                self.count();
                Got::Bytes(len)
            }
            None => Got::Quiet,
        }
    }

    // Gives the one at that place of those that are flying, or the last.
    fn late(&mut self, i: u32, into: &mut [u8]) -> Got
        requires { 1224 ≤ length into.old }
        ensures { HasActed (Act.Late i) self.old (Ok result) into.new self.new }
    {
        let place = (i as usize).min(self.flying.len().saturating_sub(1));
        self.trouble();
        match self.take_out(place, into) {
            Some(len) => {
                self.count();
                Got::Bytes(len)
            }
            None => Got::Quiet,
        }
    }

    // Gives the one at that place of all that were ever sent, or the last.
    fn stale(&mut self, i: u32, into: &mut [u8]) -> Got
        requires { 1224 ≤ length into.old }
        ensures { HasActed (Act.Stale i) self.old (Ok result) into.new self.new }
    {
        let place = (i as usize).min(self.sent.len().saturating_sub(1));
        self.trouble();
        match put_at(&self.sent, place, into) {
            Some(len) => {
                self.count();
                Got::Bytes(len)
            }
            None => Got::Quiet,
        }
    }

    fn perform(&mut self, act: Act, into: &mut [u8]) -> Result<Got, Failed>
        requires { 1224 ≤ length into.old }
        ensures { HasActed act self.old result into.new self.new }
    {
        match act {
            Act::Give => Ok(self.give(into)),
            Act::Lose => {
                self.lose();
                Ok(Got::Quiet)
            }
            Act::Repeat => Ok(self.repeat(into)),
            Act::Late(i) => Ok(self.late(i, into)),
            Act::Stale(i) => Ok(self.stale(i, into)),
            Act::FailSend | Act::FailNext => {
                self.fail();
                Err(Failed)
            }
        }
    }

    // Keeps one more datagram.
    fn keep(&mut self, bytes: &[u8]) -> Result<(), NoMemory>
        requires { length bytes.now ≤ 1224 }
        ensures kept { OnOk result (self.new ≡ has_sent self.old bytes.now) }
        ensures refused { OnErr result (self.new ≡ self.old) }
    {
        let held = Held::new(self.alloc, bytes)?;
        let copy = held.copy()?;
        self.sent.reserve(1)?;
        self.flying.reserve(1)?;
        push_sure(&mut self.sent, held);
        push_sure(&mut self.flying, copy);
        Ok(())
    }
}

fn push_sure(list: &mut Vec<Held>, held: Held)
    requires { vec_len list.old < vec_capacity list.old }
    ensures { list.new.items ≡ list.old.items ++ held ∷ [] }
{
    match list.push(held) {
        Ok(()) => (),
        Err(_) => unreachable!(),
    }
}

// Puts the one at that place into the buffer.
fn put_at(list: &[Held], place: usize, into: &mut [u8]) -> Option<usize>
    requires { 1224 ≤ length into.old }
    ensures { ShowsAt list.now place result into.new }
{
    match list.get(place) {
        Some(held) => Some(held.put(into)),
        None => None,
    }
}

impl Link for SimLink {
    ghost use Rattle.hq_sim.specs.Acting.{state_of};

    ghost state = { state_of };

    fn send(&mut self, bytes: &[u8]) -> Result<(), LinkFault>
        requires least { 24 ≤ length bytes.now }
        requires most { length bytes.now ≤ 1224 }
        ensures link { IsSent (state_of self.old) bytes.now result (state_of self.new) }
        ensures exact { HasSent self.old bytes.now result self.new }
    {
        if self.takes_failure() {
            self.fail();
            return Err(LinkFault::Failed);
        }
        match self.keep(bytes) {
            Ok(()) => Ok(()),
            Err(NoMemory) => Err(LinkFault::NoMemory),
        }
    }

    fn next(&mut self, into: &mut [u8]) -> Result<Got, Failed>
        requires { 1224 ≤ length into.old }
        ensures link { IsNext (state_of self.old) result into.new (state_of self.new) }
        ensures exact { HasActed (act_now self.old.script self.old.flying) (turned self.old) result into.new self.new }
    {
        let act = self.take_act();
        self.perform(act, into)
    }

    fn troubles(&self) -> u64 {
        self.troubles
    }

    fn given(&self) -> u64 {
        self.given
    }

    fn faults(&self) -> u64 {
        self.faults
    }

    ghost use Rattle.hq_sim.specs.Lawful.{is_lawful};

    ghost lawful = { is_lawful };
}
