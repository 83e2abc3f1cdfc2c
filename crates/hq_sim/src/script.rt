//! Which acts a link in memory still has.
ghost use Rattle.std.specs.Prelude.{◌≡◌, ◌-◌, drop, slice_get, if◌then◌else◌};
ghost use Rattle.hq_sim.specs.Acting.{next_of, next_left, fails_first, if_failing, act_now, script_left, fails_now, send_left, is_dropped, is_data_first, is_data_in, drawn_act, draws_left};
ghost use Rattle.hq_link.specs.Reading.{gram_at};

use crate::Act;
use crate::held::Held;
use hq_link::{Packet, read};
use rand_core::utils::NextWord;
use rand_pcg::Pcg32;
use std::marker::Model;

/// The acts that are left.
#[derive(Drop)]
pub(crate) struct Acts {
    acts: Vec<Act>,
    at: usize,
}

impl Model for Acts {
    ghost use Rattle.std.specs.Prelude.{List, ◌≤◌, length, drop};
    ghost use Rattle.hq_sim.specs.declared.act.Act.{Act};

    ghost Value = { List Act };

    ghost view = { λ a. drop a.at a.acts.items };

    ghost invariant = { λ a. a.at ≤ length a.acts.items };
}

impl Acts {
    pub(crate) fn new(acts: Vec<Act>) -> Acts
        ensures { result ≡ acts.items }
    {
        Acts { acts, at: 0 }
    }

    fn first(&self) -> Option<Act>
        ensures { result ≡ slice_get self.now 0 }
    {
        self.acts.get(self.at).copied()
    }

    fn skip(&mut self)
        ensures { self.new ≡ drop 1 self.old }
    {
        if self.at < self.acts.len() {
            self.at += 1;
        }
    }

    // The act that a `next` takes.
    fn next(&mut self) -> Act
        ensures act { result ≡ next_of self.old }
        ensures left { self.new ≡ next_left self.old }
    {
        match self.first() {
            None => Act::Give,
            Some(Act::FailSend) => Act::Give,
            Some(act) => {
                self.skip();
                act
            }
        }
    }

    // Whether a `send` takes the first act, and fails.
    fn fails(&mut self) -> bool
        ensures fails { result ≡ fails_first self.old }
        ensures left { self.new ≡ if_failing self.old }
    {
        match self.first() {
            Some(Act::FailSend) => {
                self.skip();
                true
            }
            _ => false,
        }
    }
}

/// Where a link in memory has its acts from.
#[derive(Drop)]
pub(crate) enum Script {
    /// These, in order.
    Acts(Acts),
    /// The first `left` copies of the Data of that number are lost.
    Dropping { seq: u64, left: u32 },
    /// So many of a thousand are drawn to be no `Give`.
    Drawn { draws: Pcg32, per_mille: u32 },
}

impl Script {
    /// The act that a `next` takes.
    pub(crate) fn next(&mut self, flying: &[Held]) -> Act
        ensures act { result ≡ act_now self.old flying.now }
        ensures left { self.new ≡ script_left self.old flying.now }
    {
        match self {
            Script::Acts(acts) => acts.next(),
            Script::Dropping { seq, left } => drop_next(*seq, left, flying),
            Script::Drawn { draws, per_mille } => draw(draws, *per_mille),
        }
    }

    /// Whether a `send` fails.
    pub(crate) fn fails(&mut self) -> bool
        ensures fails { result ≡ fails_now self.old }
        ensures left { self.new ≡ send_left self.old }
    {
        match self {
            Script::Acts(acts) => acts.fails(),
            Script::Dropping { .. } => false,
            Script::Drawn { .. } => false,
        }
    }
}

fn drop_next(seq: u64, left: &mut u32, flying: &[Held]) -> Act
    ensures act { result ≡ (if is_dropped seq left.old flying.now then Act.Lose else Act.Give) }
    ensures left { left.new ≡ (if is_dropped seq left.old flying.now then left.old - 1 else left.old) }
{
    if *left > 0 && is_data_first(seq, flying) {
        *left -= 1;
        return Act::Lose;
    }
    Act::Give
}

fn is_data_first(seq: u64, flying: &[Held]) -> bool
    ensures { result ≡ is_data_first seq flying.now }
{
    match flying {
        [] => false,
        [first, ..] => is_data(seq, first.as_slice()),
    }
}

fn is_data(seq: u64, bytes: &[u8]) -> bool
    ensures { result ≡ is_data_in seq (gram_at bytes.now) }
{
    match read(bytes) {
        Some(d) => matches!(d.kind, Packet::Data) && d.seq == seq,
        None => false,
    }
}

fn draw(draws: &mut Pcg32, per_mille: u32) -> Act
    ensures act { result ≡ drawn_act draws.old per_mille }
    ensures left { draws.new ≡ draws_left draws.old per_mille }
{
    let word = draws.next_word();
    if word % 1000 >= per_mille {
        return Act::Give;
    }
    let word = draws.next_word();
    match word % 3 {
        0 => Act::Lose,
        1 => Act::Repeat,
        _ => Act::Late(1),
    }
}
