//! A statement's inner loop: what the session asks is put to the desk, and the answer is handed back, until it replies.
ghost use Rattle.std.specs.Prelude.{◌≡◌, ◌<◌, ◌&&◌, true, IsTrue};
ghost use Rattle.hq_history.specs.History.{StartsWith};
ghost use Rattle.hq_turns.specs.Counts.{counts_of, Later};
ghost use Rattle.hq_session.specs.Keeps.{asks_left, is_ask};
ghost use Rattle.hq_session.specs.Waits.{RowsOfBytes};
ghost use Rattle.hq_serve.specs.Asking.{SpeaksFor};
ghost use Rattle.hq_serve.specs.Running.{Spot, IsRunning, HasEnded, CanSettle};
ghost use Rattle.hq_serve.specs.Seats.{IsSeated};
ghost use Rattle.hq_serve.specs.Served.{GrewBy};

use crate::desk::Desk;
use hq_catalog::{Answer, Ask};
use hq_detect::{Benches, Host};
use hq_link::Link;
use hq_reply::Reply;
use hq_session::{Input, Session, Turn};
use hq_store::Store;

// One ask and its answer.
fn ask_once<
    D: Desk<Ask = Ask<S::File, S::Seal>, Answer = Answer<S::File, S::Seal>>,
    S: Store,
    H: Host,
    L: Link,
>(
    desk: &mut D,
    number: u32,
    statement: u32,
    session: &mut Session<S::File, S::Seal>,
    benches: &mut Benches<S, H, L>,
    ask: Ask<S::File, S::Seal>,
) -> Turn<S::File, S::Seal>
    requires catalogue { SpeaksFor S.File.tells S.Seal.tells D.may_ask D.answered }
    requires desk { D.answers desk.old number }
    requires seated { IsSeated (D.nodes desk.old) number session.old benches.old.items }
    requires running { CanSettle S.File.tells S.Seal.tells (D.nodes desk.old) number statement (D.shown desk.old) session.old (counts_of S.faults H.checks H.faults L.state benches.old.items) (Turn.Ask ask) }
    ensures desk { D.answers desk.new number }
    ensures nodes { D.nodes desk.new ≡ D.nodes desk.old }
    ensures seated { IsSeated (D.nodes desk.old) number session.new benches.new.items }
    ensures begins { StartsWith (D.shown desk.new) (D.shown desk.old) }
    ensures alone { IsTrue D.alone → GrewBy number (D.shown desk.old) (D.shown desk.new) }
    ensures later { Later (counts_of S.faults H.checks H.faults L.state benches.old.items) (counts_of S.faults H.checks H.faults L.state benches.new.items) }
    ensures running { (file_rows : RowsOfBytes) (spot : Spot) → statement ≡ spot.end.next →
        IsRunning file_rows (D.nodes desk.old) number S.File.tells S.Seal.tells spot (D.shown desk.old) session.old (counts_of S.faults H.checks H.faults L.state benches.old.items) (Turn.Ask ask) →
        IsRunning file_rows (D.nodes desk.old) number S.File.tells S.Seal.tells spot (D.shown desk.new) session.new (counts_of S.faults H.checks H.faults L.state benches.new.items) result }
    ensures fewer { is_ask result ≡ true → asks_left session.new < asks_left session.old }
{
    let answer = desk.answer(number, statement, ask);
    session.next(benches, Input::Answer(answer))
}

/// Asks and is answered until the session has replied.
pub(crate) fn settle<
    D: Desk<Ask = Ask<S::File, S::Seal>, Answer = Answer<S::File, S::Seal>>,
    S: Store,
    H: Host,
    L: Link,
>(
    desk: &mut D,
    number: u32,
    statement: u32,
    session: &mut Session<S::File, S::Seal>,
    benches: &mut Benches<S, H, L>,
    turn: Turn<S::File, S::Seal>,
) -> Option<Reply>
    requires catalogue { SpeaksFor S.File.tells S.Seal.tells D.may_ask D.answered }
    requires desk { D.answers desk.old number }
    requires seated { IsSeated (D.nodes desk.old) number session.old benches.old.items }
    requires running { CanSettle S.File.tells S.Seal.tells (D.nodes desk.old) number statement (D.shown desk.old) session.old (counts_of S.faults H.checks H.faults L.state benches.old.items) turn }
    ensures desk { D.answers desk.new number }
    ensures nodes { D.nodes desk.new ≡ D.nodes desk.old }
    ensures seated { IsSeated (D.nodes desk.old) number session.new benches.new.items }
    ensures begins { StartsWith (D.shown desk.new) (D.shown desk.old) }
    ensures alone { IsTrue D.alone → GrewBy number (D.shown desk.old) (D.shown desk.new) }
    ensures later { Later (counts_of S.faults H.checks H.faults L.state benches.old.items) (counts_of S.faults H.checks H.faults L.state benches.new.items) }
    ensures ended { (file_rows : RowsOfBytes) (spot : Spot) → statement ≡ spot.end.next →
        IsRunning file_rows (D.nodes desk.old) number S.File.tells S.Seal.tells spot (D.shown desk.old) session.old (counts_of S.faults H.checks H.faults L.state benches.old.items) turn →
        HasEnded file_rows (D.nodes desk.old) number S.File.tells S.Seal.tells spot (D.shown desk.new) session.new (counts_of S.faults H.checks H.faults L.state benches.new.items) result }
{
    match turn {
        Turn::Reply(reply) => Some(reply),
        Turn::Nothing => None,
        Turn::Ask(ask) => {
            let next = ask_once(desk, number, statement, session, benches, ask);
            settle(desk, number, statement, session, benches, next)
        }
    }
}
