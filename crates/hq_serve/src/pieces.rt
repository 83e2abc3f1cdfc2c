//! A piece of the input is answered.
ghost use Rattle.std.specs.Prelude.{◌≡◌, ◌+◌, ◌&&◌, [], ◌∷◌, ◌++◌, List, length, None, IsTrue, IsSome, OnErr};
ghost use Rattle.std.specs.declared.option.Option.{Option as Maybe};
ghost use Rattle.hq_value.specs.Causes.{HasCause};
ghost use Rattle.hq_history.specs.History.{StartsWith};
ghost use Rattle.hq_io.specs.Next.{kind_in, Shows};
ghost use Rattle.hq_io.specs.Pieces.{Piece as OnePiece};
ghost use Rattle.hq_io.specs.Reading.{pieces_given};
ghost use Rattle.hq_io.specs.Told.{WritesPrefix};
ghost use Rattle.hq_reply.specs.declared.reply.Reply.{Reply as AReply};
ghost use Rattle.hq_turns.specs.Counts.{Counts, counts_of, Later};
ghost use Rattle.hq_turns.specs.Hand.{InHand};
ghost use Rattle.hq_session.specs.Keeps.{txn_of};
ghost use Rattle.hq_session.specs.Waits.{RowsOfBytes};
ghost use Rattle.hq_serve.specs.Asking.{SpeaksFor};
ghost use Rattle.hq_serve.specs.Inputs.{HasAnswered, piece_in, text_of};
ghost use Rattle.hq_serve.specs.Running.{Spot, IsWaiting, HasEnded, CanGoOn};
ghost use Rattle.hq_serve.specs.Seats.{IsSeated};
ghost use Rattle.hq_serve.specs.Served.{GrewBy};

use crate::desk::Desk;
use crate::settle::settle;
use hq_catalog::{Answer, Ask};
use hq_detect::{Benches, Host};
use hq_io::{Kind, Piece, Sink};
use hq_link::Link;
use hq_reply::{Reply, write_reply};
use hq_session::{Input, Session};
use hq_store::Store;
use hq_value::Failed;

// The piece of this kind, with its text.
fn piece_of(kind: Kind, text: &[u8]) -> Piece<'_>
    ensures kind { kind_in result ≡ kind }
    ensures text { Shows result text.now }
{
    match kind {
        Kind::Statement => Piece::Statement(text),
        Kind::TooLong => Piece::TooLong,
        Kind::Unended => Piece::Unended,
        Kind::End => Piece::End,
        Kind::Limit => Piece::Limit,
    }
}

/// Answers a piece of the input, or its end, at which the lanes in hand go back.
pub(crate) fn answer<
    D: Desk<Ask = Ask<S::File, S::Seal>, Answer = Answer<S::File, S::Seal>>,
    S: Store,
    H: Host,
    L: Link,
>(
    desk: &mut D,
    number: u32,
    statement: u32,
    session: &mut Session<S::File, S::Seal>,
    benches: &mut Benches<S, H, L>,
    piece: Piece<'_>,
) -> Option<Reply>
    requires catalogue { SpeaksFor S.File.tells S.Seal.tells D.may_ask D.answered }
    requires desk { D.answers desk.old number }
    requires seated { IsSeated (D.nodes desk.old) number session.old benches.old.items }
    requires waiting { CanGoOn S.File.tells S.Seal.tells (D.nodes desk.old) number statement (D.shown desk.old) session.old (counts_of S.faults H.checks H.faults L.state benches.old.items) }
    ensures desk { D.answers desk.new number }
    ensures nodes { D.nodes desk.new ≡ D.nodes desk.old }
    ensures seated { IsSeated (D.nodes desk.old) number session.new benches.new.items }
    ensures begins { StartsWith (D.shown desk.new) (D.shown desk.old) }
    ensures alone { IsTrue D.alone → GrewBy number (D.shown desk.old) (D.shown desk.new) }
    ensures later { Later (counts_of S.faults H.checks H.faults L.state benches.old.items) (counts_of S.faults H.checks H.faults L.state benches.new.items) }
    ensures ended { (file_rows : RowsOfBytes) (spot : Spot) → statement ≡ spot.end.next →
        IsWaiting file_rows (D.nodes desk.old) number S.File.tells S.Seal.tells spot (D.shown desk.old) session.old (counts_of S.faults H.checks H.faults L.state benches.old.items) →
        HasEnded file_rows (D.nodes desk.old) number S.File.tells S.Seal.tells (record spot { piece = piece_in piece.entry }) (D.shown desk.new) session.new (counts_of S.faults H.checks H.faults L.state benches.new.items) result }
{
    let turn = session.next(benches, Input::Piece(piece));
    settle(desk, number, statement, session, benches, turn)
}

/// Ends the session: the lanes in hand go back.
pub(crate) fn end<
    D: Desk<Ask = Ask<S::File, S::Seal>, Answer = Answer<S::File, S::Seal>>,
    S: Store,
    H: Host,
    L: Link,
>(
    desk: &mut D,
    number: u32,
    statement: u32,
    session: &mut Session<S::File, S::Seal>,
    benches: &mut Benches<S, H, L>,
)
    requires catalogue { SpeaksFor S.File.tells S.Seal.tells D.may_ask D.answered }
    requires desk { D.answers desk.old number }
    requires seated { IsSeated (D.nodes desk.old) number session.old benches.old.items }
    requires waiting { CanGoOn S.File.tells S.Seal.tells (D.nodes desk.old) number statement (D.shown desk.old) session.old (counts_of S.faults H.checks H.faults L.state benches.old.items) }
    ensures desk { D.answers desk.new number }
    ensures nodes { D.nodes desk.new ≡ D.nodes desk.old }
    ensures begins { StartsWith (D.shown desk.new) (D.shown desk.old) }
    ensures alone { IsTrue D.alone → GrewBy number (D.shown desk.old) (D.shown desk.new) }
    ensures later { Later (counts_of S.faults H.checks H.faults L.state benches.old.items) (counts_of S.faults H.checks H.faults L.state benches.new.items) }
    ensures ended { (file_rows : RowsOfBytes) (spot : Spot) → statement ≡ spot.end.next →
        IsWaiting file_rows (D.nodes desk.old) number S.File.tells S.Seal.tells spot (D.shown desk.old) session.old (counts_of S.faults H.checks H.faults L.state benches.old.items) →
        (reply : Maybe AReply)
        × HasEnded file_rows (D.nodes desk.old) number S.File.tells S.Seal.tells (record spot { piece = None }) (D.shown desk.new) session.new (counts_of S.faults H.checks H.faults L.state benches.new.items) reply }
    ensures home { ((txn_of session.new).lanes ≡ []) × InHand S.File.tells S.Seal.tells number (D.shown desk.new) [] }
{
    let _none = answer(desk, number, statement, session, benches, Piece::End);
}

// Writes the reply, if there is one.
fn send<B: Sink>(reply: &Option<Reply>, sink: &mut B) -> Result<(), Failed>
    ensures bytes { WritesPrefix (B.given sink.old) (B.given sink.new) result (text_of reply.now) }
    ensures some { OnErr result (IsSome reply.now) }
    ensures label { B.label sink.new ≡ B.label sink.old }
    ensures cause { HasCause (B.faults sink.old) (B.faults sink.new) result }
{
    match reply {
        Some(reply) => write_reply(reply, sink),
        None => Ok(()),
    }
}

/// Answers a piece that the reader gave, and writes the reply.
pub(crate) fn answer_and_send<
    D: Desk<Ask = Ask<S::File, S::Seal>, Answer = Answer<S::File, S::Seal>>,
    S: Store,
    H: Host,
    L: Link,
    B: Sink,
>(
    desk: &mut D,
    number: u32,
    statement: u32,
    session: &mut Session<S::File, S::Seal>,
    benches: &mut Benches<S, H, L>,
    kind: Kind,
    text: &[u8],
    sink: &mut B,
) -> Result<(), Failed>
    requires catalogue { SpeaksFor S.File.tells S.Seal.tells D.may_ask D.answered }
    requires desk { D.answers desk.old number }
    requires seated { IsSeated (D.nodes desk.old) number session.old benches.old.items }
    requires waiting { CanGoOn S.File.tells S.Seal.tells (D.nodes desk.old) number statement (D.shown desk.old) session.old (counts_of S.faults H.checks H.faults L.state benches.old.items) }
    requires piece { length (pieces_given kind text.now) ≡ 1 }
    ensures desk { D.answers desk.new number }
    ensures nodes { D.nodes desk.new ≡ D.nodes desk.old }
    ensures seated { IsSeated (D.nodes desk.old) number session.new benches.new.items }
    ensures begins { StartsWith (D.shown desk.new) (D.shown desk.old) }
    ensures alone { IsTrue D.alone → GrewBy number (D.shown desk.old) (D.shown desk.new) }
    ensures later { Later (counts_of S.faults H.checks H.faults L.state benches.old.items) (counts_of S.faults H.checks H.faults L.state benches.new.items) }
    ensures waiting { CanGoOn S.File.tells S.Seal.tells (D.nodes desk.old) number (statement + 1) (D.shown desk.new) session.new (counts_of S.faults H.checks H.faults L.state benches.new.items) }
    ensures answered { (file_rows : RowsOfBytes) (first : Counts) (pieces : List OnePiece) (replies : List (Maybe AReply)) →
        HasAnswered file_rows (D.nodes desk.old) number S.File.tells S.Seal.tells (D.shown desk.old) session.old first (counts_of S.faults H.checks H.faults L.state benches.old.items) statement pieces replies →
        (reply : Maybe AReply)
        × HasAnswered file_rows (D.nodes desk.old) number S.File.tells S.Seal.tells (D.shown desk.new) session.new first (counts_of S.faults H.checks H.faults L.state benches.new.items) (statement + 1) (pieces ++ pieces_given kind text.now) (replies ++ reply ∷ [])
        × WritesPrefix (B.given sink.old) (B.given sink.new) result (text_of reply)
        × OnErr result (IsSome reply) }
    ensures label { B.label sink.new ≡ B.label sink.old }
    ensures cause { HasCause (B.faults sink.old) (B.faults sink.new) result }
{
    let piece = piece_of(kind, text);
    let reply = answer(desk, number, statement, session, benches, piece);
    send(&reply, sink)
}
