//! A session is served from its first piece to its end.
ghost use Rattle.std.specs.Prelude.{◌≡◌, ◌≢◌, ◌+◌, ◌<◌, ◌≤◌, ◌&&◌, ℕ, List, [], true, length, IsTrue, MatchResult, OnOk, IfErr};
ghost use Rattle.std.specs.declared.option.Option.{Option as Maybe};
ghost use Rattle.std.specs.Io.KnownBytes.{IsAtEnd};
ghost use Rattle.hq_history.specs.History.{by, StartsWith};
ghost use Rattle.hq_catalog.specs.History.{history};
ghost use Rattle.hq_turns.specs.Counts.{Counts, counts_of, Later};
ghost use Rattle.hq_turns.specs.Hand.{InHand};
ghost use Rattle.hq_session.specs.Waits.{RowsOfBytes};
ghost use Rattle.hq_serve.specs.Asking.{SpeaksFor};
ghost use Rattle.hq_serve.specs.Causes.{Causes, MayEnd};
ghost use Rattle.hq_serve.specs.Inputs.{SoFar, IsLast};
ghost use Rattle.hq_serve.specs.Running.{CanGoOn};
ghost use Rattle.hq_serve.specs.Seats.{IsSeated};
ghost use Rattle.hq_serve.specs.Served.{IsServed, HasRun, GrewBy};

use crate::desk::Desk;
use crate::pieces::{answer_and_send, end};
use hq_catalog::{Answer, Ask, Catalogue};
use hq_detect::{Benches, Host};
use hq_io::{Kind, Sink, Source, StatementReader};
use hq_link::Link;
use hq_session::Session;
use hq_store::Store;
use hq_transcript::EndWhy;
use std::alloc::Global;

// Goes to the next piece, of this number, and answers it, or says why the session goes no further.
fn turn<
    D: Desk<Ask = Ask<S::File, S::Seal>, Answer = Answer<S::File, S::Seal>>,
    S: Store,
    H: Host,
    L: Link,
    A: Source,
    B: Sink,
>(
    desk: &mut D,
    number: u32,
    statement: &mut u32,
    session: &mut Session<S::File, S::Seal>,
    benches: &mut Benches<S, H, L>,
    reader: &mut StatementReader,
    source: &mut A,
    sink: &mut B,
) -> Result<(), EndWhy>
    requires catalogue { SpeaksFor S.File.tells S.Seal.tells D.may_ask D.answered }
    requires desk { D.answers desk.old number }
    requires seated { IsSeated (D.nodes desk.old) number session.old benches.old.items }
    requires waiting { CanGoOn S.File.tells S.Seal.tells (D.nodes desk.old) number statement.old (D.shown desk.old) session.old (counts_of S.faults H.checks H.faults L.state benches.old.items) }
    requires count { statement.old ≡ reader.old.pieces + 1 }
    ensures desk { D.answers desk.new number }
    ensures nodes { D.nodes desk.new ≡ D.nodes desk.old }
    ensures seated { IsSeated (D.nodes desk.old) number session.new benches.new.items }
    ensures begins { StartsWith (D.shown desk.new) (D.shown desk.old) }
    ensures alone { IsTrue D.alone → GrewBy number (D.shown desk.old) (D.shown desk.new) }
    ensures waiting { CanGoOn S.File.tells S.Seal.tells (D.nodes desk.old) number statement.new (D.shown desk.new) session.new (counts_of S.faults H.checks H.faults L.state benches.new.items) }
    ensures count { OnOk result (statement.new ≡ reader.new.pieces + 1) }
    ensures pieces { OnOk result ((reader.new.pieces ≡ reader.old.pieces + 1) × (reader.new.pieces ≤ 100000)) }
    ensures so_far { (file_rows : RowsOfBytes) (first : Counts) (whole given : Maybe (List ℕ)) →
        SoFar file_rows (D.nodes desk.old) number S.File.tells S.Seal.tells (D.shown desk.old) session.old first (counts_of S.faults H.checks H.faults L.state benches.old.items) statement.old reader.old whole (A.left source.old) given (B.given sink.old) →
        MatchResult result
        (λ _. SoFar file_rows (D.nodes desk.old) number S.File.tells S.Seal.tells (D.shown desk.new) session.new first (counts_of S.faults H.checks H.faults L.state benches.new.items) statement.new reader.new whole (A.left source.new) given (B.given sink.new))
        (λ why. IsLast file_rows (D.nodes desk.old) number S.File.tells S.Seal.tells (D.shown desk.new) session.new first (counts_of S.faults H.checks H.faults L.state benches.new.items) statement.new why whole (A.left source.new) given (B.given sink.new)) }
    ensures read { (reader.old.ended ≡ true → IsAtEnd (A.left source.old))
        → MatchResult result
        (λ _. reader.new.ended ≡ true → IsAtEnd (A.left source.new))
        (λ why. why ≡ EndWhy.End → IsAtEnd (A.left source.new)) }
    ensures memory { IfErr result (λ why. why ≢ EndWhy.NoMemory) }
    ensures cause { MayEnd result (A.faults source.old) (A.faults source.new) (B.faults sink.old) (B.faults sink.new) }
    ensures source_label { A.label source.new ≡ A.label source.old }
    ensures sink_label { B.label sink.new ≡ B.label sink.old }
{
    match reader.advance(source) {
        Err(_) => Err(EndWhy::SourceFault),
        Ok(kind) => match kind {
            Kind::End => Err(EndWhy::End),
            Kind::Limit => Err(EndWhy::InputLimit),
            _ => {
                let this = *statement;
                *statement = this + 1;
                match answer_and_send(
                    desk,
                    number,
                    this,
                    session,
                    benches,
                    kind,
                    reader.text(),
                    sink,
                ) {
                    Ok(()) => Ok(()),
                    Err(_) => Err(EndWhy::SinkFault),
                }
            }
        },
    }
}

// Answers what is ahead of the reader, and says why the session goes no further.
fn serve_pieces<
    D: Desk<Ask = Ask<S::File, S::Seal>, Answer = Answer<S::File, S::Seal>>,
    S: Store,
    H: Host,
    L: Link,
    A: Source,
    B: Sink,
>(
    desk: &mut D,
    number: u32,
    statement: &mut u32,
    session: &mut Session<S::File, S::Seal>,
    benches: &mut Benches<S, H, L>,
    reader: &mut StatementReader,
    source: &mut A,
    sink: &mut B,
) -> EndWhy
    requires catalogue { SpeaksFor S.File.tells S.Seal.tells D.may_ask D.answered }
    requires desk { D.answers desk.old number }
    requires seated { IsSeated (D.nodes desk.old) number session.old benches.old.items }
    requires waiting { CanGoOn S.File.tells S.Seal.tells (D.nodes desk.old) number statement.old (D.shown desk.old) session.old (counts_of S.faults H.checks H.faults L.state benches.old.items) }
    requires count { statement.old ≡ reader.old.pieces + 1 }
    ensures desk { D.answers desk.new number }
    ensures nodes { D.nodes desk.new ≡ D.nodes desk.old }
    ensures seated { IsSeated (D.nodes desk.old) number session.new benches.new.items }
    ensures begins { StartsWith (D.shown desk.new) (D.shown desk.old) }
    ensures alone { IsTrue D.alone → GrewBy number (D.shown desk.old) (D.shown desk.new) }
    ensures waiting { CanGoOn S.File.tells S.Seal.tells (D.nodes desk.old) number statement.new (D.shown desk.new) session.new (counts_of S.faults H.checks H.faults L.state benches.new.items) }
    ensures last { (file_rows : RowsOfBytes) (first : Counts) (whole given : Maybe (List ℕ)) →
        SoFar file_rows (D.nodes desk.old) number S.File.tells S.Seal.tells (D.shown desk.old) session.old first (counts_of S.faults H.checks H.faults L.state benches.old.items) statement.old reader.old whole (A.left source.old) given (B.given sink.old) →
        IsLast file_rows (D.nodes desk.old) number S.File.tells S.Seal.tells (D.shown desk.new) session.new first (counts_of S.faults H.checks H.faults L.state benches.new.items) statement.new result whole (A.left source.new) given (B.given sink.new) }
    ensures read { (reader.old.ended ≡ true → IsAtEnd (A.left source.old)) → result ≡ EndWhy.End → IsAtEnd (A.left source.new) }
    ensures memory { result ≢ EndWhy.NoMemory }
    ensures cause { Causes result (A.faults source.old) (A.faults source.new) (B.faults sink.old) (B.faults sink.new) }
    ensures source_label { A.label source.new ≡ A.label source.old }
    ensures sink_label { B.label sink.new ≡ B.label sink.old }
{
    loop {
        match turn(
            desk, number, statement, session, benches, reader, source, sink,
        ) {
            Ok(()) => {}
            Err(why) => return why,
        }
    }
}

/// Serves a session at a desk, from its first piece to its end: each reply is written before the next piece is read.
/// The session has no entry in what the desk has shown and no lane out, and there is one bench for each node.
///
/// `SourceFault` and `SinkFault` come only where that object's faults rose in the call, `InputLimit` exactly at the
/// reader's limit, and `NoMemory` only before the first piece. However it ends, every lane has gone back.
pub fn serve_at<
    D: Desk<Ask = Ask<S::File, S::Seal>, Answer = Answer<S::File, S::Seal>>,
    S: Store,
    H: Host,
    L: Link,
    A: Source,
    B: Sink,
>(
    alloc: Global,
    desk: &mut D,
    number: u32,
    benches: &mut Benches<S, H, L>,
    source: &mut A,
    sink: &mut B,
) -> EndWhy
    requires catalogue { SpeaksFor S.File.tells S.Seal.tells D.may_ask D.answered }
    requires desk { D.answers desk.old number }
    requires some { 0 < D.nodes desk.old }
    requires few { D.nodes desk.old ≤ 16 }
    requires benches { length benches.old.items ≡ D.nodes desk.old }
    requires fresh { by number (D.shown desk.old) ≡ [] }
    requires home { InHand S.File.tells S.Seal.tells number (D.shown desk.old) [] }
    ensures desk { D.answers desk.new number }
    ensures nodes { D.nodes desk.new ≡ D.nodes desk.old }
    // What was written is the replies to the input, each error with its cause.
    ensures served { (file_rows : RowsOfBytes) → IsServed file_rows (S.File.tells && S.Seal.tells) (D.nodes desk.old) number (D.shown desk.new) (counts_of S.faults H.checks H.faults L.state benches.old.items) (counts_of S.faults H.checks H.faults L.state benches.new.items) result (A.left source.old) (A.left source.new) (B.given sink.old) (B.given sink.new) }
    ensures run { (file_rows : RowsOfBytes) → HasRun file_rows (S.File.tells && S.Seal.tells) (D.nodes desk.old) number (D.shown desk.new) (counts_of S.faults H.checks H.faults L.state benches.old.items) (counts_of S.faults H.checks H.faults L.state benches.new.items) result (B.given sink.old) (B.given sink.new) }
    // Without memory nothing was read, written or asked.
    ensures memory { result ≡ EndWhy.NoMemory → (A.left source.new ≡ A.left source.old) × (B.given sink.new ≡ B.given sink.old) × (D.shown desk.new ≡ D.shown desk.old) }
    ensures begins { StartsWith (D.shown desk.new) (D.shown desk.old) }
    ensures alone { IsTrue D.alone → GrewBy number (D.shown desk.old) (D.shown desk.new) }
    ensures home { InHand S.File.tells S.Seal.tells number (D.shown desk.new) [] }
    ensures later { Later (counts_of S.faults H.checks H.faults L.state benches.old.items) (counts_of S.faults H.checks H.faults L.state benches.new.items) }
    // At the end of the input the source has nothing left.
    ensures read { result ≡ EndWhy.End → IsAtEnd (A.left source.new) }
    ensures cause { Causes result (A.faults source.old) (A.faults source.new) (B.faults sink.old) (B.faults sink.new) }
    ensures source_label { A.label source.new ≡ A.label source.old }
    ensures sink_label { B.label sink.new ≡ B.label sink.old }
{
    let mut reader = match StatementReader::new(alloc) {
        Ok(reader) => reader,
        Err(_) => return EndWhy::NoMemory,
    };
    let mut session = Session::new(alloc, number, benches.len() as u8);
    let mut statement = 1;
    let why = serve_pieces(
        desk,
        number,
        &mut statement,
        &mut session,
        benches,
        &mut reader,
        source,
        sink,
    );
    end(desk, number, statement, &mut session, benches);
    session.close();
    why
}

/// Serves a session alone over a catalogue, in which it has no entry.
pub fn serve_alone<S: Store, H: Host, L: Link, A: Source, B: Sink>(
    alloc: Global,
    catalogue: &mut Catalogue<S::File, S::Seal>,
    number: u32,
    benches: &mut Benches<S, H, L>,
    source: &mut A,
    sink: &mut B,
) -> EndWhy
    requires some { 0 < length catalogue.old.marks }
    requires few { length catalogue.old.marks ≤ 16 }
    requires benches { length benches.old.items ≡ length catalogue.old.marks }
    requires fresh { by number (history (S.File.tells && S.Seal.tells) catalogue.old) ≡ [] }
    ensures nodes { length catalogue.new.marks ≡ length catalogue.old.marks }
    ensures served { (file_rows : RowsOfBytes) → IsServed file_rows (S.File.tells && S.Seal.tells) (length catalogue.old.marks) number (history (S.File.tells && S.Seal.tells) catalogue.new) (counts_of S.faults H.checks H.faults L.state benches.old.items) (counts_of S.faults H.checks H.faults L.state benches.new.items) result (A.left source.old) (A.left source.new) (B.given sink.old) (B.given sink.new) }
    ensures run { (file_rows : RowsOfBytes) → HasRun file_rows (S.File.tells && S.Seal.tells) (length catalogue.old.marks) number (history (S.File.tells && S.Seal.tells) catalogue.new) (counts_of S.faults H.checks H.faults L.state benches.old.items) (counts_of S.faults H.checks H.faults L.state benches.new.items) result (B.given sink.old) (B.given sink.new) }
    ensures memory { result ≡ EndWhy.NoMemory → (A.left source.new ≡ A.left source.old) × (B.given sink.new ≡ B.given sink.old) × (history (S.File.tells && S.Seal.tells) catalogue.new ≡ history (S.File.tells && S.Seal.tells) catalogue.old) }
    // The history grows by entries of this session alone.
    ensures grown { GrewBy number (history (S.File.tells && S.Seal.tells) catalogue.old) (history (S.File.tells && S.Seal.tells) catalogue.new) }
    ensures home { InHand S.File.tells S.Seal.tells number (history (S.File.tells && S.Seal.tells) catalogue.new) [] }
    ensures later { Later (counts_of S.faults H.checks H.faults L.state benches.old.items) (counts_of S.faults H.checks H.faults L.state benches.new.items) }
    ensures read { result ≡ EndWhy.End → IsAtEnd (A.left source.new) }
    ensures cause { Causes result (A.faults source.old) (A.faults source.new) (B.faults sink.old) (B.faults sink.new) }
    ensures source_label { A.label source.new ≡ A.label source.old }
    ensures sink_label { B.label sink.new ≡ B.label sink.old }
{
    catalogue.stands();
    serve_at(alloc, catalogue, number, benches, source, sink)
}
