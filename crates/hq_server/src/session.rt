//! One session: its pieces are answered one after another.
ghost use Rattle.std.specs.Prelude.{◌≡◌, ◌≤◌, ◌+◌, ℕ, List, None, true, MatchResult, OnOk};
ghost use Rattle.std.specs.Io.KnownBytes.{IsAtEnd};
ghost use Rattle.std.specs.declared.option.Option.{Option};
ghost use Rattle.hq_value.specs.Causes.{HasCause};
ghost use Rattle.hq_io.specs.Told.{IfTold, WritesPrefix};
ghost use Rattle.hq_io.specs.Reading.{ahead, pieces_given};
ghost use Rattle.hq_server.specs.Course.{AnswersKept, AnswersInto, text_of};
ghost use Rattle.hq_server.specs.Ending.{Causes, Ended, MayEnd, Served};

use crate::EndWhy;
use crate::database::Database;
use hq_io::{Kind, Sink, Source, StatementReader, is_blank};
use hq_reply::{Fault, Reply, write_reply};
use hq_value::Failed;
use std::alloc::Global;

// The reply to a piece; a blank one has none.
fn reply_to(alloc: Global, database: &mut Database, kind: Kind, text: &[u8]) -> Option<Reply>
    ensures { AnswersKept (pieces_given kind text.now) database.old result database.new }
{
    match kind {
        Kind::Statement => statement_reply(alloc, database, text),
        Kind::TooLong => Some(Reply::Error(Fault::TooLong)),
        Kind::Unended => Some(Reply::Error(Fault::Syntax)),
        Kind::End => None,
        Kind::Limit => None,
    }
}

fn statement_reply(alloc: Global, database: &mut Database, text: &[u8]) -> Option<Reply>
    ensures { AnswersKept (pieces_given Kind.Statement text.now) database.old result database.new }
{
    if is_blank(text) {
        return None;
    }
    Some(database.answer(alloc, text))
}

fn send<B: Sink>(reply: &Option<Reply>, sink: &mut B) -> Result<(), Failed>
    ensures bytes { WritesPrefix (B.given sink.old) (B.given sink.new) result (text_of reply.now) }
    ensures label { B.label sink.new ≡ B.label sink.old }
    ensures cause { HasCause (B.faults sink.old) (B.faults sink.new) result }
{
    match reply {
        Some(reply) => write_reply(reply, sink),
        None => Ok(()),
    }
}

// Answers a piece and writes the reply.
fn answer<B: Sink>(
    alloc: Global,
    database: &mut Database,
    kind: Kind,
    text: &[u8],
    sink: &mut B,
) -> Result<(), Failed>
    ensures answered { AnswersInto result (pieces_given kind text.now) database.old database.new (B.given sink.old) (B.given sink.new) }
    ensures label { B.label sink.new ≡ B.label sink.old }
    ensures cause { HasCause (B.faults sink.old) (B.faults sink.new) result }
{
    let reply = reply_to(alloc, database, kind, text);
    send(&reply, sink)
}

// Goes to the next piece and answers it, or says why the session ends.
fn turn<A: Source, B: Sink>(
    alloc: Global,
    database: &mut Database,
    reader: &mut StatementReader,
    source: &mut A,
    sink: &mut B,
) -> Result<(), EndWhy>
    ensures served { (whole first : Option (List ℕ)) → IfTold whole (ahead reader.old (A.left source.old)) (Served first (B.given sink.old) database.old reader.old)
        → MatchResult result
        (λ _. IfTold whole (ahead reader.new (A.left source.new)) (Served first (B.given sink.new) database.new reader.new))
        (λ why. Ended why whole (A.left source.new) first (B.given sink.new)) }
    ensures read { (reader.old.ended ≡ true → IsAtEnd (A.left source.old))
        → MatchResult result
        (λ _. reader.new.ended ≡ true → IsAtEnd (A.left source.new))
        (λ why. why ≡ EndWhy.End → IsAtEnd (A.left source.new)) }
    ensures pieces { OnOk result ((reader.new.pieces ≡ reader.old.pieces + 1) × (reader.new.pieces ≤ 100000)) }
    ensures cause { MayEnd result (A.faults source.old) (A.faults source.new) (B.faults sink.old) (B.faults sink.new) }
    ensures source_label { A.label source.new ≡ A.label source.old }
    ensures sink_label { B.label sink.new ≡ B.label sink.old }
{
    match reader.advance(source) {
        Err(_) => Err(EndWhy::SourceFault),
        Ok(kind) => match kind {
            Kind::End => Err(EndWhy::End),
            Kind::Limit => Err(EndWhy::InputLimit),
            _ => match answer(alloc, database, kind, reader.text(), sink) {
                Ok(()) => Ok(()),
                Err(_) => Err(EndWhy::SinkFault),
            },
        },
    }
}

// Serves what is ahead of the reader.
fn serve_all<A: Source, B: Sink>(
    alloc: Global,
    database: &mut Database,
    reader: &mut StatementReader,
    source: &mut A,
    sink: &mut B,
) -> EndWhy
    ensures served { (whole first : Option (List ℕ)) → IfTold whole (ahead reader.old (A.left source.old)) (Served first (B.given sink.old) database.old reader.old)
        → Ended result whole (A.left source.new) first (B.given sink.new) }
    ensures read { (reader.old.ended ≡ true → IsAtEnd (A.left source.old)) → result ≡ EndWhy.End → IsAtEnd (A.left source.new) }
    ensures cause { Causes result (A.faults source.old) (A.faults source.new) (B.faults sink.old) (B.faults sink.new) }
    ensures source_label { A.label source.new ≡ A.label source.old }
    ensures sink_label { B.label sink.new ≡ B.label sink.old }
{
    loop {
        match turn(alloc, database, reader, source, sink) {
            Ok(()) => {}
            Err(why) => return why,
        }
    }
}

/// Serves a session over tables of its own, from the first piece to its end. Each reply is written before the next
/// piece is read.
pub fn serve_alone<A: Source, B: Sink>(alloc: Global, source: &mut A, sink: &mut B) -> EndWhy
    ensures served { Ended result (A.left source.old) (A.left source.new) (B.given sink.old) (B.given sink.new) }
    // At the end of the input the source has nothing left.
    ensures read { result ≡ EndWhy.End → IsAtEnd (A.left source.new) }
    ensures cause { Causes result (A.faults source.old) (A.faults source.new) (B.faults sink.old) (B.faults sink.new) }
    ensures source_label { A.label source.new ≡ A.label source.old }
    ensures sink_label { B.label sink.new ≡ B.label sink.old }
{
    let mut database = Database::new(alloc);
    match StatementReader::new(alloc) {
        Ok(reader) => {
            let mut reader = reader;
            serve_all(alloc, &mut database, &mut reader, source, sink)
        }
        Err(_) => EndWhy::NoMemory,
    }
}
