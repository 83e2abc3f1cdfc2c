//! The pieces of what a source gives.
ghost use Rattle.std.specs.Io.KnownBytes.{IsAtEnd};
ghost use Rattle.std.specs.Prelude.{◌≡◌, ◌≤◌, ◌+◌, ◌++◌, ◌≢◌, ◌^◌, [], false, true, length, Ok, IfOk, IsSome, OnErr};
ghost use Rattle.hq_value.specs.Causes.{HasCause};
ghost use Rattle.hq_io.specs.Told.{IfTold};
ghost use Rattle.hq_io.specs.Counted.{Counted};

use crate::chunk::Chunk;
use crate::gather::gather;
use crate::held::MOST;
use crate::{Kind, Piece, Source};
use hq_value::NoMemory;
use std::alloc::Global;
use std::marker::Model;

/// The pieces of an input are at most these.
const MOST_PIECES: u32 = 100_000;

/// The source has failed.
#[derive(Clone, Copy, Debug, PartialEq, Eq)]
pub struct ReadFault;

/// Cuts what a source gives into pieces at every `;`. Contracts see it as a `Reading`.
#[derive(Drop)]
pub struct StatementReader {
    chunk: Chunk,
    text: Vec<u8>,
    ended: bool,
    pieces: u32,
    taken: u64,
}

impl Model for StatementReader {
    ghost use Rattle.std.specs.Prelude.{◌≤◌, ◌^◌, vec_capacity};
    ghost use Rattle.hq_io.specs.Reading.{Reading};

    ghost Value = { Reading };

    ghost view = { λ r. record { held = r.chunk; ended = r.ended; text = r.text.items; pieces = r.pieces; taken = r.taken } };

    ghost invariant = { λ r. (65536 ≤ vec_capacity r.text) × (r.pieces ≤ 100000) × (r.taken ≤ 2 ^ 32) };
}

impl StatementReader {
    ghost use Rattle.hq_io.specs.Reading.{ahead, pieces_given, Cuts, PassesLimit, HasMost, Breaks};

    /// A reader that has taken nothing. No later call takes memory.
    pub fn new(alloc: Global) -> Result<StatementReader, NoMemory>
        ensures { IfOk result (λ reader. reader ≡ record { held = []; ended = false; text = []; pieces = 0; taken = 0 }) }
    {
        let chunk = Chunk::new(alloc)?;
        let text = Vec::with_capacity(alloc, MOST)?;
        Ok(StatementReader {
            chunk,
            text,
            ended: false,
            pieces: 0,
            taken: 0,
        })
    }

    /// The text of the last piece.
    pub fn text(&self) -> &[u8]
        ensures { result.now ≡ self.now.text }
    {
        self.text.as_slice()
    }

    /// Goes to the next piece, whose text is then `text`.
    pub fn advance<S: Source>(&mut self, source: &mut S) -> Result<Kind, ReadFault>
        ensures piece { IfOk result (λ kind. kind ≢ Kind.Limit → IfTold (ahead self.old (S.left source.old)) (ahead self.new (S.left source.new)) (Cuts kind self.old self.new)) }
        ensures limit { IfOk result (λ kind. kind ≡ Kind.Limit → IfTold (ahead self.old (S.left source.old)) (ahead self.new (S.left source.new)) (PassesLimit self.old self.new)) }
        ensures pieces { IfOk result (λ kind. kind ≢ Kind.Limit → self.new.pieces ≡ self.old.pieces + length (pieces_given kind self.new.text)) }
        ensures ended { IfOk result (λ kind. kind ≡ Kind.End → self.new.ended ≡ true) }
        ensures unended { IfOk result (λ kind. kind ≡ Kind.Unended → self.new.ended ≡ true) }
        ensures over { self.old.ended ≡ true → result ≡ Ok Kind.End }
        ensures told { IsSome (S.left source.old) → IsSome (S.left source.new) }
        ensures at_end { IfOk result (λ _. (self.old.ended ≡ true → IsAtEnd (S.left source.old)) → self.new.ended ≡ true → IsAtEnd (S.left source.new)) }
        ensures most { IfOk result (λ kind. kind ≡ Kind.Limit → HasMost self.old self.new) }
        ensures fault { OnErr result (IfTold (ahead self.old (S.left source.old)) (S.left source.new) (Breaks self.old self.new)) }
        ensures kept { OnErr result ((self.new.held ≡ []) × (self.new.ended ≡ false) × (self.new.pieces ≡ self.old.pieces)) }
        ensures was_within { (self.old.pieces ≤ 100000) × (self.old.taken ≤ 2 ^ 32) }
        ensures within { (self.new.pieces ≤ 100000) × (self.new.taken ≤ 2 ^ 32) }
        ensures label { S.label source.new ≡ S.label source.old }
        ensures cause { HasCause (S.faults source.old) (S.faults source.new) result }
        ensures sound { S.sound source.old → (S.faults source.new ≡ S.faults source.old) × S.sound source.new }
    {
        if self.ended {
            self.text.clear();
            return Ok(Kind::End);
        }
        match gather(&mut self.chunk, &mut self.text, &mut self.taken, source) {
            Ok(stop) => {
                let kind = stop.kind(&self.text);
                self.ended = stop.is_rest();
                Ok(counted(&mut self.pieces, kind))
            }
            Err(_) => Err(ReadFault),
        }
    }
}

impl StatementReader {
    ghost use Rattle.hq_io.specs.Next.{kind_in, kind_result, Shows, Steps};
    ghost use Rattle.hq_io.specs.contracts.reader.StatementReader.{the_row};
    ghost use Rattle.std.specs.Borrow.{sem};
    ghost use Rattle.std.specs.Io.BufRead.{Rests};

    fn piece(&self, kind: Kind) -> Piece<'_>
        ensures kind { kind_in result ≡ kind }
        ensures text { Shows result self.now.text }
    {
        match kind {
            Kind::Statement => Piece::Statement(self.text.as_slice()),
            Kind::TooLong => Piece::TooLong,
            Kind::Unended => Piece::Unended,
            Kind::End => Piece::End,
            Kind::Limit => Piece::Limit,
        }
    }

    /// The next piece: what stands before the next `;`, or the rest, which is the end where it is blank.
    ///
    /// A piece of more than 65,536 bytes is too long, and its bytes are skipped up to its `;` or the end. `Limit`
    /// comes where the input has more than 100,000 pieces or 4,294,967,296 bytes. `ReadFault` comes only where the
    /// source's faults rose in this call. Before either, every piece was given whose `;` the source gave within both
    /// limits. After `End` it answers `End`.
    pub fn next<S: Source>(&mut self, source: &mut S) -> Result<Piece<'_>, ReadFault>
        ensures* after_borrow { sem 𝓛 (Rests the_row self.entry (λ new. IfOk result (λ piece. Shows piece new.text) × Steps (kind_result result) self.old new (S.left source.old) (S.left source.new))) }
        ensures label { S.label source.new ≡ S.label source.old }
        ensures cause { HasCause (S.faults source.old) (S.faults source.new) result }
        ensures sound { S.sound source.old → (S.faults source.new ≡ S.faults source.old) × S.sound source.new }
    {
        match self.advance(source) {
            Ok(kind) => Ok(self.piece(kind)),
            Err(fault) => Err(fault),
        }
    }
}

// The next piece, where an input may have so many.
fn counted(pieces: &mut u32, kind: Kind) -> Kind
    requires { pieces.old ≤ 100000 }
    ensures within { pieces.new ≤ 100000 }
    ensures kind { Counted kind result pieces.old pieces.new }
{
    if kind == Kind::End || kind == Kind::Limit {
        return kind;
    }
    if *pieces >= MOST_PIECES {
        return Kind::Limit;
    }
    *pieces += 1;
    kind
}
