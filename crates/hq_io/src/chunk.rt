//! The bytes that were read from a source and not yet taken.
ghost use Rattle.std.specs.Prelude.{◌≡◌, ◌↔◌, ◌<◌, ◌≤◌, [], false, length, drop, IsTrue, IfOk, OnErr};
ghost use Rattle.std.specs.Io.KnownBytes.{prepend_known, Keeps, IsAtEnd};
ghost use Rattle.hq_value.specs.Causes.{HasCause};

use crate::Source;
use hq_value::{Failed, NoMemory};
use std::alloc::Global;
use std::marker::Model;

// As many bytes are asked of a source at once.
const SIZE: usize = 8_192;

/// The bytes that were read and not yet taken.
#[derive(Drop)]
pub struct Chunk {
    bytes: Vec<u8>,
    at: usize,
    end: usize,
}

impl Model for Chunk {
    ghost use Rattle.std.specs.Prelude.{ℕ, List, ◌<◌, ◌≤◌, length, slice_range};

    ghost Value = { List ℕ };

    ghost view = { λ c. slice_range c.bytes.items c.at c.end };

    ghost invariant = { λ c. (c.at ≤ c.end) × (c.end ≤ length c.bytes.items) × (0 < length c.bytes.items) };
}

impl Chunk {
    /// Holds nothing yet.
    pub fn new(alloc: Global) -> Result<Chunk, NoMemory>
        ensures { IfOk result (λ chunk. chunk ≡ []) }
    {
        let bytes = vec![in alloc; 0; SIZE]?;
        Ok(Chunk {
            bytes,
            at: 0,
            end: 0,
        })
    }

    pub fn as_slice(&self) -> &[u8]
        ensures { result.now ≡ self.now }
    {
        &self.bytes[self.at..self.end]
    }

    /// Takes the first bytes.
    pub fn skip(&mut self, count: usize)
        requires { count ≤ length self.old }
        ensures { self.new ≡ drop count self.old }
    {
        self.at += count;
    }

    fn is_empty(&self) -> bool
        ensures { IsTrue result ↔ (self.now ≡ []) }
    {
        self.at == self.end
    }

    // Reads the next bytes, and says whether there were any.
    fn refill<S: Source>(&mut self, source: &mut S) -> Result<bool, Failed>
        requires { self.old ≡ [] }
        ensures kept { Keeps (prepend_known self.old (S.left source.old)) (prepend_known self.new (S.left source.new)) }
        ensures some { IfOk result (λ some. IsTrue some → 0 < length self.new) }
        ensures none { IfOk result (λ some. some ≡ false → (self.new ≡ []) × IsAtEnd (S.left source.new)) }
        ensures fault { OnErr result (self.new ≡ []) }
        ensures label { S.label source.new ≡ S.label source.old }
        ensures cause { HasCause (S.faults source.old) (S.faults source.new) result }
        ensures sound { S.sound source.old → (S.faults source.new ≡ S.faults source.old) × S.sound source.new }
    {
        match source.read(&mut self.bytes) {
            Ok(count) => {
                self.at = 0;
                self.end = count;
                Ok(count > 0)
            }
            Err(fault) => Err(fault),
        }
    }

    /// Reads the next bytes where none are held, and says whether any are held then; if not, the source is at its
    /// end. Where the source fails, none are held.
    pub fn fill<S: Source>(&mut self, source: &mut S) -> Result<bool, Failed>
        ensures kept { Keeps (prepend_known self.old (S.left source.old)) (prepend_known self.new (S.left source.new)) }
        ensures some { IfOk result (λ some. IsTrue some → 0 < length self.new) }
        ensures none { IfOk result (λ some. some ≡ false → (self.new ≡ []) × IsAtEnd (S.left source.new)) }
        ensures fault { OnErr result (self.new ≡ []) }
        ensures label { S.label source.new ≡ S.label source.old }
        ensures cause { HasCause (S.faults source.old) (S.faults source.new) result }
        ensures sound { S.sound source.old → (S.faults source.new ≡ S.faults source.old) × S.sound source.new }
    {
        if self.is_empty() {
            return self.refill(source);
        }
        Ok(true)
    }
}
