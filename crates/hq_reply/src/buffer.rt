//! Bytes on their way to a sink.
ghost use Rattle.std.specs.Prelude.{◌≡◌, ◌+◌, ◌++◌, ◌≤◌, [], length, OnOk};
ghost use Rattle.hq_reply.specs.Puts.{Puts};

use hq_io::Sink;
use hq_value::Failed;
use std::marker::Model;

/// The bytes that were not yet given to the sink. It takes no memory but its own.
#[derive(Drop)]
pub struct Buffer {
    bytes: [u8; Buffer::ROOM],
    len: usize,
}

impl Model for Buffer {
    ghost use Rattle.std.specs.Prelude.{◌≤◌, ℕ, List, take};

    ghost Value = { List ℕ };

    ghost view = { λ b. take b.len b.bytes };

    ghost invariant = { λ b. b.len ≤ 4096 };
}

impl Buffer {
    /// How many bytes it can hold.
    pub const ROOM: usize = 4096;

    pub fn new() -> Buffer
        ensures { result ≡ [] }
    {
        Buffer {
            bytes: [0; Buffer::ROOM],
            len: 0,
        }
    }

    fn room(&self) -> usize
        ensures { result + length self.now ≡ 4096 }
    {
        Buffer::ROOM - self.len
    }

    fn as_slice(&self) -> &[u8]
        ensures { result.now ≡ self.now }
    {
        &self.bytes[..self.len]
    }

    fn clear(&mut self)
        ensures { self.new ≡ [] }
    {
        self.len = 0;
    }

    fn add(&mut self, bytes: &[u8])
        requires { length self.old + length bytes.now ≤ 4096 }
        ensures { self.new ≡ self.old ++ bytes.now }
    {
        let end = self.len + bytes.len();
        self.bytes[self.len..end].copy_from_slice(bytes);
        self.len = end;
    }

    /// Gives the sink all that is held.
    pub fn flush<K: Sink>(&mut self, sink: &mut K) -> Result<(), Failed>
        ensures puts { Puts K.given K.label K.faults K.sound sink.old sink.new
            self.old self.new result [] }
        ensures empty { OnOk result (self.new ≡ []) }
    {
        match sink.write_all(self.as_slice()) {
            Ok(()) => {
                self.clear();
                Ok(())
            }
            Err(failed) => Err(failed),
        }
    }

    /// Takes these bytes, which are no more than it can hold.
    pub fn put<K: Sink>(&mut self, bytes: &[u8], sink: &mut K) -> Result<(), Failed>
        requires { length bytes.now ≤ 4096 }
        ensures { Puts K.given K.label K.faults K.sound sink.old sink.new
            self.old self.new result bytes.now }
    {
        if bytes.len() <= self.room() {
            self.add(bytes);
            return Ok(());
        }
        self.flush(sink)?;
        self.add(bytes);
        Ok(())
    }

    /// Takes these bytes, however many: where there is no room for them, the sink gets what is held and then them.
    pub fn put_run<K: Sink>(&mut self, bytes: &[u8], sink: &mut K) -> Result<(), Failed>
        ensures { Puts K.given K.label K.faults K.sound sink.old sink.new
            self.old self.new result bytes.now }
    {
        if bytes.len() <= Buffer::ROOM {
            return self.put(bytes, sink);
        }
        self.flush(sink)?;
        sink.write_all(bytes)
    }
}
