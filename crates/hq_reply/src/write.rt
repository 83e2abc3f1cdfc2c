//! Whole replies.
ghost use Rattle.std.specs.Prelude.{◌≡◌, ◌-◌, ◌^◌, ◌++◌, ◌<◌, ◌≤◌, length, decimal, IsOk};
ghost use Rattle.hq_value.specs.Causes.{HasCause};
ghost use Rattle.hq_io.specs.Told.{WritesPrefix};
ghost use Rattle.hq_reply.specs.Puts.{Puts};
ghost use Rattle.hq_reply.specs.Texts.{line, fault_text, node_text, rows_text, reply_text};

use crate::buffer::Buffer;
use crate::numbers::put_number;
use crate::rows::put_rows;
use crate::{Fault, Reply, Rows};
use hq_io::Sink;
use hq_value::Failed;

fn put_counted<K: Sink>(
    word: &[u8],
    count: u64,
    buffer: &mut Buffer,
    sink: &mut K,
) -> Result<(), Failed>
    requires { length word.now ≤ 40 }
    ensures { Puts K.given K.label K.faults K.sound sink.old sink.new
        buffer.old buffer.new result (line (word.now ++ decimal count)) }
{
    buffer.put(word, sink)?;
    put_number(count, buffer, sink)?;
    buffer.put(b"\n", sink)
}

fn put_node<K: Sink>(node: Option<u8>, buffer: &mut Buffer, sink: &mut K) -> Result<(), Failed>
    ensures { Puts K.given K.label K.faults K.sound sink.old sink.new
        buffer.old buffer.new result (node_text node) }
{
    match node {
        Some(number) => put_number(number, buffer, sink),
        None => Ok(()),
    }
}

fn put_fault<K: Sink>(fault: Fault, buffer: &mut Buffer, sink: &mut K) -> Result<(), Failed>
    ensures { Puts K.given K.label K.faults K.sound sink.old sink.new
        buffer.old buffer.new result (fault_text fault) }
{
    let wording = fault.wording();
    buffer.put(wording.before, sink)?;
    put_node(wording.node, buffer, sink)?;
    buffer.put(wording.after, sink)
}

fn put_error<K: Sink>(fault: Fault, buffer: &mut Buffer, sink: &mut K) -> Result<(), Failed>
    ensures { Puts K.given K.label K.faults K.sound sink.old sink.new
        buffer.old buffer.new result (reply_text (Reply.Error fault)) }
{
    buffer.put(b"ERROR ", sink)?;
    put_fault(fault, buffer, sink)?;
    buffer.put(b"\n", sink)
}

fn put_query<K: Sink>(rows: &Rows, buffer: &mut Buffer, sink: &mut K) -> Result<(), Failed>
    ensures { Puts K.given K.label K.faults K.sound sink.old sink.new
        buffer.old buffer.new result (rows_text rows.now) }
{
    put_rows(rows.as_slice(), buffer, sink)?;
    put_counted(b"SELECT ", rows.len() as u64, buffer, sink)
}

fn put_reply<K: Sink>(reply: &Reply, buffer: &mut Buffer, sink: &mut K) -> Result<(), Failed>
    ensures { Puts K.given K.label K.faults K.sound sink.old sink.new
        buffer.old buffer.new result (reply_text reply.now) }
{
    match reply {
        Reply::Rows(rows) => put_query(rows, buffer, sink),
        Reply::Inserted(count) => put_counted(b"INSERT ", *count, buffer, sink),
        Reply::Created => buffer.put(b"CREATE TABLE\n", sink),
        Reply::Altered => buffer.put(b"ALTER TABLE\n", sink),
        Reply::Begun => buffer.put(b"BEGIN\n", sink),
        Reply::Committed => buffer.put(b"COMMIT\n", sink),
        Reply::RolledBack => buffer.put(b"ROLLBACK\n", sink),
        Reply::Error(fault) => put_error(*fault, buffer, sink),
    }
}

/// Writes the reply's text, and takes no memory. `Failed` comes only where the sink's count of faults rose, and then
/// the sink was given a prefix of the text. A sink that promised not to fail keeps its promise.
pub fn write_reply<K: Sink>(reply: &Reply, sink: &mut K) -> Result<(), Failed>
    ensures bytes { WritesPrefix (K.given sink.old) (K.given sink.new) result (reply_text reply.now) }
    ensures label { K.label sink.new ≡ K.label sink.old }
    ensures cause { HasCause (K.faults sink.old) (K.faults sink.new) result }
    ensures sound { K.sound sink.old → (K.faults sink.new ≡ K.faults sink.old) × K.sound sink.new }
    ensures ok { K.sound sink.old → K.faults sink.old < 2 ^ 64 - 1 → IsOk result }
{
    let mut buffer = Buffer::new();
    put_reply(reply, &mut buffer, sink)?;
    buffer.flush(sink)
}
