//! Values, as they are printed.
ghost use Rattle.std.specs.Prelude.{◌≡◌, ◌≤◌, ◌∷◌, [], true, length, take, flat_map};
ghost use Rattle.hq_reply.specs.Puts.{Puts};
ghost use Rattle.hq_reply.specs.Texts.{IsPart, printed_byte, value_text};

use crate::buffer::Buffer;
use crate::numbers::put_number;
use hq_io::Sink;
use hq_value::{Failed, Value};

// Whether the byte is printed as it stands.
fn is_plain(byte: u8) -> bool
    ensures { result ≡ true → printed_byte byte ≡ byte ∷ [] }
{
    !matches!(byte, b'\\' | b'|' | b'\n' | b'\r')
}

fn put_byte<K: Sink>(byte: u8, buffer: &mut Buffer, sink: &mut K) -> Result<(), Failed>
    ensures { Puts K.given K.label K.faults K.sound sink.old sink.new
        buffer.old buffer.new result (printed_byte byte) }
{
    match byte {
        b'\\' => buffer.put(b"\\\\", sink),
        b'|' => buffer.put(b"\\|", sink),
        b'\n' => buffer.put(b"\\n", sink),
        b'\r' => buffer.put(b"\\r", sink),
        other => buffer.put(&[other], sink),
    }
}

// How many bytes stand in front of the first that has a `\\` in front of it, or in front of the end.
fn plain_length(text: &[u8]) -> usize
    ensures within { result ≤ length text.now }
    ensures plain { flat_map printed_byte (take result text.now) ≡ take result text.now }
{
    let mut count = 0;
    while count < text.len() {
        if !is_plain(text[count]) {
            return count;
        }
        count += 1;
    }
    count
}

// How many of the first bytes are put at once: those up to one that has a `\\` in front of it, or that one.
fn part_length(text: &[u8]) -> usize
    requires { 1 ≤ length text.now }
    ensures some { 1 ≤ result }
    ensures within { result ≤ length text.now }
    ensures part { IsPart (take result text.now) }
{
    let count = plain_length(text);
    if count == 0 { 1 } else { count }
}

fn put_part<K: Sink>(part: &[u8], buffer: &mut Buffer, sink: &mut K) -> Result<(), Failed>
    requires { IsPart part.now }
    ensures { Puts K.given K.label K.faults K.sound sink.old sink.new
        buffer.old buffer.new result (flat_map printed_byte part.now) }
{
    match part {
        [byte] => put_byte(*byte, buffer, sink),
        _ => buffer.put_run(part, sink),
    }
}

fn put_text<K: Sink>(text: &[u8], buffer: &mut Buffer, sink: &mut K) -> Result<(), Failed>
    ensures { Puts K.given K.label K.faults K.sound sink.old sink.new
        buffer.old buffer.new result (flat_map printed_byte text.now) }
{
    let mut count = 0;
    while count < text.len() {
        let more = part_length(&text[count..]);
        put_part(&text[count..count + more], buffer, sink)?;
        count += more;
    }
    Ok(())
}

/// Puts a value's text.
pub fn put_value<K: Sink>(value: &Value, buffer: &mut Buffer, sink: &mut K) -> Result<(), Failed>
    ensures { Puts K.given K.label K.faults K.sound sink.old sink.new
        buffer.old buffer.new result (value_text value.now) }
{
    match value {
        Value::Null => buffer.put(b"\\N", sink),
        Value::Bool(false) => buffer.put(b"f", sink),
        Value::Bool(true) => buffer.put(b"t", sink),
        Value::Int(number) => put_number(*number, buffer, sink),
        Value::Text(text) => put_text(text.as_bytes(), buffer, sink),
    }
}
