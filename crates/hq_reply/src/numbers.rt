//! Numbers in decimal.
ghost use Rattle.hq_reply.specs.Puts.{Puts};

use crate::buffer::Buffer;
use hq_io::Sink;
use hq_value::Failed;
use itoa::Integer;

/// Puts a number in decimal.
pub fn put_number<I: Integer, K: Sink>(
    number: I,
    buffer: &mut Buffer,
    sink: &mut K,
) -> Result<(), Failed>
    ensures { Puts K.given K.label K.faults K.sound sink.old sink.new
        buffer.old buffer.new result (I.text number) }
{
    let mut digits = itoa::Buffer::new();
    buffer.put(digits.format(number).as_bytes(), sink)
}
