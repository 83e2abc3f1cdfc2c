//! Rows, each in a line.
ghost use Rattle.std.specs.Prelude.{flat_map};
ghost use Rattle.hq_reply.specs.Puts.{Puts};
ghost use Rattle.hq_reply.specs.Texts.{behind_bar, row_text, row_line};

use crate::buffer::Buffer;
use crate::values::put_value;
use hq_io::Sink;
use hq_value::{Failed, Row, Value};

fn put_behind_bar<K: Sink>(value: &Value, buffer: &mut Buffer, sink: &mut K) -> Result<(), Failed>
    ensures { Puts K.given K.label K.faults K.sound sink.old sink.new
        buffer.old buffer.new result (behind_bar value.now) }
{
    buffer.put(b"|", sink)?;
    put_value(value, buffer, sink)
}

fn put_further_values<K: Sink>(
    values: &[Value],
    buffer: &mut Buffer,
    sink: &mut K,
) -> Result<(), Failed>
    ensures { Puts K.given K.label K.faults K.sound sink.old sink.new
        buffer.old buffer.new result (flat_map behind_bar values.now) }
{
    for value in values {
        put_behind_bar(value, buffer, sink)?;
    }
    Ok(())
}

fn put_values<K: Sink>(values: &[Value], buffer: &mut Buffer, sink: &mut K) -> Result<(), Failed>
    ensures { Puts K.given K.label K.faults K.sound sink.old sink.new
        buffer.old buffer.new result (row_text values.now) }
{
    match values {
        [] => Ok(()),
        [first, further @ ..] => {
            put_value(first, buffer, sink)?;
            put_further_values(further, buffer, sink)
        }
    }
}

fn put_row<K: Sink>(row: &Row, buffer: &mut Buffer, sink: &mut K) -> Result<(), Failed>
    ensures { Puts K.given K.label K.faults K.sound sink.old sink.new
        buffer.old buffer.new result (row_line row.now) }
{
    put_values(row.as_slice(), buffer, sink)?;
    buffer.put(b"\n", sink)
}

/// Puts a line for each row.
pub fn put_rows<K: Sink>(rows: &[Row], buffer: &mut Buffer, sink: &mut K) -> Result<(), Failed>
    ensures { Puts K.given K.label K.faults K.sound sink.old sink.new
        buffer.old buffer.new result (flat_map row_line rows.now) }
{
    for row in rows {
        put_row(row, buffer, sink)?;
    }
    Ok(())
}
