//! Sinks and labels, at each type that has them.

use hq_cases as cases;
use hq_io::{Bytes, Kind, Label, MemSink, MemSource, Opened, Sink, Source, StatementReader};
use std::alloc::Global;
use std::test::Fail;

/// What a write answers.
pub fn write<S: Sink>(sink: &mut S, bytes: &[u8]) -> &'static str {
    match sink.write_all(bytes) {
        Ok(()) => "ok",
        Err(_) => "fault",
    }
}

/// What the next piece is.
pub fn step<S: Source>(reader: &mut StatementReader, source: &mut S) -> &'static str {
    match reader.advance(source) {
        Ok(Kind::Statement) => "statement",
        Ok(Kind::TooLong) => "too long",
        Ok(Kind::Unended) => "unended",
        Ok(Kind::End) => "end",
        Ok(Kind::Limit) => "limit",
        Err(_) => "fault",
    }
}

// The second write fails, and writes nothing.
fn planned(rt: HostRuntime) -> Result<(), Fail> {
    let alloc = rt.alloc();
    let mut sink = MemSink::new(alloc, vec![in alloc; 2; 1]?);
    let first = write(&mut sink, b"a");
    let second = write(&mut sink, b"b");
    let third = write(&mut sink, b"c");
    let given = cases::shown(alloc, sink.bytes())?;
    let faults = sink.faults();
    println!(rt; "a sink whose second write fails")?;
    println!(rt; "  {first} {second} {third}, given {given}, {faults} faults")?;
    Ok(())
}

fn label(alloc: Global, session: u32, name: &[u8]) -> Result<Label, Fail> {
    let name = Bytes::copy_of(alloc, name)?;
    Ok(Label {
        session,
        opened: Opened::File(name),
    })
}

// A source and a sink read and write as before under a label.
fn labelled(rt: HostRuntime) -> Result<(), Fail> {
    let alloc = rt.alloc();
    let name = Bytes::copy_of(alloc, b"a.sql")?;
    let shown = cases::shown(alloc, name.as_slice())?;
    let source = MemSource::new(b";".to_vec(alloc)?, 1, Vec::new(alloc));
    let mut source = source.labelled(label(alloc, 1, name.as_slice())?);
    let mut reader = StatementReader::new(alloc)?;
    let first = step(&mut reader, &mut source);
    let second = step(&mut reader, &mut source);
    let script = Opened::Script(Bytes::copy_of(alloc, b";")?);
    let sink = MemSink::new(alloc, Vec::new(alloc));
    let mut sink = sink.labelled(Label {
        session: 2,
        opened: script,
    });
    let third = write(&mut sink, b"x");
    let given = cases::shown(alloc, sink.bytes())?;
    println!(rt; "a source and a sink under labels of {shown} and of a script")?;
    println!(rt; "  {first} {second}, {third}, given {given}")?;
    Ok(())
}

/// Shows what sinks are given.
pub fn run(rt: HostRuntime) -> Result<(), Fail> {
    planned(rt)?;
    labelled(rt)
}
