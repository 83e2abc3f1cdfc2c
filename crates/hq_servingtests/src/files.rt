//! The real files and the standard output.

use crate::sinks::{step, write};
use hq_io::{FileSink, FileSource, Sink, Source, StatementReader};
use hq_value::DoorFault;
use std::fs;
use std::test::Fail;

const NAME: &str = "written.sql";

fn written_and_read(rt: HostRuntime) -> Result<(), Fail> {
    let mut sink = FileSink::create(&rt, NAME)?;
    let first = write(&mut sink, b"a;");
    let second = write(&mut sink, b"");
    let third = write(&mut sink, b"b;");
    println!(rt; "a file is written and read back")?;
    let faults = sink.faults();
    println!(rt; "  {first} {second} {third}, {faults} faults")?;
    let mut source = FileSource::open(&rt, NAME)?;
    let mut reader = StatementReader::new(rt.alloc())?;
    for _ in 0..4 {
        let next = step(&mut reader, &mut source);
        let shown = hq_cases::shown(rt.alloc(), reader.text())?;
        println!(rt; "  {next}: {shown}|")?;
    }
    let faults = source.faults();
    println!(rt; "  {faults} faults")?;
    fs::remove_file(&rt, NAME)?;
    Ok(())
}

fn opened<T: Drop>(opening: Result<T, DoorFault>) -> &'static str {
    match opening {
        Ok(_) => "opened",
        Err(DoorFault::Failed) => "failed",
        Err(DoorFault::NoMemory) => "no memory",
    }
}

fn not_opened(rt: HostRuntime) -> Result<(), Fail> {
    let missing = opened(FileSource::open(&rt, "missing.sql"));
    let folder = opened(FileSource::open(&rt, "."));
    let made = opened(FileSink::create(&rt, "."));
    println!(rt; "a missing file and a folder are not opened, and a folder is not made")?;
    println!(rt; "  {missing} {folder} {made}")?;
    Ok(())
}

/// A file is written and read back, what can't be opened is refused, and the console takes bytes.
pub fn run(rt: HostRuntime) -> Result<(), Fail> {
    written_and_read(rt)?;
    not_opened(rt)?;
    let mut console = FileSink::console(rt);
    write(&mut console, b"the console takes bytes\n");
    Ok(())
}
