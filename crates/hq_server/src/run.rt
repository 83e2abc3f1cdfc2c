//! The program's call: from the words and the doors to the sessions' ends.
ghost use Rattle.std.specs.Prelude.{◌≡◌, ◌≤◌, ◌⊎◌, [], ℕ, List, IsSome, map, string_bytes};
ghost use Rattle.std.specs.Io.KnownBytes.{IsAtEnd};
ghost use Rattle.std.specs.List.{AllByRecursion};
ghost use Rattle.hq_value.specs.Causes.{Rose};
ghost use Rattle.hq_doors.specs.Doors.{HasLabel, ListsLabel};
ghost use Rattle.hq_doors.specs.Words.{IsForm};
ghost use Rattle.hq_server.specs.Run.{RunsFile, IsStatus, ServesFile, HasFaults, Shows, console_text, end_text, file_label, status_of};

use crate::{EndWhy, serve_alone};
use hq_doors::{Command, Doors, FileName, Opening, Parts, WordFault, read_words};
use hq_io::Sink;
use hq_value::{DoorFault, Sequence};
use std::alloc::Global;

/// How a session ended, and what it was lent.
#[derive(Drop)]
pub struct SessionEnd<D: Doors> {
    pub session: u32,
    pub why: EndWhy,
    pub parts: Parts<D::Source, D::Sink>,
}

/// How a run ended: its status, and the end of each session.
#[derive(Drop)]
pub struct RunEnd<D: Doors> {
    pub status: u8,
    pub ends: Vec<SessionEnd<D>>,
}

const USAGE: u8 = 2;

const CANNOT_OPEN: u8 = 3;

const OUT_OF_MEMORY: u8 = 5;

fn status_of(why: EndWhy) -> u8
    ensures { result ≡ status_of why }
{
    match why {
        EndWhy::End => 0,
        EndWhy::SourceFault | EndWhy::SinkFault | EndWhy::InputLimit => 4,
        EndWhy::NoMemory => OUT_OF_MEMORY,
    }
}

fn end_text(why: EndWhy) -> &'static [u8]
    ensures { result.now ≡ end_text why }
{
    match why {
        EndWhy::End => b"",
        EndWhy::SourceFault => b"session 1: source fault\n",
        EndWhy::SinkFault => b"session 1: sink fault\n",
        EndWhy::InputLimit => b"session 1: input limit\n",
        EndWhy::NoMemory => b"hawq: out of memory\n",
    }
}

// Shows a text on the console.
fn show<C: Sink>(console: &mut C, text: &[u8])
    ensures shows { Shows (C.given console.old) (C.given console.new) (C.faults console.old) (C.faults console.new) text.now }
    ensures label { C.label console.new ≡ C.label console.old }
    ensures later { C.faults console.old ≤ C.faults console.new }
{
    match console.write_all(text) {
        Ok(()) => {}
        Err(_) => {}
    }
}

// Opens the file as session 1 and serves it.
fn run_file<D: Doors>(alloc: Global, name: &str, doors: &mut D) -> RunEnd<D>
    ensures status { IsStatus result.status (map (λ end. end.why) result.ends.items) }
    ensures formed { result.status ≡ 2 → ⊥ }
    ensures doors { result.status ≡ 3 → Rose (D.faults doors.old) (D.faults doors.new) }
    ensures later { D.faults doors.old ≤ D.faults doors.new }
    ensures files { (name : List ℕ) → D.file doors.new name ≡ D.file doors.old name }
    ensures unopened { result.ends.items ≡ [] → D.opened doors.new ≡ D.opened doors.old }
    ensures honest { result.ends.items ≡ [] → (D.faults doors.new ≡ D.faults doors.old) ⊎ (result.status ≡ 3) }
    ensures read { AllByRecursion (λ end. end.why ≡ EndWhy.End → IsAtEnd (D.Source.left end.parts.source)) result.ends.items }
    ensures told { IsSome (D.opened doors.old) → AllByRecursion (λ end. IsSome (D.Source.label end.parts.source) × IsSome (D.Sink.label end.parts.sink)) result.ends.items }
    ensures sessions { AllByRecursion (λ end. end.session ≡ 1) result.ends.items }
    ensures served { AllByRecursion (λ end. ServesFile end.why (D.file doors.old name.now) (D.Source.left end.parts.source) (D.Sink.given end.parts.sink)) result.ends.items }
    ensures faults { AllByRecursion (λ end. HasFaults end.why (D.Source.faults end.parts.source) (D.Sink.faults end.parts.sink)) result.ends.items }
    ensures labels { AllByRecursion (λ end. HasLabel (D.Source.label end.parts.source) (file_label name.now) × HasLabel (D.Sink.label end.parts.sink) (file_label name.now)) result.ends.items }
    ensures opened { AllByRecursion (λ _. ListsLabel (D.opened doors.old) (D.opened doors.new) (file_label name.now)) result.ends.items }
{
    let mut ends = match Vec::with_capacity(alloc, 1) {
        Ok(ends) => ends,
        Err(_) => {
            return RunEnd {
                status: OUT_OF_MEMORY,
                ends: Vec::new(alloc),
            };
        }
    };
    match doors.open(1, Opening::File(name)) {
        Ok(parts) => {
            let Parts { source, sink } = parts;
            let mut source = source;
            let mut sink = sink;
            let why = serve_alone(alloc, &mut source, &mut sink);
            ends.push_reserved(SessionEnd {
                session: 1,
                why,
                parts: Parts { source, sink },
            });
            RunEnd {
                status: status_of(why),
                ends,
            }
        }
        Err(DoorFault::Failed) => RunEnd {
            status: CANNOT_OPEN,
            ends,
        },
        Err(DoorFault::NoMemory) => RunEnd {
            status: OUT_OF_MEMORY,
            ends,
        },
    }
}

// The text that the console is to show.
fn console_text<D: Doors>(end: &RunEnd<D>) -> &'static [u8]
    ensures { result.now ≡ console_text end.now.status (map (λ end. end.why) end.now.ends.items) }
{
    match end.ends.as_slice() {
        [] => match end.status {
            USAGE => b"usage: hawq run [--segments N] [--data FOLDER] FILE..\n",
            CANNOT_OPEN => b"hawq: cannot open\n",
            _ => b"hawq: out of memory\n",
        },
        [first, ..] => end_text(first.why),
    }
}

// Serves the only file that the words name.
fn run_only<D: Doors>(
    alloc: Global,
    words: &[String],
    files: &Sequence<FileName>,
    doors: &mut D,
) -> RunEnd<D>
    requires { IsForm (map string_bytes words.now) (Command.Run files.now) }
    ensures status { IsStatus result.status (map (λ end. end.why) result.ends.items) }
    ensures formed { result.status ≡ 2 → ⊥ }
    ensures doors { result.status ≡ 3 → Rose (D.faults doors.old) (D.faults doors.new) }
    ensures later { D.faults doors.old ≤ D.faults doors.new }
    ensures files { (name : List ℕ) → D.file doors.new name ≡ D.file doors.old name }
    ensures unopened { result.ends.items ≡ [] → D.opened doors.new ≡ D.opened doors.old }
    ensures honest { result.ends.items ≡ [] → (D.faults doors.new ≡ D.faults doors.old) ⊎ (result.status ≡ 3) }
    ensures read { AllByRecursion (λ end. end.why ≡ EndWhy.End → IsAtEnd (D.Source.left end.parts.source)) result.ends.items }
    ensures told { IsSome (D.opened doors.old) → AllByRecursion (λ end. IsSome (D.Source.label end.parts.source) × IsSome (D.Sink.label end.parts.sink)) result.ends.items }
    ensures sessions { AllByRecursion (λ end. end.session ≡ 1) result.ends.items }
    ensures served { (name : List ℕ) → RunsFile (map string_bytes words.now) name → AllByRecursion (λ end. ServesFile end.why (D.file doors.old name) (D.Source.left end.parts.source) (D.Sink.given end.parts.sink)) result.ends.items }
    ensures faults { AllByRecursion (λ end. HasFaults end.why (D.Source.faults end.parts.source) (D.Sink.faults end.parts.sink)) result.ends.items }
    ensures labels { (name : List ℕ) → RunsFile (map string_bytes words.now) name → AllByRecursion (λ end. HasLabel (D.Source.label end.parts.source) (file_label name) × HasLabel (D.Sink.label end.parts.sink) (file_label name)) result.ends.items }
    ensures opened { (name : List ℕ) → RunsFile (map string_bytes words.now) name → AllByRecursion (λ _. ListsLabel (D.opened doors.old) (D.opened doors.new) (file_label name)) result.ends.items }
{
    match files.as_slice() {
        [file] => run_file(alloc, file.as_str(), doors),
        _ => unreachable!(),
    }
}

// Serves the file that the words name, with no console.
fn run_words<D: Doors>(alloc: Global, words: &[String], doors: &mut D) -> RunEnd<D>
    ensures status { IsStatus result.status (map (λ end. end.why) result.ends.items) }
    ensures usage { result.status ≡ 2 → (name : List ℕ) → RunsFile (map string_bytes words.now) name → ⊥ }
    ensures no_form { ((name : List ℕ) → RunsFile (map string_bytes words.now) name → ⊥) → result.status ≡ 2 }
    ensures doors { result.status ≡ 3 → Rose (D.faults doors.old) (D.faults doors.new) }
    ensures later { D.faults doors.old ≤ D.faults doors.new }
    ensures files { (name : List ℕ) → D.file doors.new name ≡ D.file doors.old name }
    ensures unopened { result.ends.items ≡ [] → D.opened doors.new ≡ D.opened doors.old }
    ensures honest { result.ends.items ≡ [] → (D.faults doors.new ≡ D.faults doors.old) ⊎ (result.status ≡ 3) }
    ensures read { AllByRecursion (λ end. end.why ≡ EndWhy.End → IsAtEnd (D.Source.left end.parts.source)) result.ends.items }
    ensures told { IsSome (D.opened doors.old) → AllByRecursion (λ end. IsSome (D.Source.label end.parts.source) × IsSome (D.Sink.label end.parts.sink)) result.ends.items }
    ensures sessions { AllByRecursion (λ end. end.session ≡ 1) result.ends.items }
    ensures served { (name : List ℕ) → RunsFile (map string_bytes words.now) name → AllByRecursion (λ end. ServesFile end.why (D.file doors.old name) (D.Source.left end.parts.source) (D.Sink.given end.parts.sink)) result.ends.items }
    ensures faults { AllByRecursion (λ end. HasFaults end.why (D.Source.faults end.parts.source) (D.Sink.faults end.parts.sink)) result.ends.items }
    ensures labels { (name : List ℕ) → RunsFile (map string_bytes words.now) name → AllByRecursion (λ end. HasLabel (D.Source.label end.parts.source) (file_label name) × HasLabel (D.Sink.label end.parts.sink) (file_label name)) result.ends.items }
    ensures opened { (name : List ℕ) → RunsFile (map string_bytes words.now) name → AllByRecursion (λ _. ListsLabel (D.opened doors.old) (D.opened doors.new) (file_label name)) result.ends.items }
{
    match read_words(alloc, words) {
        Ok(Command::Run { files }) => run_only(alloc, words, &files, doors),
        Err(WordFault::Usage) => RunEnd {
            status: USAGE,
            ends: Vec::new(alloc),
        },
        Err(WordFault::NoMemory) => RunEnd {
            status: OUT_OF_MEMORY,
            ends: Vec::new(alloc),
        },
    }
}

/// Serves the file that the words name as session 1, from the bytes that come in to the bytes that go out, and shows on
/// the console how it ended.
///
/// The status is 0 where the session ended by `End`; 2 where the words are of no form; 3 where the doors failed; 4
/// where the session ended by a fault of its source or sink or at an input limit; 5 for want of memory.
pub fn run_alone<D: Doors>(
    alloc: Global,
    words: &[String],
    doors: &mut D,
    console: &mut D::Console,
) -> RunEnd<D>
    ensures status { IsStatus result.status (map (λ end. end.why) result.ends.items) }
    // 2 comes exactly where the words are of no form.
    ensures usage { result.status ≡ 2 → (name : List ℕ) → RunsFile (map string_bytes words.now) name → ⊥ }
    ensures no_form { ((name : List ℕ) → RunsFile (map string_bytes words.now) name → ⊥) → result.status ≡ 2 }
    // 3 comes only where the doors have failed.
    ensures doors { result.status ≡ 3 → Rose (D.faults doors.old) (D.faults doors.new) }
    ensures later { D.faults doors.old ≤ D.faults doors.new }
    // The doors tell the same files after, and where no session has run, they opened nothing and failed only with status 3.
    ensures files { (name : List ℕ) → D.file doors.new name ≡ D.file doors.old name }
    ensures unopened { result.ends.items ≡ [] → D.opened doors.new ≡ D.opened doors.old }
    ensures honest { result.ends.items ≡ [] → (D.faults doors.new ≡ D.faults doors.old) ⊎ (result.status ≡ 3) }
    // At the end of the input the source has nothing left.
    ensures read { AllByRecursion (λ end. end.why ≡ EndWhy.End → IsAtEnd (D.Source.left end.parts.source)) result.ends.items }
    // Doors that tell what they opened hand out what tells its label.
    ensures told { IsSome (D.opened doors.old) → AllByRecursion (λ end. IsSome (D.Source.label end.parts.source) × IsSome (D.Sink.label end.parts.sink)) result.ends.items }
    ensures sessions { AllByRecursion (λ end. end.session ≡ 1) result.ends.items }
    // What a session wrote is the replies to the pieces of its file, in order.
    ensures served { (name : List ℕ) → RunsFile (map string_bytes words.now) name → AllByRecursion (λ end. ServesFile end.why (D.file doors.old name) (D.Source.left end.parts.source) (D.Sink.given end.parts.sink)) result.ends.items }
    ensures faults { AllByRecursion (λ end. HasFaults end.why (D.Source.faults end.parts.source) (D.Sink.faults end.parts.sink)) result.ends.items }
    ensures labels { (name : List ℕ) → RunsFile (map string_bytes words.now) name → AllByRecursion (λ end. HasLabel (D.Source.label end.parts.source) (file_label name) × HasLabel (D.Sink.label end.parts.sink) (file_label name)) result.ends.items }
    ensures opened { (name : List ℕ) → RunsFile (map string_bytes words.now) name → AllByRecursion (λ _. ListsLabel (D.opened doors.old) (D.opened doors.new) (file_label name)) result.ends.items }
    ensures console { Shows (D.Console.given console.old) (D.Console.given console.new) (D.Console.faults console.old) (D.Console.faults console.new) (console_text result.status (map (λ end. end.why) result.ends.items)) }
{
    let end = run_words(alloc, words, doors);
    let text = console_text(&end);
    if !text.is_empty() {
        show(console, text);
    }
    end
}
