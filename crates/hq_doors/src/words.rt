//! The words of the program's call.
ghost use Rattle.std.specs.Prelude.{◌≡◌, ◌↔◌, ◌∷◌, [], ℕ, List, IsTrue, IfOk, IfErr, IsErrOf, codes, map, string_bytes};
ghost use Rattle.hq_doors.specs.declared.words.Command.{Command};
ghost use Rattle.hq_doors.specs.FileNames.{IsFileName};
ghost use Rattle.hq_doors.specs.Words.{IsForm};

use hq_value::Sequence;
use std::alloc::Global;
use std::marker::Model;

/// A file's name: UTF-8, not empty, and not beginning with `-`. It is seen as its bytes.
#[derive(Debug, Drop)]
pub struct FileName {
    text: String,
}

impl Model for FileName {
    ghost use Rattle.std.specs.Prelude.{ℕ, List, string_bytes};
    ghost use Rattle.hq_doors.specs.FileNames.{IsFileName};

    ghost Value = { List ℕ };

    ghost view = { λ f. string_bytes f.text };

    ghost invariant = { λ f. IsFileName (string_bytes f.text) };
}

impl FileName {
    pub fn new(text: String) -> FileName
        requires { IsFileName (string_bytes text) }
        ensures { result ≡ string_bytes text }
    {
        FileName { text }
    }

    pub fn as_str(&self) -> &str
        ensures bytes { result.now ≡ self.now }
        ensures valid { IsFileName result.now }
    {
        self.text.as_str()
    }
}

/// What the words ask for.
#[derive(Debug, Drop)]
pub enum Command {
    /// Runs each of these files.
    Run { files: Sequence<FileName> },
}

/// Why there is no command.
#[derive(Clone, Copy, Debug, PartialEq, Eq)]
pub enum WordFault {
    /// The words are of no form.
    Usage,
    NoMemory,
}

// Whether a word is `run`.
fn is_run(word: &str) -> bool
    ensures { IsTrue result ↔ (word.now ≡ codes "run") }
{
    word == "run"
}

// Whether a word can be a file's name.
fn is_file_name(word: &[u8]) -> bool
    ensures { IsTrue result ↔ IsFileName word.now }
{
    match word {
        [] => false,
        [first, ..] => *first != b'-',
    }
}

// The command to run one file.
fn run_file(alloc: Global, file: &str) -> Result<Command, WordFault>
    requires { IsFileName file.now }
    ensures run { IfOk result (λ command. command ≡ Command.Run (file.now ∷ [])) }
    ensures err { IfErr result (λ fault. fault ≡ WordFault.NoMemory) }
{
    let Ok(text) = String::from_str(alloc, file) else {
        return Err(WordFault::NoMemory);
    };
    let mut files = Sequence::new(alloc);
    match files.push(FileName::new(text)) {
        Ok(()) => Ok(Command::Run { files }),
        Err(_) => Err(WordFault::NoMemory),
    }
}

/// The command of the words that follow the program's name: of `run FILE`, to run that file. `Usage` exactly where
/// they are of no form.
pub fn read_words(alloc: Global, words: &[String]) -> Result<Command, WordFault>
    ensures form { IfOk result (λ command. IsForm (map string_bytes words.now) command) }
    ensures no_form { IsErrOf result WordFault.Usage ↔ ((command : Command) → ¬ IsForm (map string_bytes words.now) command) }
{
    match words {
        [word, file] if is_run(word.as_str()) && is_file_name(file.as_bytes()) => {
            run_file(alloc, file.as_str())
        }
        _ => Err(WordFault::Usage),
    }
}
