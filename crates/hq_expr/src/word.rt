//! Words: reserved ones and names.
ghost use Rattle.std.specs.Prelude.{◌≡◌, ◌<◌, length, map, slice_index, IfOk, IsErrOf};
ghost use Rattle.std.specs.Char.{to_ascii_lowercase};
ghost use Rattle.std.specs.Str.{bytes_eq};
ghost use Rattle.hq_expr.specs.Lexemes as spec;

use crate::fault::ParseFault;
use crate::lexeme::Lexeme;
use crate::mark::Mark;
use hq_value::Name;
use std::alloc::{AllocError, Global};

// The words that are no names, by their first letters.
const A_WORDS: [(&str, Mark); 5] = [
    ("add", Mark::Add),
    ("alter", Mark::Alter),
    ("and", Mark::And),
    ("as", Mark::As),
    ("asc", Mark::Asc),
];

const B_WORDS: [(&str, Mark); 5] = [
    ("begin", Mark::Begin),
    ("bigint", Mark::Bigint),
    ("bool", Mark::Bool),
    ("boolean", Mark::Boolean),
    ("by", Mark::By),
];

const C_WORDS: [(&str, Mark); 4] = [
    ("column", Mark::Column),
    ("commit", Mark::Commit),
    ("count", Mark::Count),
    ("create", Mark::Create),
];

const D_WORDS: [(&str, Mark); 3] = [
    ("desc", Mark::Desc),
    ("distinct", Mark::Distinct),
    ("distributed", Mark::Distributed),
];

const F_WORDS: [(&str, Mark); 2] = [("false", Mark::False), ("from", Mark::From)];

const G_WORDS: [(&str, Mark); 1] = [("group", Mark::Group)];

const H_WORDS: [(&str, Mark); 1] = [("having", Mark::Having)];

const I_WORDS: [(&str, Mark); 6] = [
    ("inner", Mark::Inner),
    ("insert", Mark::Insert),
    ("int", Mark::Int),
    ("integer", Mark::Integer),
    ("into", Mark::Into),
    ("is", Mark::Is),
];

const J_WORDS: [(&str, Mark); 1] = [("join", Mark::Join)];

const L_WORDS: [(&str, Mark); 1] = [("limit", Mark::Limit)];

const M_WORDS: [(&str, Mark); 2] = [("max", Mark::Max), ("min", Mark::Min)];

const N_WORDS: [(&str, Mark); 2] = [("not", Mark::Not), ("null", Mark::Null)];

const O_WORDS: [(&str, Mark); 3] = [("on", Mark::On), ("or", Mark::Or), ("order", Mark::Order)];

const R_WORDS: [(&str, Mark); 2] = [("randomly", Mark::Randomly), ("rollback", Mark::Rollback)];

const S_WORDS: [(&str, Mark); 3] = [
    ("select", Mark::Select),
    ("snapshot", Mark::Snapshot),
    ("sum", Mark::Sum),
];

const T_WORDS: [(&str, Mark); 3] = [
    ("table", Mark::Table),
    ("text", Mark::Text),
    ("true", Mark::True),
];

const V_WORDS: [(&str, Mark); 1] = [("values", Mark::Values)];

const W_WORDS: [(&str, Mark); 1] = [("where", Mark::Where)];

/// What a word is for the grammar.
pub fn word(alloc: Global, run: &[u8]) -> Result<Lexeme, ParseFault>
    requires { 0 < length run.now }
    ensures ok { IfOk result (λ lexeme. lexeme ≡ spec.word_of (map to_ascii_lowercase run.now)) }
    ensures err { IsErrOf result ParseFault.Syntax → ⊥ }
{
    match reserved(run) {
        Some(mark) => Ok(Lexeme::Mark(mark)),
        None => {
            if run.len() > Name::MOST {
                return Ok(Lexeme::Long);
            }
            let bytes = lower(alloc, run)?;
            Ok(Lexeme::Name(Name::new(bytes)))
        }
    }
}

/// The reserved word that a run is, in any case.
#[tactic(auto, using(crate::proofs::Letters::by_letter), unfolding(crate::specs::Lexemes::reserved))]
pub fn reserved(run: &[u8]) -> Option<Mark>
    ensures { result ≡ spec.reserved (map to_ascii_lowercase run.now) }
{
    match first_letter(run) {
        b'a' => look_up(run, &A_WORDS),
        b'b' => look_up(run, &B_WORDS),
        b'c' => look_up(run, &C_WORDS),
        b'd' => look_up(run, &D_WORDS),
        b'f' => look_up(run, &F_WORDS),
        b'g' => look_up(run, &G_WORDS),
        b'h' => look_up(run, &H_WORDS),
        b'i' => look_up(run, &I_WORDS),
        b'j' => look_up(run, &J_WORDS),
        b'l' => look_up(run, &L_WORDS),
        b'm' => look_up(run, &M_WORDS),
        b'n' => look_up(run, &N_WORDS),
        b'o' => look_up(run, &O_WORDS),
        b'r' => look_up(run, &R_WORDS),
        b's' => look_up(run, &S_WORDS),
        b't' => look_up(run, &T_WORDS),
        b'v' => look_up(run, &V_WORDS),
        b'w' => look_up(run, &W_WORDS),
        _ => None,
    }
}

// The first byte in lower case, or 0.
fn first_letter(run: &[u8]) -> u8
    ensures { result ≡ slice_index (map to_ascii_lowercase run.now) 0 }
{
    match run.first() {
        Some(first) => first.to_ascii_lowercase(),
        None => 0,
    }
}

fn look_up(run: &[u8], entries: &[(&str, Mark)]) -> Option<Mark>
    ensures { result ≡ spec.look_up (map to_ascii_lowercase run.now) (map (λ e. (map to_ascii_lowercase e.0.now, e.1)) entries.now) }
{
    for (word, mark) in entries {
        if is_same(run, word.as_bytes()) {
            return Some(*mark);
        }
    }
    None
}

fn is_same(run: &[u8], word: &[u8]) -> bool
    ensures { result ≡ bytes_eq (map to_ascii_lowercase run.now) (map to_ascii_lowercase word.now) }
{
    run.eq_ignore_ascii_case(word)
}

fn lower(alloc: Global, run: &[u8]) -> Result<Vec<u8>, AllocError>
    ensures { IfOk result (λ bytes. bytes.items ≡ map to_ascii_lowercase run.now) }
{
    let bytes = run.iter().map(|b| b.to_ascii_lowercase()).collect(alloc)?;
    Ok(bytes)
}
