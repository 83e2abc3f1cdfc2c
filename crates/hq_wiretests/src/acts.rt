//! What a link in memory does at its calls, from words.

use hq_cases as cases;
use hq_sim::Act;
use std::alloc::Global;
use std::test::Fail;

// A number behind a colon, or 0.
fn place(word: &str) -> u32 {
    match word.split_once(':') {
        Some((_, place)) => cases::number(place).min(1_000_000) as u32,
        None => 0,
    }
}

/// The act of a word: `give`, `lose`, `repeat`, `late:PLACE`, `stale:PLACE`, `failsend`, `failnext`.
pub fn act(word: &str) -> Act {
    match word {
        "lose" => Act::Lose,
        "repeat" => Act::Repeat,
        "failsend" => Act::FailSend,
        "failnext" => Act::FailNext,
        _ if word.starts_with("late") => Act::Late(place(word)),
        _ if word.starts_with("stale") => Act::Stale(place(word)),
        _ => Act::Give,
    }
}

/// The acts of words; `COUNT*WORD` is the word so often.
pub fn acts(alloc: Global, text: &str) -> Result<Vec<Act>, Fail> {
    let mut acts = Vec::new(alloc);
    for word in text.split_whitespace() {
        let (count, word) = match word.split_once('*') {
            Some((count, word)) => (cases::number(count), word),
            None => (1, word),
        };
        for _ in 0..count {
            acts.push(act(word))?;
        }
    }
    Ok(acts)
}

/// The act behind so many `Give`s.
pub fn behind(alloc: Global, count: usize, last: Act) -> Result<Vec<Act>, Fail> {
    let mut acts = Vec::new(alloc);
    for _ in 0..count {
        acts.push(Act::Give)?;
    }
    acts.push(last)?;
    Ok(acts)
}
