//! The words of the program's call.

use std::rt::Env;
use std::{env, io};

/// The words after the program's name, in order. An error is a word that is no UTF-8, or want of memory.
pub fn read<R: Env + AllocGlobal>(rt: &R) -> io::Result<Vec<String>> {
    let mut words = Vec::new(rt.alloc());
    for word in env::args(rt)?.skip(1) {
        words.push(word)?;
    }
    Ok(words)
}
