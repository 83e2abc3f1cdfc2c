//! Files of cases, which test programs read: a line is a word and the text behind it; one that is empty or begins with
//! `#` says nothing.
#![tactic(auto)]

use std::alloc::Global;
use std::fs;
use std::test::Fail;

// How far an escape was read.
#[derive(Clone, Copy)]
enum Escape {
    None,
    Begun,
    Hex,
    Digit(u8),
}

/// The text of a file of cases.
pub fn text_of(rt: HostRuntime, name: &str) -> Result<String, Fail> {
    let text = fs::read_to_string(&rt, name)?;
    Ok(text)
}

/// The word of a line and the text behind it, or none where it says nothing.
pub fn line_of(line: &str) -> Option<(&str, &str)> {
    if line.is_empty() || line.starts_with('#') {
        return None;
    }
    match line.split_once(' ') {
        Some((word, rest)) => Some((word, rest)),
        None => Some((line, "")),
    }
}

/// The number that a text is, or 0.
pub fn number(text: &str) -> usize {
    match text.parse::<u32>() {
        Ok(number) => number as usize,
        Err(_) => 0,
    }
}

/// A number, and the text behind it.
pub fn counted(text: &str) -> (usize, &str) {
    match text.split_once(' ') {
        Some((count, rest)) => (number(count), rest),
        None => (number(text), ""),
    }
}

/// The numbers of a text, parted by blanks.
pub fn numbers(alloc: Global, text: &str) -> Result<Vec<u64>, Fail> {
    let mut numbers = Vec::new(alloc);
    for word in text.split_whitespace() {
        numbers.push(number(word) as u64)?;
    }
    Ok(numbers)
}

fn digit(byte: u8) -> u8 {
    match byte {
        b'0'..=b'9' => byte - b'0',
        b'a'..=b'f' => byte - b'a' + 10,
        _ => 0,
    }
}

// One byte of a text more.
fn take(bytes: &mut Vec<u8>, escape: Escape, byte: u8) -> Result<Escape, Fail> {
    match escape {
        Escape::None if byte == b'\\' => return Ok(Escape::Begun),
        Escape::None => bytes.push(byte)?,
        Escape::Begun if byte == b'n' => bytes.push(b'\n')?,
        Escape::Begun if byte == b'r' => bytes.push(b'\r')?,
        Escape::Begun if byte == b't' => bytes.push(b'\t')?,
        Escape::Begun if byte == b'x' => return Ok(Escape::Hex),
        Escape::Begun => bytes.push(byte)?,
        Escape::Hex => return Ok(Escape::Digit(digit(byte))),
        Escape::Digit(high) => bytes.push((high & 15) << 4 | digit(byte))?,
    }
    Ok(Escape::None)
}

/// Adds the bytes of a text, in which `\n`, `\r`, `\t`, `\\` and `\xHH` stand for a byte.
pub fn add(bytes: &mut Vec<u8>, text: &str) -> Result<(), Fail> {
    let mut escape = Escape::None;
    for byte in text.as_bytes() {
        escape = take(bytes, escape, *byte)?;
    }
    Ok(())
}

/// Adds the bytes of `COUNT TEXT`, the text so often.
pub fn add_many(bytes: &mut Vec<u8>, text: &str) -> Result<(), Fail> {
    let (count, text) = counted(text);
    for _ in 0..count {
        add(bytes, text)?;
    }
    Ok(())
}

fn show(out: &mut String, byte: u8) -> Result<(), Fail> {
    match byte {
        b'\n' => out.push_str("\\n")?,
        b'\r' => out.push_str("\\r")?,
        b'\t' => out.push_str("\\t")?,
        b'\\' => out.push_str("\\\\")?,
        b' '..=b'~' => out.push(byte as char)?,
        _ => write!(out, "\\x{byte:02x}")?,
    }
    Ok(())
}

// So many bytes are shown whole.
const MOST: usize = 400;

/// Bytes by the same escapes; of many their number and the last ones.
pub fn shown(alloc: Global, bytes: &[u8]) -> Result<String, Fail> {
    let mut out = String::new(alloc);
    let count = bytes.len();
    let mut tail = bytes;
    if count > MOST {
        write!(out, "{count} bytes up to ")?;
        tail = &bytes[count - 32..];
    }
    for byte in tail {
        show(&mut out, *byte)?;
    }
    Ok(out)
}
