//! The words, numbers and texts of a line of a table of tests. A TEXT may have `\n`, `\\` and `\xHH` in it.
#![tactic(auto)]

use std::alloc::{AllocError, Global};

/// The first word, and what stands behind the space after it.
pub fn first_word(text: &str) -> (&str, &str) {
    match text.split_once(' ') {
        Some(parts) => parts,
        None => (text, ""),
    }
}

/// A number of decimal digits.
pub fn number(text: &str) -> u32 {
    let mut number: u32 = 0;
    for byte in text.as_bytes() {
        number = number
            .saturating_mul(10)
            .saturating_add(byte.saturating_sub(b'0') as u32);
    }
    number
}

/// How far an escape was read.
#[derive(Clone, Copy)]
enum Escape {
    No,
    Backslash,
    Hex,
    Digit(u8),
}

fn hex(byte: u8) -> u8 {
    match byte {
        b'0'..=b'9' => byte - b'0',
        b'A'..=b'F' => byte - b'A' + 10,
        _ => 0,
    }
}

/// What a byte adds where an escape was read so far.
fn next(escape: Escape, byte: u8) -> (Escape, Option<u8>) {
    match escape {
        Escape::No => match byte {
            b'\\' => (Escape::Backslash, None),
            _ => (Escape::No, Some(byte)),
        },
        Escape::Backslash => match byte {
            b'n' => (Escape::No, Some(b'\n')),
            b'x' => (Escape::Hex, None),
            _ => (Escape::No, Some(byte)),
        },
        Escape::Hex => (Escape::Digit(hex(byte)), None),
        Escape::Digit(high) => (
            Escape::No,
            Some(high.wrapping_mul(16).wrapping_add(hex(byte))),
        ),
    }
}

/// A text with its escapes as the bytes that they stand for.
pub fn unescaped(alloc: Global, text: &str) -> Result<Vec<u8>, AllocError> {
    let mut bytes = Vec::new(alloc);
    let mut escape = Escape::No;
    for byte in text.as_bytes() {
        let (now, added) = next(escape, *byte);
        escape = now;
        if let Some(added) = added {
            bytes.push(added)?;
        }
    }
    Ok(bytes)
}

/// Whether a text has this part.
pub fn has_part(text: &[u8], part: &[u8]) -> bool {
    for at in 0..text.len() {
        if text[at..].starts_with(part) {
            return true;
        }
    }
    false
}
