// The characters of character constants and string literals (C90 6.1.3.4, 6.1.4).
ghost use Rattle.std.specs.Prelude.{◌≡◌, ◌<◌, ◌≤◌, ℕ, List, option_map, option_to_list, IfOk};
ghost use Rattle.c65_scan.specs.declared.chars.Reading.TheVariants.{Plain, Octal, Hexadecimal};
ghost use Rattle.c65_scan.specs.Chars.{simple_escape as simple_escape_of, plain_step as plain_step_of, next_step as next_step_of, escape_step as escape_step_of, octal_more as octal_more_of, hexadecimal_more as hexadecimal_more_of, char_step as char_step_of, last_char as last_char_of, chars_from, inside as inside_of, chars_of, is_wide as is_wide_of};

use crate::digits::{byte_or_zero, hexadecimal_digit, octal_digit};
use c65_base::Text as Bytes;
use std::alloc::{AllocError, Global};

/// What was read of the next character.
#[derive(Clone, Copy, Debug, PartialEq, Eq)]
pub enum Reading {
    Plain,
    /// A backslash.
    Escape,
    /// An octal escape's value and how many digits it has.
    Octal(u8, u8),
    /// A backslash and an x.
    HexadecimalMark,
    Hexadecimal(u8),
}

/// What one more byte makes of it.
#[derive(Clone, Copy, Debug, PartialEq, Eq)]
pub enum CharStep {
    Go(Reading),
    /// A character is complete.
    One(u8, Reading),
    /// An escape is complete, and the byte after it.
    Two(u8, u8, Reading),
    Bad,
}

fn simple_escape(byte: u8) -> Option<u8>
    ensures { result ≡ simple_escape_of byte }
{
    match byte {
        b'\'' => Some(b'\''),
        b'"' => Some(b'"'),
        b'?' => Some(b'?'),
        b'\\' => Some(b'\\'),
        b'a' => Some(7),
        b'b' => Some(8),
        b'f' => Some(12),
        b'n' => Some(10),
        b'r' => Some(13),
        b't' => Some(9),
        b'v' => Some(11),
        _ => None,
    }
}

fn plain_step(byte: u8) -> CharStep
    ensures { result ≡ plain_step_of byte }
{
    if byte == b'\\' {
        CharStep::Go(Reading::Escape)
    } else {
        CharStep::One(byte, Reading::Plain)
    }
}

fn next_step(value: u8, byte: u8) -> CharStep
    ensures { result ≡ next_step_of value byte }
{
    if byte == b'\\' {
        CharStep::One(value, Reading::Escape)
    } else {
        CharStep::Two(value, byte, Reading::Plain)
    }
}

fn escape_step(byte: u8) -> CharStep
    ensures { result ≡ escape_step_of (simple_escape_of byte) byte }
{
    if let Some(value) = simple_escape(byte) {
        return CharStep::One(value, Reading::Plain);
    }
    match octal_digit(byte) {
        Some(digit) => CharStep::Go(Reading::Octal(digit, 1)),
        None if byte == b'x' => CharStep::Go(Reading::HexadecimalMark),
        None => CharStep::Bad,
    }
}

fn octal_step(value: u8, count: u8, byte: u8) -> CharStep
    ensures { result ≡ char_step_of (Octal value count) byte }
{
    if count >= 3 {
        return next_step(value, byte);
    }
    let Some(digit) = octal_digit(byte) else {
        return next_step(value, byte);
    };
    let more = value as u16 * 8 + digit as u16;
    if more <= 255 {
        CharStep::Go(Reading::Octal(more as u8, count + 1))
    } else {
        CharStep::Bad
    }
}

fn hexadecimal_step(value: u8, byte: u8) -> CharStep
    ensures { result ≡ char_step_of (Hexadecimal value) byte }
{
    let Some(digit) = hexadecimal_digit(byte) else {
        return next_step(value, byte);
    };
    let more = value as u16 * 16 + digit as u16;
    if more <= 255 {
        CharStep::Go(Reading::Hexadecimal(more as u8))
    } else {
        CharStep::Bad
    }
}

fn char_step(reading: Reading, byte: u8) -> CharStep
    ensures { result ≡ char_step_of reading byte }
{
    match reading {
        Reading::Plain => plain_step(byte),
        Reading::Escape => escape_step(byte),
        Reading::Octal(value, count) => octal_step(value, count, byte),
        Reading::HexadecimalMark => match hexadecimal_digit(byte) {
            Some(digit) => CharStep::Go(Reading::Hexadecimal(digit)),
            None => CharStep::Bad,
        },
        Reading::Hexadecimal(value) => hexadecimal_step(value, byte),
    }
}

// The character that the end completes, if any, or `None` in the midst of an escape.
fn last_char(reading: Reading) -> Option<Option<u8>>
    ensures { option_map option_to_list result ≡ last_char_of reading }
{
    match reading {
        Reading::Plain => Some(None),
        Reading::Escape | Reading::HexadecimalMark => None,
        Reading::Octal(value, _) | Reading::Hexadecimal(value) => Some(Some(value)),
    }
}

fn inside(spelling: &[u8]) -> &[u8]
    ensures { result.now ≡ inside_of spelling.now }
{
    if spelling.len() < 2 {
        &[]
    } else {
        &spelling[1..spelling.len() - 1]
    }
}

fn read_inside(alloc: Global, text: &[u8]) -> Result<Option<Bytes>, AllocError>
    ensures { IfOk result (λ chars. chars ≡ chars_from Plain text.now) }
{
    let mut reading = Reading::Plain;
    let mut chars = Vec::new(alloc);
    for byte in text {
        match char_step(reading, *byte) {
            CharStep::Go(next) => reading = next,
            CharStep::One(first, next) => {
                chars.push(first)?;
                reading = next;
            }
            CharStep::Two(first, second, next) => {
                chars.push(first)?;
                chars.push(second)?;
                reading = next;
            }
            CharStep::Bad => return Ok(None),
        }
    }
    let Some(last) = last_char(reading) else {
        return Ok(None);
    };
    if let Some(value) = last {
        chars.push(value)?;
    }
    Ok(Some(Bytes::from_vec(chars)))
}

/// The characters between the quotes, or `None` for a bad escape.
pub fn read_chars(alloc: Global, spelling: &[u8]) -> Result<Option<Bytes>, AllocError>
    ensures { IfOk result (λ chars. chars ≡ chars_of spelling.now) }
{
    read_inside(alloc, inside(spelling))
}

/// Whether the prefix `L` stands before the quote.
pub fn is_wide(spelling: &[u8]) -> bool
    ensures { result ≡ is_wide_of spelling.now }
{
    byte_or_zero(spelling, 0) == b'L'
}
