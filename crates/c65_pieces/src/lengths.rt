// How far the token at a place goes (C90 6.1).
ghost use Rattle.std.specs.Prelude.{◌≡◌, ◌<◌, [], ◌∷◌, ◌+◌, Some, None, false, true};
ghost use Rattle.c65_lex.specs.Cells.{bytes};
ghost use Rattle.c65_pieces.specs.Settled.{ahead, cell_of};
ghost use Rattle.c65_lex.specs.Spellings;
ghost use Rattle.c65_lex.specs.Lengths;
ghost use Rattle.c65_lex.specs.Lengths.{run_from, tail_from, close_from, quoted_of, literal_of, header_of, bare_of, token_of, punct_length};

use crate::classes::{continues, is_digit, is_letter, is_punct1, is_punct2, is_punct3, is_word};
use crate::settled::{Reading, Settled, read};
use c65_lex::PpKind;

/// The byte at a place.
fn peek(lines: &[Settled], place: usize) -> Option<u8>
    ensures { result ≡ Lengths.first (bytes (ahead lines.now place)) }
{
    match read(lines, place) {
        Some(reading) => Some(reading.byte),
        None => None,
    }
}

/// Where the letters and digits from here on end, counted on from 1.
fn word_length(lines: &[Settled], from: usize) -> usize
    ensures { result ≡ run_from 1 Spellings.is_word (bytes (ahead lines.now from)) }
{
    let mut place = from;
    let mut count = 1;
    while let Some(reading) = read(lines, place) {
        if !is_word(reading.byte) {
            break;
        }
        count += 1;
        place = reading.rest;
    }
    count
}

/// Where a number ends that begins with a byte, counted on from 1.
fn number_length(lines: &[Settled], first: u8, from: usize) -> usize
    ensures { result ≡ tail_from 1 first (bytes (ahead lines.now from)) }
{
    let mut place = from;
    let mut before = first;
    let mut count = 1;
    while let Some(reading) = read(lines, place) {
        if !continues(before, reading.byte) {
            break;
        }
        count += 1;
        before = reading.byte;
        place = reading.rest;
    }
    count
}

/// Where the closing quote ends, counted on; in plain lines a backslash takes nothing.
fn close_of(lines: &[Settled], from: usize, start: usize, quote: u8, plain: bool) -> Option<usize>
    requires { start < 3 }
    ensures { result ≡ close_from start quote plain false (bytes (ahead lines.now from)) }
{
    let mut place = from;
    let mut count = start;
    let mut taken = false;
    while let Some(reading) = read(lines, place) {
        if reading.byte == b'\n' {
            return None;
        }
        count += 1;
        if !taken && reading.byte == quote {
            return Some(count);
        }
        taken = !plain && !taken && reading.byte == b'\\';
        place = reading.rest;
    }
    None
}

/// A literal whose quote stands here, with as many bytes before it.
fn quoted_at(lines: &[Settled], place: usize, before: usize) -> Option<(PpKind, usize)>
    requires { before < 2 }
    ensures { result ≡ quoted_of before (bytes (ahead lines.now place)) }
{
    let quote = read(lines, place)?;
    let kind = if quote.byte == b'\'' {
        PpKind::Char
    } else if quote.byte == b'"' {
        PpKind::Text
    } else {
        return None;
    };
    let count = close_of(lines, quote.rest, before + 1, quote.byte, false)?;
    Some((kind, count))
}

/// The character constant or the string literal that stands here.
fn literal_at(lines: &[Settled], place: usize) -> Option<(PpKind, usize)>
    ensures { result ≡ literal_of (bytes (ahead lines.now place)) }
{
    let first = read(lines, place)?;
    if first.byte == b'L' {
        quoted_at(lines, first.rest, 1)
    } else {
        quoted_at(lines, place, 0)
    }
}

/// The header name that stands here.
fn header_at(lines: &[Settled], place: usize) -> Option<(PpKind, usize)>
    ensures { result ≡ header_of (bytes (ahead lines.now place)) }
{
    let first = read(lines, place)?;
    let close = if first.byte == b'<' {
        b'>'
    } else if first.byte == b'"' {
        b'"'
    } else {
        return None;
    };
    let second = peek(lines, first.rest)?;
    if second == close {
        return None;
    }
    let count = close_of(lines, first.rest, 1, close, true)?;
    Some((PpKind::Header, count))
}

fn length_of_one(first: u8) -> usize
    ensures { result ≡ punct_length (first ∷ []) }
{
    if is_punct1(first) { 1 } else { 0 }
}

fn length_of_two(first: u8, second: u8) -> usize
    ensures { result ≡ punct_length (first ∷ second ∷ []) }
{
    if is_punct2(first, second) {
        2
    } else {
        length_of_one(first)
    }
}

fn length_of_three(first: u8, second: u8, third: u8) -> usize
    ensures { result ≡ punct_length (first ∷ second ∷ third ∷ []) }
{
    if is_punct3(first, second, third) {
        3
    } else {
        length_of_two(first, second)
    }
}

/// How long the punctuator is that begins with a byte, or 0.
fn punct_at(lines: &[Settled], first: u8, rest: usize) -> usize
    ensures { result ≡ punct_length (first ∷ bytes (ahead lines.now rest)) }
{
    match read(lines, rest) {
        Some(second) => match peek(lines, second.rest) {
            Some(third) => length_of_three(first, second.byte, third),
            None => length_of_two(first, second.byte),
        },
        None => length_of_one(first),
    }
}

fn begins_number(lines: &[Settled], first: u8, rest: usize) -> bool
    ensures { result ≡ Spellings.begins_number first (bytes (ahead lines.now rest)) }
{
    if is_digit(first) {
        return true;
    }
    if first != b'.' {
        return false;
    }
    match peek(lines, rest) {
        Some(second) => is_digit(second),
        None => false,
    }
}

/// The token that begins with a byte, where no literal and no header name does.
fn bare_at(lines: &[Settled], first: u8, rest: usize) -> (PpKind, usize)
    ensures { result ≡ bare_of first (bytes (ahead lines.now rest)) }
{
    if first == b'\n' {
        return (PpKind::LineEnd, 1);
    }
    if is_letter(first) {
        return (PpKind::Name, word_length(lines, rest));
    }
    if begins_number(lines, first, rest) {
        return (PpKind::Number, number_length(lines, first, rest));
    }
    let length = punct_at(lines, first, rest);
    if length == 0 {
        (PpKind::Other, 1)
    } else {
        (PpKind::Punct, length)
    }
}

/// The class and the length of the token at a place, whose first byte is given.
pub fn token_at(lines: &[Settled], place: usize, first: Reading, header: bool) -> (PpKind, usize)
    requires { ahead lines.now place ≡ cell_of first ∷ ahead lines.now first.rest }
    ensures { result ≡ token_of header first.byte (bytes (ahead lines.now first.rest)) }
{
    if header {
        if let Some(found) = header_at(lines, place) {
            return found;
        }
    }
    match literal_at(lines, place) {
        Some(found) => found,
        None => bare_at(lines, first.byte, first.rest),
    }
}
