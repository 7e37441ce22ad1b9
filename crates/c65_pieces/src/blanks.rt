// White space and comments (C90 6.1 and 6.1.9).
ghost use Rattle.std.specs.Prelude.{◌≡◌, ◌∷◌, false};
ghost use Rattle.c65_pieces.specs.Settled.{ahead, cell_of};
ghost use Rattle.c65_lex.specs.Blanks;
ghost use Rattle.c65_lex.specs.Blanks.{blank_of, opens};
ghost use Rattle.c65_pieces.specs.Scanned.{blank_in};

use crate::classes::is_white;
use crate::settled::{Reading, Settled, is_beyond, read};

/// What stands at a place: no white space and no comment; one of them, up to a place; a comment
/// without its end; or one in which a line is too long.
#[derive(Clone, Copy)]
pub enum Gap {
    Nothing,
    Over(usize),
    Unclosed,
    TooLong,
}

/// Goes on to the end of the line.
fn past_line(lines: &[Settled], from: usize) -> Gap
    ensures { blank_in lines.now result ≡ Blanks.past_line (ahead lines.now from) }
{
    let mut place = from;
    while let Some(reading) = read(lines, place) {
        if reading.byte == b'\n' {
            break;
        }
        if is_beyond(reading) {
            return Gap::TooLong;
        }
        place = reading.rest;
    }
    Gap::Over(place)
}

/// Goes on to the end of a comment, from behind its beginning.
pub fn past_comment(lines: &[Settled], from: usize) -> Gap
    ensures { blank_in lines.now result ≡ Blanks.past_comment false (ahead lines.now from) }
{
    let mut place = from;
    let mut star = false;
    while let Some(reading) = read(lines, place) {
        if is_beyond(reading) {
            return Gap::TooLong;
        }
        place = reading.rest;
        if star && reading.byte == b'/' {
            return Gap::Over(place);
        }
        star = reading.byte == b'*';
    }
    Gap::Unclosed
}

fn past_star(lines: &[Settled], from: usize) -> Gap
    ensures { blank_in lines.now result ≡ Blanks.past_star (ahead lines.now from) }
{
    match read(lines, from) {
        Some(star) => {
            if is_beyond(star) {
                Gap::TooLong
            } else {
                past_comment(lines, star.rest)
            }
        }
        None => Gap::Unclosed,
    }
}

/// Whether a comment that goes on with a byte begins with this one.
fn opens_with(lines: &[Settled], byte: u8, first: Reading) -> bool
    ensures { result ≡ opens byte (cell_of first) (ahead lines.now first.rest) }
{
    if first.byte != b'/' {
        return false;
    }
    match read(lines, first.rest) {
        Some(second) => second.byte == byte,
        None => false,
    }
}

/// The white space or the comment at a place.
pub fn gap_at(lines: &[Settled], place: usize) -> Gap
    ensures { blank_in lines.now result ≡ blank_of (ahead lines.now place) }
{
    let Some(first) = read(lines, place) else {
        return Gap::Nothing;
    };
    if is_white(first.byte) {
        if is_beyond(first) {
            Gap::TooLong
        } else {
            Gap::Over(first.rest)
        }
    } else if opens_with(lines, b'/', first) {
        past_line(lines, place)
    } else if opens_with(lines, b'*', first) {
        past_star(lines, first.rest)
    } else {
        Gap::Nothing
    }
}
