// White space and comments (C90 6.1 and 6.1.9).
ghost use Rattle.std.specs.Prelude.{◌≡◌, ◌∷◌, false};
ghost use Rattle.c65_lex.specs.Cells.{ahead, cell_of};
ghost use Rattle.c65_lex.specs.Blanks;
ghost use Rattle.c65_lex.specs.Blanks.{blank_in, blank_of, opens};

use crate::classes::is_white;
use crate::jumps::{over_comment, over_line};
use crate::place::{Place, Reading, is_beyond, read};

/// What stands at a place: no white space and no comment; one of them, up to a place; a comment
/// without its end; or one in which a line is too long.
#[derive(Clone, Copy)]
pub enum Gap {
    Nothing,
    Over(Place),
    Unclosed,
    TooLong,
}

/// Goes on to the end of the line.
fn past_line(text: &[u8], from: Place) -> Gap
    ensures { blank_in text.now result ≡ Blanks.past_line (ahead text.now from) }
{
    let mut place = over_line(text, from);
    while let Some(reading) = read(text, place) {
        if reading.byte == b'\n' {
            break;
        }
        if is_beyond(reading) {
            return Gap::TooLong;
        }
        place = reading.rest;
    }
    Gap::Over(place)
}

/// Goes on to the end of a comment, from behind its beginning.
fn past_comment(text: &[u8], from: Place) -> Gap
    ensures { blank_in text.now result ≡ Blanks.past_comment false (ahead text.now from) }
{
    let mut place = over_comment(text, from);
    let mut star = false;
    while let Some(reading) = read(text, place) {
        if is_beyond(reading) {
            return Gap::TooLong;
        }
        place = reading.rest;
        if star && reading.byte == b'/' {
            return Gap::Over(place);
        }
        star = reading.byte == b'*';
    }
    Gap::Unclosed
}

fn past_star(text: &[u8], from: Place) -> Gap
    ensures { blank_in text.now result ≡ Blanks.past_star (ahead text.now from) }
{
    match read(text, from) {
        Some(star) => {
            if is_beyond(star) {
                Gap::TooLong
            } else {
                past_comment(text, star.rest)
            }
        }
        None => Gap::Unclosed,
    }
}

/// Whether a comment that goes on with a byte begins with this one.
fn opens_with(text: &[u8], byte: u8, first: Reading) -> bool
    ensures { result ≡ opens byte (cell_of first) (ahead text.now first.rest) }
{
    if first.byte != b'/' {
        return false;
    }
    match read(text, first.rest) {
        Some(second) => second.byte == byte,
        None => false,
    }
}

/// The white space or the comment at a place.
pub fn gap_at(text: &[u8], place: Place) -> Gap
    ensures { blank_in text.now result ≡ blank_of (ahead text.now place) }
{
    let Some(first) = read(text, place) else {
        return Gap::Nothing;
    };
    if is_white(first.byte) {
        if is_beyond(first) {
            Gap::TooLong
        } else {
            Gap::Over(first.rest)
        }
    } else if opens_with(text, b'/', first) {
        past_line(text, place)
    } else if opens_with(text, b'*', first) {
        past_star(text, first.rest)
    } else {
        Gap::Nothing
    }
}
