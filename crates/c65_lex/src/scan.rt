// The next token of a text.
ghost use Rattle.std.specs.Prelude.{◌≡◌, IfOk, OnErr};
ghost use Rattle.c65_lex.specs.Cells.{ahead};
ghost use Rattle.c65_lex.specs.Next.{IsNext, NeedsMemory, first_line};
ghost use Rattle.c65_lex.specs.Scanned.{IsTaken, IsSkipped, next_in};

use crate::blanks::{Gap, gap_at};
use crate::lengths::token_at;
use crate::place::{Place, is_beyond, read};
use crate::token::PpKind;
use c65_base::Text;
use std::alloc::{AllocError, Global};

/// What stands behind white space and comments: a place, and whether there was any; a comment
/// without its end, which begins on a line; or a line that is too long.
#[derive(Clone, Copy)]
pub enum Skipped {
    Here(Place, bool),
    Unclosed(u32),
    TooLong,
}

/// A token's bytes.
#[derive(Drop)]
pub struct Spelled {
    pub kind: PpKind,
    pub spelling: Text,
    pub line: u32,
    pub space: bool,
    pub rest: Place,
}

/// What comes next.
#[derive(Drop)]
pub enum Scanned {
    Ended,
    Unclosed(u32),
    TooLong,
    Token(Spelled),
}

/// The line of a place.
fn line_at(text: &[u8], place: Place) -> u32
    ensures { result ≡ first_line (ahead text.now place) }
{
    match read(text, place) {
        Some(reading) => reading.line,
        None => 0,
    }
}

/// Goes over white space and comments.
fn skip(text: &[u8], from: Place) -> Skipped
    ensures { IsSkipped text.now (ahead text.now from) result }
{
    let mut place = from;
    let mut space = false;
    loop {
        match gap_at(text, place) {
            Gap::Nothing => return Skipped::Here(place, space),
            Gap::Over(rest) => {
                place = rest;
                space = true;
            }
            Gap::Unclosed => return Skipped::Unclosed(line_at(text, place)),
            Gap::TooLong => return Skipped::TooLong,
        }
    }
}

/// Takes that many bytes, unless the line is too long at one of them.
fn take(
    alloc: Global,
    text: &[u8],
    from: Place,
    count: usize,
) -> Result<Option<(Text, Place)>, AllocError>
    ensures { IfOk result (IsTaken text.now count (ahead text.now from)) }
{
    let mut spelling = Vec::new(alloc);
    let mut place = from;
    let mut left = count;
    while left > 0 {
        let Some(reading) = read(text, place) else {
            break;
        };
        if is_beyond(reading) {
            return Ok(None);
        }
        spelling.push(reading.byte)?;
        place = reading.rest;
        left -= 1;
    }
    Ok(Some((Text::from_vec(spelling), place)))
}

/// The next token, or why there is none.
pub fn scan(alloc: Global, text: &[u8], from: Place, header: bool) -> Result<Scanned, AllocError>
    ensures next { IfOk result (λ r. IsNext header (ahead text.now from) (next_in text.now r)) }
    ensures memory { OnErr result (NeedsMemory header (ahead text.now from)) }
{
    let (place, space) = match skip(text, from) {
        Skipped::Here(place, space) => (place, space),
        Skipped::Unclosed(line) => return Ok(Scanned::Unclosed(line)),
        Skipped::TooLong => return Ok(Scanned::TooLong),
    };
    let Some(first) = read(text, place) else {
        return Ok(Scanned::Ended);
    };
    let (kind, count) = token_at(text, place, first, header);
    let Some((spelling, rest)) = take(alloc, text, place, count)? else {
        return Ok(Scanned::TooLong);
    };
    Ok(Scanned::Token(Spelled {
        kind,
        spelling,
        line: first.line,
        space,
        rest,
    }))
}
