// The next token of a lines.
ghost use Rattle.std.specs.Prelude.{◌≡◌, ◌++◌, IfOk, OnErr};
ghost use Rattle.c65_pieces.specs.Settled.{ahead};
ghost use Rattle.c65_lex.specs.Next.{IsNext, NeedsMemory, first_line};
ghost use Rattle.c65_pieces.specs.Scanned.{IsTaken, IsEntered, IsSkipped, next_in, opening};

use crate::blanks::{Gap, gap_at, past_comment};
use crate::lengths::token_at;
use crate::settled::{Settled, is_beyond, read};
use c65_base::Text;
use c65_lex::PpKind;
use std::alloc::{AllocError, Global};

/// What stands behind white space and comments: a place, and whether there was any; a comment
/// without its end, which begins on a line; or a line that is too long.
#[derive(Clone, Copy)]
pub enum Skipped {
    Here(usize, bool),
    Unclosed(u32),
    TooLong,
}

/// A token's bytes.
#[derive(Drop)]
pub struct Spelled {
    pub kind: PpKind,
    pub spelling: Text,
    pub line: u32,
    pub space: bool,
    pub rest: usize,
}

/// What comes next.
#[derive(Drop)]
pub enum Scanned {
    Ended,
    Unclosed(u32),
    TooLong,
    Token(Spelled),
}

/// The line of a place.
fn line_at(lines: &[Settled], place: usize) -> u32
    ensures { result ≡ first_line (ahead lines.now place) }
{
    match read(lines, place) {
        Some(reading) => reading.line,
        None => 0,
    }
}

/// Goes over what is left of a comment that began on a line.
fn leave(lines: &[Settled], from: usize, comment: Option<u32>) -> Skipped
    ensures { IsEntered lines.now (opening comment ++ ahead lines.now from) result }
{
    let Some(line) = comment else {
        return Skipped::Here(from, false);
    };
    match past_comment(lines, from) {
        Gap::Nothing => Skipped::Here(from, true),
        Gap::Over(place) => Skipped::Here(place, true),
        Gap::Unclosed => Skipped::Unclosed(line),
        Gap::TooLong => Skipped::TooLong,
    }
}

/// Goes over white space and comments.
fn skip(lines: &[Settled], from: usize, comment: Option<u32>) -> Skipped
    ensures { IsSkipped lines.now (opening comment ++ ahead lines.now from) result }
{
    let entered = leave(lines, from, comment);
    let Skipped::Here(mut place, mut space) = entered else {
        return entered;
    };
    loop {
        match gap_at(lines, place) {
            Gap::Nothing => return Skipped::Here(place, space),
            Gap::Over(rest) => {
                place = rest;
                space = true;
            }
            Gap::Unclosed => return Skipped::Unclosed(line_at(lines, place)),
            Gap::TooLong => return Skipped::TooLong,
        }
    }
}

/// Takes that many bytes, unless the line is too long at one of them.
fn take(
    alloc: Global,
    lines: &[Settled],
    from: usize,
    count: usize,
) -> Result<Option<(Text, usize)>, AllocError>
    ensures { IfOk result (IsTaken lines.now count (ahead lines.now from)) }
{
    let mut spelling = Vec::new(alloc);
    let mut place = from;
    let mut left = count;
    while left > 0 {
        let Some(reading) = read(lines, place) else {
            break;
        };
        if is_beyond(reading) {
            return Ok(None);
        }
        spelling.push(reading.byte)?;
        place = reading.rest;
        left -= 1;
    }
    Ok(Some((Text::from_vec(spelling), place)))
}

/// The next token, or why there is none. A comment may be open, which began on a line.
pub fn scan(
    alloc: Global,
    lines: &[Settled],
    from: usize,
    comment: Option<u32>,
    header: bool,
) -> Result<Scanned, AllocError>
    ensures next { IfOk result (λ r. IsNext header (opening comment ++ ahead lines.now from) (next_in lines.now r)) }
    ensures memory { OnErr result (NeedsMemory header (opening comment ++ ahead lines.now from)) }
{
    let (place, space) = match skip(lines, from, comment) {
        Skipped::Here(place, space) => (place, space),
        Skipped::Unclosed(line) => return Ok(Scanned::Unclosed(line)),
        Skipped::TooLong => return Ok(Scanned::TooLong),
    };
    let Some(first) = read(lines, place) else {
        return Ok(Scanned::Ended);
    };
    let (kind, count) = token_at(lines, place, first, header);
    let Some((spelling, rest)) = take(alloc, lines, place, count)? else {
        return Ok(Scanned::TooLong);
    };
    Ok(Scanned::Token(Spelled {
        kind,
        spelling,
        line: first.line,
        space,
        rest,
    }))
}
