// Bytes of comments that are gone over at once.
ghost use Rattle.std.specs.Prelude.{◌≡◌, ◌+◌, ◌≤◌, length, take, false, IsTrue};
ghost use Rattle.c65_lex.specs.Cells.{ahead};
ghost use Rattle.c65_lex.specs.Blanks.{past_line, past_comment};
ghost use Rattle.c65_lex.specs.Jumps.{are_plain};

use crate::place::{LONGEST_LINE, Place};
use memchr::{memchr, memchr2};

/// How many bytes there are before the first line feed.
fn before_line_end(rest: &[u8]) -> usize
    ensures within { result ≤ length rest.now }
    ensures plain { IsTrue (are_plain 10 (take result rest.now)) }
{
    match memchr(b'\n', rest) {
        Some(count) => count,
        None => rest.len(),
    }
}

/// How many bytes there are before the first line feed or star.
fn before_star(rest: &[u8]) -> usize
    ensures within { result ≤ length rest.now }
    ensures plain { IsTrue (are_plain 42 (take result rest.now)) }
{
    match memchr2(b'\n', b'*', rest) {
        Some(count) => count,
        None => rest.len(),
    }
}

/// A place further on in a line comment.
pub fn over_line(text: &[u8], from: Place) -> Place
    ensures { past_line (ahead text.now result) ≡ past_line (ahead text.now from) }
{
    if from.at >= text.len() || from.column > LONGEST_LINE {
        return from;
    }
    let count = before_line_end(&text[from.at..]);
    if count < 2 || count > (LONGEST_LINE - from.column) as usize {
        return from;
    }
    Place {
        at: from.at + (count - 2),
        line: from.line,
        column: from.column + (count - 2) as u32,
    }
}

/// A place further on in a comment.
pub fn over_comment(text: &[u8], from: Place) -> Place
    ensures { past_comment false (ahead text.now result) ≡ past_comment false (ahead text.now from) }
{
    if from.at >= text.len() || from.column > LONGEST_LINE {
        return from;
    }
    let count = before_star(&text[from.at..]);
    if count < 2 || count > (LONGEST_LINE - from.column) as usize {
        return from;
    }
    Place {
        at: from.at + (count - 2),
        line: from.line,
        column: from.column + (count - 2) as u32,
    }
}
