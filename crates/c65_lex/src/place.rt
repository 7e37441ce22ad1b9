// A place in a text, seen as the bytes from there on with the lines joined.
ghost use Rattle.std.specs.Prelude.{◌≡◌, ◌≤◌, ◌<◌, ◌+◌, [], ◌∷◌, drop, length, MatchOption};
ghost use Rattle.c65_lex.specs.Cells.{ahead, cell_of, joint, next_line, is_long};
ghost use Rattle.c65_lex.specs.Cells;

/// How many bytes a line may have, as the definitions have it of `Size::Line`.
pub const LONGEST_LINE: u32 = 32_767;

/// A place: a byte of the text, its line, and how many bytes of the joined line stand before it.
#[derive(Clone, Copy)]
pub struct Place {
    pub at: usize,
    pub line: u32,
    pub column: u32,
}

/// The byte at a place, where it stands, and the place behind it.
#[derive(Clone, Copy)]
pub struct Reading {
    pub byte: u8,
    pub line: u32,
    pub column: u32,
    pub rest: Place,
}

fn next_line_of(line: u32) -> u32
    ensures { result ≡ next_line line }
{
    line.saturating_add(1)
}

fn line_after(byte: u8, line: u32) -> u32
    ensures { result ≡ Cells.line_after byte line }
{
    if byte == b'\n' {
        next_line_of(line)
    } else {
        line
    }
}

fn column_after(byte: u8, column: u32) -> u32
    ensures { result ≡ Cells.column_after byte column }
{
    if byte == b'\n' {
        0
    } else if column <= LONGEST_LINE {
        column + 1
    } else {
        LONGEST_LINE + 1
    }
}

/// How many bytes at the front of a rest vanish: a carriage return before its line feed, or a
/// backslash with its line end.
fn joint_of(rest: &[u8]) -> usize
    ensures { result ≡ joint rest.now }
{
    if rest.len() < 2 {
        return 0;
    }
    if rest[1] == b'\n' {
        if rest[0] == b'\r' {
            1
        } else if rest[0] == b'\\' {
            2
        } else {
            0
        }
    } else if rest[0] == b'\\' && rest[1] == b'\r' && rest.len() > 2 && rest[2] == b'\n' {
        3
    } else {
        0
    }
}

fn joint_at(text: &[u8], at: usize) -> usize
    requires { at ≤ length text.now }
    ensures { result ≡ joint (drop at text.now) }
{
    joint_of(&text[at..])
}

/// A place that is no further than the end.
fn no_further(text: &[u8], from: Place) -> Place
    ensures within { result.at ≤ length text.now }
    ensures same { ahead text.now result ≡ ahead text.now from }
{
    if from.at <= text.len() {
        return from;
    }
    Place {
        at: text.len(),
        line: from.line,
        column: from.column,
    }
}

/// The place behind what vanishes here.
fn behind_joint(text: &[u8], from: Place, dropped: usize) -> Place
    requires here { dropped ≡ joint (drop from.at text.now) }
    requires some { 0 < dropped }
    requires inside { from.at ≤ length text.now }
    ensures within { result.at ≤ length text.now }
    ensures further { result.at ≡ from.at + dropped }
    ensures same { ahead text.now result ≡ ahead text.now from }
{
    Place {
        at: from.at + dropped,
        line: if dropped > 1 {
            next_line_of(from.line)
        } else {
            from.line
        },
        column: from.column,
    }
}

/// The place behind all that vanishes here.
fn settle(text: &[u8], from: Place) -> Place
    ensures same { ahead text.now result ≡ ahead text.now from }
    ensures settled { joint (drop result.at text.now) ≡ 0 }
{
    let mut place = no_further(text, from);
    let mut dropped = joint_at(text, place.at);
    while dropped > 0 {
        place = behind_joint(text, place, dropped);
        dropped = joint_at(text, place.at);
    }
    place
}

/// The byte at a place. The end of a text ends its last line.
pub fn read(text: &[u8], place: Place) -> Option<Reading>
    ensures { MatchOption result (ahead text.now place ≡ [])
        (λ r. ahead text.now place ≡ cell_of r ∷ ahead text.now r.rest) }
{
    let place = settle(text, place);
    if place.at < text.len() {
        let byte = text[place.at];
        let rest = Place {
            at: place.at + 1,
            line: line_after(byte, place.line),
            column: column_after(byte, place.column),
        };
        return Some(Reading {
            byte,
            line: place.line,
            column: place.column,
            rest,
        });
    }
    if place.column == 0 {
        return None;
    }
    let rest = Place { column: 0, ..place };
    Some(Reading {
        byte: b'\n',
        line: place.line,
        column: place.column,
        rest,
    })
}

/// Whether the line is longer than it may be at this byte.
pub fn is_beyond(reading: Reading) -> bool
    ensures { result ≡ is_long (cell_of reading) }
{
    reading.byte != b'\n' && reading.column >= LONGEST_LINE
}
