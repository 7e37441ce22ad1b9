// Places among bytes whose lines are joined.
ghost use Rattle.std.specs.Prelude.{◌≡◌, [], ◌∷◌, MatchOption};
ghost use Rattle.c65_lex.specs.Cells.{is_long};
ghost use Rattle.c65_pieces.specs.Settled.{ahead, cell_of};

/// How many bytes a line may have, as the definitions have it of `Size::Line`.
pub const LONGEST_LINE: u16 = 32_767;

/// A byte of a text whose lines are joined, the real line that it stands on, and how many bytes of
/// its joined line stand before it, counted up to 32,768.
#[derive(Clone, Copy)]
pub struct Settled {
    pub byte: u8,
    pub line: u32,
    pub column: u16,
}

/// The byte at a place, where it stands, and the place behind it.
#[derive(Clone, Copy)]
pub struct Reading {
    pub byte: u8,
    pub line: u32,
    pub column: u16,
    pub rest: usize,
}

/// The byte at a place.
pub fn read(lines: &[Settled], place: usize) -> Option<Reading>
    ensures { MatchOption result (ahead lines.now place ≡ [])
        (λ r. ahead lines.now place ≡ cell_of r ∷ ahead lines.now r.rest) }
{
    if place >= lines.len() {
        return None;
    }
    let settled = lines[place];
    Some(Reading {
        byte: settled.byte,
        line: settled.line,
        column: settled.column,
        rest: place + 1,
    })
}

/// Whether the line is longer than it may be at this byte.
pub fn is_beyond(reading: Reading) -> bool
    ensures { result ≡ is_long (cell_of reading) }
{
    reading.byte != b'\n' && reading.column >= LONGEST_LINE
}
