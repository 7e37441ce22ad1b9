// The bytes of a text that were given, with its lines joined.
ghost use Rattle.std.specs.Prelude.{◌≡◌, ◌≤◌, ◌<◌, ◌+◌, [], ◌∷◌, ◌++◌, length, vec_len, vec_capacity};
ghost use Rattle.c65_lex.specs.Cells;
ghost use Rattle.c65_pieces.specs.declared.text.Pending.TheVariants.{Nothing, Return, Backslash, BackslashReturn};
ghost use Rattle.c65_pieces.specs.Settled.{as_cells};
ghost use Rattle.c65_pieces.specs.Given.{pending_bytes, too_far, room, IsBackslash, AreSorted, IsSettled, AreAdded, IsFlushed, IsClosed};

use crate::settled::{LONGEST_LINE, Settled};

/// The bytes at the end of what was given that vanish where a line feed follows them.
#[derive(Clone, Copy, PartialEq, Eq)]
pub enum Pending {
    Nothing,
    Return,
    Backslash,
    BackslashReturn,
}

/// Where a text goes on: the line and the column of the next byte, and what may vanish before it.
#[derive(Clone, Copy)]
pub struct Edge {
    pub line: u32,
    pub column: u16,
    pub pending: Pending,
}

/// Bytes of a text, with its lines joined. The first of them, as many as are ready, are whole lines
/// that are not too long. Behind them stands the line that is held: one whose end was not given yet,
/// or the first that is too long, with all that follows it.
#[derive(Drop)]
pub struct Text {
    pub settled: Vec<Settled>,
    pub ready: usize,
    /// Whether the line that is held is too long.
    pub long: bool,
    pub edge: Edge,
}

fn line_after(byte: u8, line: u32) -> u32
    ensures { result ≡ Cells.line_after byte line }
{
    if byte == b'\n' {
        line.saturating_add(1)
    } else {
        line
    }
}

fn column_after(byte: u8, column: u16) -> u16
    ensures { result ≡ Cells.column_after byte column }
{
    if byte == b'\n' {
        0
    } else if column <= LONGEST_LINE {
        column + 1
    } else {
        LONGEST_LINE + 1
    }
}

/// Whether a line is too long at a byte with so many before it.
fn is_too_far(byte: u8, column: u16) -> bool
    ensures { result ≡ too_far byte column }
{
    byte != b'\n' && column >= LONGEST_LINE
}

/// Takes a byte that does not vanish.
fn settle(text: &mut Text, byte: u8)
    requires { vec_len text.old.settled < vec_capacity text.old.settled }
    ensures { IsSettled text.old byte text.new }
{
    let Edge {
        line,
        column,
        pending,
    } = text.edge;
    text.settled.push_reserved(Settled { byte, line, column });
    text.edge = Edge {
        line: line_after(byte, line),
        column: column_after(byte, column),
        pending,
    };
    if byte == b'\n' && !text.long {
        text.ready = text.settled.len();
    }
    text.long = text.long || is_too_far(byte, column);
}

/// Takes a byte where nothing is pending.
fn begin(text: &mut Text, byte: u8)
    requires none { text.old.edge.pending ≡ Nothing }
    requires room { vec_len text.old.settled < vec_capacity text.old.settled }
    ensures { AreAdded text.old (byte ∷ []) text.new }
{
    match byte {
        b'\r' => text.edge.pending = Pending::Return,
        b'\\' => text.edge.pending = Pending::Backslash,
        _ => settle(text, byte),
    }
}

/// Takes a byte behind a carriage return.
fn add_behind_return(text: &mut Text, byte: u8)
    requires behind { text.old.edge.pending ≡ Return }
    requires room { vec_len text.old.settled + 1 < vec_capacity text.old.settled }
    ensures { AreAdded text.old (byte ∷ []) text.new }
{
    text.edge.pending = Pending::Nothing;
    if byte == b'\n' {
        begin(text, byte);
        return;
    }
    settle(text, b'\r');
    begin(text, byte);
}

/// Joins the next line.
fn splice(text: &mut Text)
    requires { IsBackslash text.old.edge.pending }
    ensures { AreAdded text.old (10 ∷ []) text.new }
{
    text.edge.line = text.edge.line.saturating_add(1);
    text.edge.pending = Pending::Nothing;
}

/// Takes a byte behind a backslash.
fn add_behind_backslash(text: &mut Text, byte: u8)
    requires behind { text.old.edge.pending ≡ Backslash }
    requires room { vec_len text.old.settled + 1 < vec_capacity text.old.settled }
    ensures { AreAdded text.old (byte ∷ []) text.new }
{
    match byte {
        b'\n' => splice(text),
        b'\r' => text.edge.pending = Pending::BackslashReturn,
        _ => {
            text.edge.pending = Pending::Nothing;
            settle(text, b'\\');
            begin(text, byte);
        }
    }
}

/// Takes a byte behind a backslash and a carriage return.
fn add_behind_both(text: &mut Text, byte: u8)
    requires behind { text.old.edge.pending ≡ BackslashReturn }
    requires room { vec_len text.old.settled + 2 < vec_capacity text.old.settled }
    ensures { AreAdded text.old (byte ∷ []) text.new }
{
    if byte == b'\n' {
        splice(text);
        return;
    }
    text.edge.pending = Pending::Nothing;
    settle(text, b'\\');
    settle(text, b'\r');
    begin(text, byte);
}

/// Takes a byte.
fn add_byte(text: &mut Text, byte: u8)
    requires { vec_len text.old.settled + length (pending_bytes text.old.edge.pending) < vec_capacity text.old.settled }
    ensures { AreAdded text.old (byte ∷ []) text.new }
{
    match text.edge.pending {
        Pending::Nothing => begin(text, byte),
        Pending::Return => add_behind_return(text, byte),
        Pending::Backslash => add_behind_backslash(text, byte),
        Pending::BackslashReturn => add_behind_both(text, byte),
    }
}

/// Takes the bytes of a piece.
pub fn add(text: &mut Text, piece: &[u8])
    requires { (vec_len text.old.settled + length (pending_bytes text.old.edge.pending)) + length piece.now ≤ vec_capacity text.old.settled }
    ensures { AreAdded text.old piece.now text.new }
{
    for byte in piece {
        add_byte(text, *byte);
    }
}

/// Settles what is pending where the text ends.
fn settle_pending(text: &mut Text)
    requires { vec_len text.old.settled + length (pending_bytes text.old.edge.pending) ≤ vec_capacity text.old.settled }
    ensures { IsFlushed text.old text.new }
{
    let pending = text.edge.pending;
    text.edge.pending = Pending::Nothing;
    match pending {
        Pending::Nothing => {}
        Pending::Return => settle(text, b'\r'),
        Pending::Backslash => settle(text, b'\\'),
        Pending::BackslashReturn => {
            settle(text, b'\\');
            settle(text, b'\r');
        }
    }
}

/// Ends the text. Its end ends its last line.
pub fn close(text: &mut Text)
    requires room { vec_len text.old.settled + room text.old.edge ≤ vec_capacity text.old.settled }
    requires sorted { AreSorted text.old.settled.items text.old.ready text.old.long text.old.edge.column }
    ensures { IsClosed text.old text.new }
{
    settle_pending(text);
    if text.edge.column != 0 {
        settle(text, b'\n');
    }
}
