// Where the bytes that are kept of a file end, and what is read there.
ghost use Rattle.std.specs.Prelude.{◌≡◌, IfErr, IfOk};
ghost use Rattle.c65_base.specs.declared.refusal.Refusal.TheVariants.{OutOfMemory};
ghost use Rattle.c65_macro.specs.Table;
ghost use Rattle.c65_pptext.specs.Kept;
ghost use Rattle.c65_pptext.specs.Kept.{EndsFrom};

use c65_base::Refusal;
use c65_lex::{PpKind, PpToken};
use c65_ppline::{Cut, Lexed};

/// Where the bytes that are kept of a file end.
#[derive(Clone, Copy)]
pub enum Ending {
    /// At the file's end.
    Whole,
    /// On a line of this number; more bytes follow than a file may have.
    Long(u32),
}

/// What is read next.
#[derive(Drop)]
pub enum Read {
    Token(PpToken),
    LineEnd(PpToken),
    /// The file's end.
    End,
    /// What cuts the line off. Where the file is too long the token before may go on.
    Cut(Cut),
}

/// The number of the line behind these bytes, which begin on a line.
pub fn line_behind(line: u32, bytes: &[u8]) -> u32
    ensures { result ≡ Kept.line_behind line bytes.now }
{
    let mut here = line;
    let mut rest = bytes;
    while let Some((byte, more)) = rest.split_first() {
        if *byte == b'\n' {
            here = here.saturating_add(1);
        }
        rest = more;
    }
    here
}

fn is_line_end(token: &PpToken) -> bool
    ensures { result ≡ Table.is_line_end token.now }
{
    match token.kind {
        PpKind::LineEnd => true,
        _ => false,
    }
}

/// What a cut is of a file with more bytes than are kept.
fn beyond(cut: Cut) -> Cut
    ensures { result ≡ Kept.beyond cut }
{
    match cut {
        Cut::OpenComment(_) => Cut::LongFile,
        other => other,
    }
}

/// What the end of a line is, where the bytes that are kept end so. It is no line's end where their end gave it.
fn line_end(ending: Ending, token: PpToken) -> Read
    ensures { result ≡ Kept.line_end ending token }
{
    match ending {
        Ending::Whole => Read::LineEnd(token),
        Ending::Long(line) => {
            if token.pos.line == line {
                Read::Cut(Cut::LongFile)
            } else {
                Read::LineEnd(token)
            }
        }
    }
}

/// What is read where the bytes that are kept end so.
pub fn read_of(ending: Ending, lexed: Lexed) -> Read
    ensures { result ≡ Kept.read_of ending lexed }
{
    match lexed {
        Lexed::Token(token) => {
            if is_line_end(&token) {
                line_end(ending, token)
            } else {
                Read::Token(token)
            }
        }
        Lexed::End => match ending {
            Ending::Whole => Read::End,
            Ending::Long(_) => Read::Cut(Cut::LongFile),
        },
        Lexed::Cut(cut) => match ending {
            Ending::Whole => Read::Cut(cut),
            Ending::Long(_) => Read::Cut(beyond(cut)),
        },
    }
}

/// What is read where more bytes follow, the next one on a line: it is read however they end. A line's end that was given
/// stands on a line before, and the text's end does not come there.
pub fn read_before(line: u32, lexed: Lexed) -> Result<Read, Refusal>
    ensures refused { IfErr result (λ e. e ≡ OutOfMemory) }
    ensures exact { IfOk result (λ r. (ending : Ending) → EndsFrom line ending → r ≡ Kept.read_of ending lexed) }
{
    match lexed {
        Lexed::Token(token) => {
            if !is_line_end(&token) {
                Ok(Read::Token(token))
            } else if token.pos.line < line {
                Ok(Read::LineEnd(token))
            } else {
                Err(Refusal::OutOfMemory)
            }
        }
        Lexed::Cut(Cut::LongLine) => Ok(Read::Cut(Cut::LongLine)),
        Lexed::Cut(Cut::Names) => Ok(Read::Cut(Cut::Names)),
        _ => Err(Refusal::OutOfMemory),
    }
}
