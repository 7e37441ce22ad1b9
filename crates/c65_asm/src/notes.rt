// Note lines in assembly text.
ghost use Rattle.std.specs.Prelude.{◌≡◌, ◌++◌, IfOk, OnOk};
ghost use Rattle.c65_asm.specs.Read.{next_number};
ghost use Rattle.c65_asm.specs.Noted.{whole_lines, is_note, has_notes, other_line, without_notes, left_behind, counted, line_behind, parting};

use crate::words::cut;
use std::alloc::{AllocError, Global};

fn is_note(line: &[u8]) -> bool
    ensures { result ≡ is_note line.now }
{
    matches!(line, [b'\t', b';', ..])
}

/// Whether a text has note lines.
pub fn has_notes(text: &[u8]) -> bool
    ensures { result ≡ has_notes text.now }
{
    let mut rest = text;
    while let Some((line, after)) = cut(rest, b'\n') {
        if is_note(line) {
            return true;
        }
        rest = after;
    }
    false
}

fn put_other(out: &mut Vec<u8>, line: &[u8]) -> Result<(), AllocError>
    ensures { OnOk result (out.new.items ≡ out.old.items ++ other_line line.now) }
{
    if is_note(line) {
        return Ok(());
    }
    out.extend_from_slice(line)?;
    out.extend_from_slice(b"\n")
}

/// A text without its note lines.
pub fn without_notes(alloc: Global, text: &[u8]) -> Result<Vec<u8>, AllocError>
    ensures { IfOk result (λ others. others.items ≡ without_notes text.now) }
{
    let mut others = Vec::new(alloc);
    let mut rest = text;
    while let Some((line, after)) = cut(rest, b'\n') {
        put_other(&mut others, line)?;
        rest = after;
    }
    others.extend_from_slice(rest)?;
    Ok(others)
}

/// The number of the next line. The last number stands for all further lines.
pub fn next_number(line: u32) -> u32
    ensures { result ≡ next_number line }
{
    if line == 4_294_967_295 {
        line
    } else {
        line + 1
    }
}

fn left_behind(left: u32, line: &[u8]) -> Option<u32>
    ensures { result ≡ left_behind left line.now }
{
    if is_note(line) {
        Some(left)
    } else if left < 2 {
        None
    } else {
        Some(left - 1)
    }
}

/// The number in a text of the n-th line that is no note line; of the line behind all, where they are fewer.
pub fn counted(number: u32, text: &[u8]) -> u32
    ensures { result ≡ counted number 1 (whole_lines text.now) }
{
    let mut left = number;
    let mut at = 1_u32;
    let mut rest = text;
    while let Some((line, after)) = cut(rest, b'\n') {
        match left_behind(left, line) {
            Some(more) => left = more,
            None => return at,
        }
        at = next_number(at);
        rest = after;
    }
    at
}

fn line_behind(line: u32, byte: u8) -> u32
    ensures { result ≡ line_behind line byte }
{
    if byte == b'\n' {
        next_number(line)
    } else {
        line
    }
}

/// The number of the first line at which two texts differ.
pub fn parting(text: &[u8], other: &[u8]) -> u32
    ensures { result ≡ parting 1 text.now other.now }
{
    let mut line = 1_u32;
    for at in 0..text.len().min(other.len()) {
        if text[at] != other[at] {
            return line;
        }
        line = line_behind(line, text[at]);
    }
    line
}
