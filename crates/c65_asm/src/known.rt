// Lines as assembly text with what is known before each instruction.
ghost use Rattle.std.specs.Prelude.{◌≡◌, ◌++◌, length, OnOk, IfOk};
ghost use Rattle.c65_asm.specs.Known.{byte_field, flag_field, bytes_text, flags_text, note_line, note_text, noted_text, noted_lines_text, known_body_text};

use crate::printing::{hex, put_line};
use c65_code::{Line, Seg, Symbol};
use c65_know::{Note, update};
use std::alloc::{AllocError, Global};

fn put_byte_field(out: &mut Vec<u8>, name: &[u8], value: Option<u8>) -> Result<(), AllocError>
    ensures { OnOk result (out.new.items ≡ out.old.items ++ byte_field name.now value) }
{
    match value {
        Some(value) => {
            out.extend_from_slice(b" ")?;
            out.extend_from_slice(name)?;
            out.extend_from_slice(&[b'=', hex(value / 16), hex(value % 16)])
        }
        None => Ok(()),
    }
}

fn put_flag_field(out: &mut Vec<u8>, name: &[u8], value: Option<bool>) -> Result<(), AllocError>
    ensures { OnOk result (out.new.items ≡ out.old.items ++ flag_field name.now value) }
{
    match value {
        Some(value) => {
            out.extend_from_slice(b" ")?;
            out.extend_from_slice(name)?;
            out.extend_from_slice(if value { b"=1" } else { b"=0" })
        }
        None => Ok(()),
    }
}

fn put_bytes(out: &mut Vec<u8>, note: &Note) -> Result<(), AllocError>
    ensures { OnOk result (out.new.items ≡ out.old.items ++ bytes_text note.now) }
{
    put_byte_field(out, b"A", note.a)?;
    put_byte_field(out, b"X", note.x)?;
    put_byte_field(out, b"Y", note.y)?;
    put_byte_field(out, b"S0", note.s0)?;
    put_byte_field(out, b"S1", note.s1)?;
    put_byte_field(out, b"P0", note.p0)?;
    put_byte_field(out, b"P1", note.p1)?;
    put_byte_field(out, b"T1", note.t1)
}

fn put_flags(out: &mut Vec<u8>, note: &Note) -> Result<(), AllocError>
    ensures { OnOk result (out.new.items ≡ out.old.items ++ flags_text note.now) }
{
    put_flag_field(out, b"N", note.n)?;
    put_flag_field(out, b"V", note.v)?;
    put_flag_field(out, b"Z", note.z)?;
    put_flag_field(out, b"C", note.c)
}

fn fields(alloc: Global, note: &Note) -> Result<Vec<u8>, AllocError>
    ensures { IfOk result (λ text. text.items ≡ bytes_text note.now ++ flags_text note.now) }
{
    let mut text = Vec::new(alloc);
    put_bytes(&mut text, note)?;
    put_flags(&mut text, note)?;
    Ok(text)
}

fn put_fields(out: &mut Vec<u8>, text: &[u8]) -> Result<(), AllocError>
    ensures { OnOk result (out.new.items ≡ out.old.items ++ note_line text.now) }
{
    if text.is_empty() {
        return Ok(());
    }
    out.extend_from_slice(b"\t;")?;
    out.extend_from_slice(text)?;
    out.extend_from_slice(b"\n")
}

fn put_note(out: &mut Vec<u8>, alloc: Global, note: &Note) -> Result<(), AllocError>
    ensures { OnOk result (out.new.items ≡ out.old.items ++ note_text note.now) }
{
    let text = fields(alloc, note)?;
    put_fields(out, &text)
}

fn put_noted(
    out: &mut Vec<u8>,
    alloc: Global,
    symbols: &[Symbol],
    note: &Note,
    line: &Line,
) -> Result<(), AllocError>
    ensures { OnOk result (out.new.items ≡ out.old.items ++ noted_text symbols.now note.now line.now) }
{
    match line {
        Line::Label(_) => put_line(out, alloc, symbols, line),
        Line::Do(_, _, _) | Line::Call(_) => {
            put_note(out, alloc, note)?;
            put_line(out, alloc, symbols, line)
        }
    }
}

fn put_noted_lines(
    out: &mut Vec<u8>,
    alloc: Global,
    symbols: &[Symbol],
    lines: &[Line],
    notes: &[Note],
) -> Result<(), AllocError>
    requires { length lines.now ≡ length notes.now }
    ensures { OnOk result (out.new.items ≡ out.old.items ++ noted_lines_text symbols.now lines.now notes.now) }
{
    for at in 0..lines.len() {
        put_noted(out, alloc, symbols, &notes[at], &lines[at])?;
    }
    Ok(())
}

pub fn put_known_lines(
    out: &mut Vec<u8>,
    alloc: Global,
    symbols: &[Symbol],
    seg: &Seg,
) -> Result<(), AllocError>
    ensures { OnOk result (out.new.items ≡ out.old.items ++ known_body_text symbols.now seg.now) }
{
    let lines = seg.lines();
    let mut notes = vec![in alloc; Note::nothing(); lines.len()]?;
    update(seg, &mut notes, 0);
    put_noted_lines(out, alloc, symbols, lines, &notes)
}
