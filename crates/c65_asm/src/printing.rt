// Lines and data as assembly text.
ghost use Rattle.std.specs.Prelude.{◌≡◌, ◌++◌, ◌<◌, ◌≤◌, OnOk, IfOk, decimal};
ghost use Rattle.c65_code.specs.Names.{name_of};
ghost use Rattle.c65_base.specs.Lines.{hex_digit};
ghost use Rattle.c65_code.specs.Parts.{IsPart};
ghost use Rattle.c65_asm.specs.Text.{byte_text, spelling_of, sym_text, place_text, label_text, before, operand_text, behind, letter, letters_of, set_text, passed_text, callee_text, line_text, lines_text, byte_start, line_end, cell_text, opened, cells_text, datum_by, datums_text};

use crate::mnemonic::mnemonic;
use c65_code::{Callee, DataCell, Datum, DatumKind, Line, Operand, Part, RegSet, Sym, Symbol};
use c65_mach::Mode;
use itoa::Buffer;
use std::alloc::{AllocError, Global};

pub fn hex(value: u8) -> u8
    requires { value < 16 }
    ensures { result ≡ hex_digit value }
{
    if value < 10 { 48 + value } else { 55 + value }
}

fn put_byte(out: &mut Vec<u8>, value: u8) -> Result<(), AllocError>
    ensures { OnOk result (out.new.items ≡ out.old.items ++ byte_text value) }
{
    out.extend_from_slice(&[b'$', hex(value / 16), hex(value % 16)])
}

fn put_number(out: &mut Vec<u8>, number: u32) -> Result<(), AllocError>
    ensures { OnOk result (out.new.items ≡ out.old.items ++ decimal number) }
{
    let mut buffer = Buffer::new();
    out.extend_from_slice(buffer.format(number).as_bytes())
}

pub fn put_sym(out: &mut Vec<u8>, symbols: &[Symbol], sym: Sym) -> Result<(), AllocError>
    ensures { OnOk result (out.new.items ≡ out.old.items ++ sym_text symbols.now sym) }
{
    match symbols.get(sym.0 as usize) {
        Some(symbol) => out.extend_from_slice(symbol.spelling.as_slice()),
        None => Ok(()),
    }
}

fn put_place(out: &mut Vec<u8>, symbols: &[Symbol], sym: Sym, offset: u16) -> Result<(), AllocError>
    ensures { OnOk result (out.new.items ≡ out.old.items ++ place_text symbols.now sym offset) }
{
    put_sym(out, symbols, sym)?;
    out.extend_from_slice(b"+")?;
    put_number(out, u32::from(offset))
}

fn put_label(out: &mut Vec<u8>, label: u32) -> Result<(), AllocError>
    ensures { OnOk result (out.new.items ≡ out.old.items ++ label_text label) }
{
    out.extend_from_slice(b"L")?;
    put_number(out, label)
}

pub fn opening(mode: Mode) -> &'static [u8]
    ensures { result.now ≡ before mode }
{
    match mode {
        Mode::Implied => b"",
        Mode::Accumulator => b" A",
        Mode::Immediate => b" #",
        Mode::IndirectX | Mode::IndirectY | Mode::Indirect | Mode::ZeroPageIndirect => b" (",
        _ => b" ",
    }
}

pub fn closing(mode: Mode) -> &'static [u8]
    ensures { result.now ≡ behind mode }
{
    match mode {
        Mode::ZeroPageX | Mode::AbsoluteX => b",X",
        Mode::ZeroPageY | Mode::AbsoluteY => b",Y",
        Mode::IndirectX => b",X)",
        Mode::IndirectY => b"),Y",
        Mode::Indirect | Mode::ZeroPageIndirect => b")",
        _ => b"",
    }
}

fn put_operand(out: &mut Vec<u8>, symbols: &[Symbol], operand: Operand) -> Result<(), AllocError>
    ensures { OnOk result (out.new.items ≡ out.old.items ++ operand_text symbols.now operand) }
{
    match operand {
        Operand::Nothing => Ok(()),
        Operand::Byte(value) => put_byte(out, value),
        Operand::Low(sym, offset) => {
            out.extend_from_slice(b"<")?;
            put_place(out, symbols, sym, offset)
        }
        Operand::High(sym, offset) => {
            out.extend_from_slice(b">")?;
            put_place(out, symbols, sym, offset)
        }
        Operand::Zero(at) => put_byte(out, at),
        Operand::At(sym, offset) => put_place(out, symbols, sym, offset),
        Operand::To(label) => put_label(out, label),
    }
}

fn put_letter(out: &mut Vec<u8>, set: RegSet, part: Part, text: &[u8]) -> Result<(), AllocError>
    requires { IsPart part }
    ensures { OnOk result (out.new.items ≡ out.old.items ++ letter set part text.now) }
{
    if set.has(part) {
        out.extend_from_slice(text)
    } else {
        Ok(())
    }
}

fn letters(alloc: Global, set: RegSet) -> Result<Vec<u8>, AllocError>
    ensures { IfOk result (λ text. text.items ≡ letters_of set) }
{
    let mut text = Vec::new(alloc);
    put_letter(&mut text, set, Part::A, b"A")?;
    put_letter(&mut text, set, Part::X, b"X")?;
    put_letter(&mut text, set, Part::Y, b"Y")?;
    put_letter(&mut text, set, Part::Zp(2), b"S")?;
    Ok(text)
}

pub fn put_set(out: &mut Vec<u8>, alloc: Global, set: RegSet) -> Result<(), AllocError>
    ensures { OnOk result (out.new.items ≡ out.old.items ++ set_text set) }
{
    let text = letters(alloc, set)?;
    if text.is_empty() {
        out.extend_from_slice(b"-")
    } else {
        out.extend_from_slice(&text)
    }
}

fn put_passed(
    out: &mut Vec<u8>,
    alloc: Global,
    reads: RegSet,
    gives: RegSet,
) -> Result<(), AllocError>
    ensures { OnOk result (out.new.items ≡ out.old.items ++ passed_text reads gives) }
{
    out.extend_from_slice(b",")?;
    put_set(out, alloc, reads)?;
    out.extend_from_slice(b",")?;
    put_set(out, alloc, gives)
}

fn put_callee(
    out: &mut Vec<u8>,
    alloc: Global,
    symbols: &[Symbol],
    callee: &Callee,
) -> Result<(), AllocError>
    ensures { OnOk result (out.new.items ≡ out.old.items ++ callee_text symbols.now callee.now) }
{
    match callee {
        Callee::Routine(which) => out.extend_from_slice(which.name()),
        Callee::Function(sym, reads, gives) => {
            put_sym(out, symbols, *sym)?;
            put_passed(out, alloc, *reads, *gives)
        }
        Callee::Pointer(reads, gives) => {
            out.extend_from_slice(b"callptr4")?;
            put_passed(out, alloc, *reads, *gives)
        }
    }
}

pub fn put_line(
    out: &mut Vec<u8>,
    alloc: Global,
    symbols: &[Symbol],
    line: &Line,
) -> Result<(), AllocError>
    ensures { OnOk result (out.new.items ≡ out.old.items ++ line_text symbols.now line.now) }
{
    match line {
        Line::Label(label) => {
            put_label(out, *label)?;
            out.extend_from_slice(b":\n")
        }
        Line::Do(op, mode, operand) => {
            out.extend_from_slice(b"\t")?;
            out.extend_from_slice(mnemonic(*op))?;
            out.extend_from_slice(opening(*mode))?;
            put_operand(out, symbols, *operand)?;
            out.extend_from_slice(closing(*mode))?;
            out.extend_from_slice(b"\n")
        }
        Line::Call(callee) => {
            out.extend_from_slice(b"\tJSR ")?;
            put_callee(out, alloc, symbols, callee)?;
            out.extend_from_slice(b"\n")
        }
    }
}

pub fn put_lines(
    out: &mut Vec<u8>,
    alloc: Global,
    symbols: &[Symbol],
    lines: &[Line],
) -> Result<(), AllocError>
    ensures { OnOk result (out.new.items ≡ out.old.items ++ lines_text symbols.now lines.now) }
{
    for line in lines {
        put_line(out, alloc, symbols, line)?;
    }
    Ok(())
}

fn start_of_byte(count: u8) -> &'static [u8]
    ensures { result.now ≡ byte_start count }
{
    match count {
        0 => b".byte ",
        16 => b"\n.byte ",
        _ => b",",
    }
}

fn end_of_line(count: u8) -> &'static [u8]
    ensures { result.now ≡ line_end count }
{
    match count {
        0 => b"",
        _ => b"\n",
    }
}

fn put_cell(
    out: &mut Vec<u8>,
    symbols: &[Symbol],
    count: u8,
    cell: &DataCell,
) -> Result<(), AllocError>
    ensures { OnOk result (out.new.items ≡ out.old.items ++ cell_text symbols.now count cell.now) }
{
    match cell {
        DataCell::Byte(value) => {
            out.extend_from_slice(start_of_byte(count))?;
            put_byte(out, *value)
        }
        DataCell::Address(sym, offset) => {
            out.extend_from_slice(end_of_line(count))?;
            out.extend_from_slice(b".addr ")?;
            put_place(out, symbols, *sym, *offset)?;
            out.extend_from_slice(b"\n")
        }
    }
}

fn after_cell(count: u8, cell: &DataCell) -> u8
    requires { count ≤ 16 }
    ensures value { result ≡ opened count cell.now }
    ensures most { result ≤ 16 }
{
    match cell {
        DataCell::Byte(_) => { if count == 16 { 1 } else { count + 1 } }
        DataCell::Address(_, _) => 0,
    }
}

fn put_cells(out: &mut Vec<u8>, symbols: &[Symbol], cells: &[DataCell]) -> Result<(), AllocError>
    ensures { OnOk result (out.new.items ≡ out.old.items ++ cells_text symbols.now 0 cells.now) }
{
    let mut count = 0_u8;
    for cell in cells {
        put_cell(out, symbols, count, cell)?;
        count = after_cell(count, cell);
    }
    out.extend_from_slice(end_of_line(count))
}

fn put_datum(out: &mut Vec<u8>, symbols: &[Symbol], datum: &Datum) -> Result<(), AllocError>
    ensures { OnOk result (out.new.items ≡ out.old.items ++ datum_by symbols.now datum.now.kind datum.now) }
{
    match datum.kind {
        DatumKind::Data => {
            out.extend_from_slice(b".data ")?;
            put_sym(out, symbols, datum.sym)?;
            out.extend_from_slice(b"\n")?;
            put_cells(out, symbols, datum.cells.as_slice())?;
            out.extend_from_slice(b".end\n")
        }
        DatumKind::Const => {
            out.extend_from_slice(b".const ")?;
            put_sym(out, symbols, datum.sym)?;
            out.extend_from_slice(b"\n")?;
            put_cells(out, symbols, datum.cells.as_slice())?;
            out.extend_from_slice(b".end\n")
        }
        DatumKind::Zero => {
            out.extend_from_slice(b".zero ")?;
            put_sym(out, symbols, datum.sym)?;
            out.extend_from_slice(b",")?;
            put_number(out, datum.zeros)?;
            out.extend_from_slice(b"\n")
        }
    }
}

pub fn put_datums(out: &mut Vec<u8>, symbols: &[Symbol], datums: &[Datum]) -> Result<(), AllocError>
    ensures { OnOk result (out.new.items ≡ out.old.items ++ datums_text symbols.now datums.now) }
{
    for datum in datums {
        put_datum(out, symbols, datum)?;
    }
    Ok(())
}
