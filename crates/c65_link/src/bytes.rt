// The bytes of lines and data, once all addresses are known.
ghost use Rattle.std.specs.Prelude.{◌≡◌, ◌++◌, ◌∷◌, [], slice_index, OnOk, IfOk};
ghost use Rattle.c65_link.specs.Bytes.{word_bytes, operand_bytes, instruction, located, label_address, word_of, distance, branch_bytes, callee_address, step, do_bytes, line_bytes, lines_bytes, with_lines, with_functions, with_routines, cell_bytes, cells_bytes, datum_bytes, data_bytes};

use crate::body::{Body, longest, target};
use crate::layout::address;
use crate::opcode::{opcode, opposite};
use crate::uses::Part;
use c65_code::{Callee, DataCell, Datum, DatumKind, Line, Operand, Routine, Seg, Sym};
use c65_mach::{Mode, Op};
use std::alloc::{AllocError, Global};
use std::marker::Model;

fn put_instruction(out: &mut Vec<u8>, op: Op, mode: Mode, word: u16) -> Result<(), AllocError>
    ensures { OnOk result (out.new.items ≡ out.old.items ++ instruction op mode word) }
{
    let [low, high] = word.to_le_bytes();
    out.push(opcode(op, mode))?;
    match mode {
        Mode::Implied | Mode::Accumulator => Ok(()),
        Mode::Absolute
        | Mode::AbsoluteX
        | Mode::AbsoluteY
        | Mode::Indirect
        | Mode::AbsoluteIndirectX => { out.extend_from_slice(&[low, high]) }
        _ => {
            out.push(low)?;
            Ok(())
        }
    }
}

// The address of a number in a table.
fn lookup(table: &[u16], at: usize) -> u16
    ensures { result ≡ slice_index table.now at }
{
    match table.get(at) {
        Some(address) => *address,
        None => 0,
    }
}

fn locate(symbols: &[u16], sym: Sym, offset: u16) -> u16
    ensures { result ≡ located symbols.now sym offset }
{
    lookup(symbols, sym.0 as usize).wrapping_add(offset)
}

// From the end of a branch of 2 bytes to its label, as a signed byte.
fn branch_distance(from: u16, to: u16) -> u16
    ensures { result ≡ distance from to }
{
    ((u64::from(to) + 65790 - u64::from(from)) % 256) as u16
}

fn put_branch(
    out: &mut Vec<u8>,
    is_near: bool,
    op: Op,
    from: u16,
    to: u16,
) -> Result<(), AllocError>
    ensures { OnOk result (out.new.items ≡ out.old.items ++ branch_bytes is_near op from to) }
{
    if is_near {
        put_instruction(out, op, Mode::Relative, branch_distance(from, to))
    } else {
        put_instruction(out, opposite(op), Mode::Relative, 3)?;
        put_instruction(out, Op::Jmp, Mode::Absolute, to)
    }
}

/// Where lines stand, with the addresses of symbols and of routines by number.
#[derive(Drop)]
struct Spot<'a> {
    body: &'a Body,
    base: u16,
    symbols: &'a [u16],
    routines: &'a [u16],
}

impl<'a> Model for Spot<'a> {
    ghost use Rattle.c65_link.specs.Bytes.{Spot};

    ghost Value = { Spot };

    ghost view = { λ s. record { body = s.body.now; base = s.base; symbols = s.symbols.now; routines = s.routines.now } };
}

/// How many bytes of the same lines are before a line, if all branches are long and as it is.
#[derive(Clone, Copy)]
struct Cursor {
    far: u64,
    near: u64,
}

impl Cursor {
    fn step(&mut self, body: &Body, line: &Line)
        ensures { self.new ≡ step body.now self.old line.now }
    {
        let size = body.line_size(self.far, line);
        self.near = self.near.saturating_add(size);
        self.far = self.far.saturating_add(longest(line));
    }
}

impl<'a> Spot<'a> {
    fn label(&self, label: u32) -> u16
        ensures { result ≡ label_address self.now label }
    {
        self.base.wrapping_add(address(self.body.label(label)))
    }

    fn word(&self, operand: Operand) -> u16
        ensures { result ≡ word_of self.now operand }
    {
        match operand {
            Operand::Nothing => 0,
            Operand::Byte(value) => u16::from(value),
            Operand::Low(sym, offset) => locate(self.symbols, sym, offset) % 256,
            Operand::High(sym, offset) => locate(self.symbols, sym, offset) / 256,
            Operand::Zero(at) => u16::from(at),
            Operand::At(sym, offset) => locate(self.symbols, sym, offset),
            Operand::To(label) => self.label(label),
        }
    }

    fn callee(&self, callee: &Callee) -> u16
        ensures { result ≡ callee_address self.now callee.now }
    {
        match callee {
            Callee::Routine(which) => lookup(self.routines, which.number()),
            Callee::Function(sym, _, _) => lookup(self.symbols, sym.0 as usize),
            Callee::Pointer(_, _) => lookup(self.routines, Routine::CallPtr4.number()),
        }
    }

    fn put_do(
        &self,
        out: &mut Vec<u8>,
        cursor: &Cursor,
        op: Op,
        mode: Mode,
        operand: Operand,
    ) -> Result<(), AllocError>
        ensures { OnOk result (out.new.items ≡ out.old.items ++ do_bytes self.now cursor.now op mode operand) }
    {
        if mode == Mode::Relative {
            let is_near = self.body.reaches(cursor.far, operand);
            let from = self.base.wrapping_add(address(cursor.near));
            put_branch(out, is_near, op, from, self.label(target(operand)))
        } else {
            put_instruction(out, op, mode, self.word(operand))
        }
    }

    fn put_line(&self, out: &mut Vec<u8>, cursor: &Cursor, line: &Line) -> Result<(), AllocError>
        ensures { OnOk result (out.new.items ≡ out.old.items ++ line_bytes self.now cursor.now line.now) }
    {
        match line {
            Line::Label(_) => Ok(()),
            Line::Do(op, mode, operand) => self.put_do(out, cursor, *op, *mode, *operand),
            Line::Call(callee) => {
                put_instruction(out, Op::Jsr, Mode::Absolute, self.callee(callee))
            }
        }
    }

    fn put_lines(&self, out: &mut Vec<u8>, lines: &[Line]) -> Result<(), AllocError>
        ensures { OnOk result (out.new.items ≡ out.old.items ++ lines_bytes self.now (record { far = 0; near = 0 }) lines.now) }
    {
        let mut cursor = Cursor { far: 0, near: 0 };
        for line in lines {
            self.put_line(out, &cursor, line)?;
            cursor.step(self.body, line);
        }
        Ok(())
    }
}

/// The addresses of symbols and of routines by number.
#[derive(Drop)]
pub struct Tables<'a> {
    pub symbols: &'a [u16],
    pub routines: &'a [u16],
}

impl<'a> Model for Tables<'a> {
    ghost use Rattle.c65_link.specs.Bytes.{Tables};

    ghost Value = { Tables };

    ghost view = { λ t. record { symbols = t.symbols.now; routines = t.routines.now } };
}

/// What is written so far, and the address behind it.
#[derive(Drop)]
pub struct Written {
    pub bytes: Vec<u8>,
    pub at: u64,
}

impl Model for Written {
    ghost use Rattle.c65_link.specs.Bytes.{Written};

    ghost Value = { Written };

    ghost view = { λ w. record { bytes = w.bytes.items; at = w.at } };
}

impl Written {
    /// Lines more.
    pub fn put_lines(
        &mut self,
        alloc: Global,
        tables: &Tables<'_>,
        lines: &[Line],
    ) -> Result<(), AllocError>
        ensures { OnOk result (self.new ≡ with_lines tables.now self.old lines.now) }
    {
        let body = Body::of(alloc, lines)?;
        let spot = Spot {
            body: &body,
            base: address(self.at),
            symbols: tables.symbols,
            routines: tables.routines,
        };
        spot.put_lines(&mut self.bytes, lines)?;
        self.at = self.at.saturating_add(body.size());
        Ok(())
    }

    /// The functions of a code.
    pub fn put_functions(
        &mut self,
        alloc: Global,
        tables: &Tables<'_>,
        functions: &[(Sym, Seg)],
    ) -> Result<(), AllocError>
        ensures { OnOk result (self.new ≡ with_functions tables.now self.old functions.now) }
    {
        for function in functions {
            self.put_lines(alloc, tables, function.1.lines())?;
        }
        Ok(())
    }

    /// Routines.
    pub fn put_routines(
        &mut self,
        alloc: Global,
        tables: &Tables<'_>,
        parts: &[Part],
    ) -> Result<(), AllocError>
        ensures { OnOk result (self.new ≡ with_routines tables.now self.old parts.now) }
    {
        for part in parts {
            self.put_lines(alloc, tables, part.lines())?;
        }
        Ok(())
    }
}

fn put_cell(out: &mut Vec<u8>, symbols: &[u16], cell: &DataCell) -> Result<(), AllocError>
    ensures { OnOk result (out.new.items ≡ out.old.items ++ cell_bytes symbols.now cell.now) }
{
    match cell {
        DataCell::Byte(value) => {
            out.push(*value)?;
            Ok(())
        }
        DataCell::Address(sym, offset) => {
            out.extend_from_slice(&locate(symbols, *sym, *offset).to_le_bytes())
        }
    }
}

fn put_cells(out: &mut Vec<u8>, symbols: &[u16], cells: &[DataCell]) -> Result<(), AllocError>
    ensures { OnOk result (out.new.items ≡ out.old.items ++ cells_bytes symbols.now cells.now) }
{
    for cell in cells {
        put_cell(out, symbols, cell)?;
    }
    Ok(())
}

fn put_datum(out: &mut Vec<u8>, symbols: &[u16], datum: &Datum) -> Result<(), AllocError>
    ensures { OnOk result (out.new.items ≡ out.old.items ++ datum_bytes symbols.now datum.now.kind datum.now.cells) }
{
    if datum.kind == DatumKind::Zero {
        Ok(())
    } else {
        put_cells(out, symbols, datum.cells.as_slice())
    }
}

/// The data that stand in the file.
pub fn put_data(out: &mut Vec<u8>, symbols: &[u16], datums: &[Datum]) -> Result<(), AllocError>
    ensures { OnOk result (out.new.items ≡ out.old.items ++ data_bytes symbols.now datums.now) }
{
    for datum in datums {
        put_datum(out, symbols, datum)?;
    }
    Ok(())
}
