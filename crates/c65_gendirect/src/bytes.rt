// Bytes that instructions work on where they lie.
ghost use Rattle.std.specs.Prelude.{◌≡◌, OnOk, OnErr};
ghost use Rattle.c65_genwide.specs.Lines.{with_lines, Keeps};
ghost use Rattle.c65_gendirect.specs.Bytes.{op_of, takes_y, aside, back};

use c65_code::Line::Do;
use c65_code::Operand::{At, Byte, High, Low, Nothing, Zero};
use c65_code::{Draft, Line, Sym};
use c65_genload::zero_page::SP;
use c65_genwide::put;
use c65_mach::Mode::{Absolute, Immediate, Implied, IndirectY, ZeroPage};
use c65_mach::Op;
use c65_mach::Op::{Ldy, Pha, Pla, Tay, Tya};
use std::alloc::AllocError;

/// A byte that an instruction reads where it lies.
#[derive(Clone, Copy, Debug, PartialEq, Eq)]
pub enum OperandByte {
    Number(u8),
    /// The low byte of the address so far behind a symbol.
    Low(Sym, u16),
    /// The high byte of that address.
    High(Sym, u16),
    /// So many bytes above sp; it is read by Y.
    Near(u8),
    /// So far behind a symbol.
    Data(Sym, u16),
    /// Of the zero page.
    Zero(u8),
}

/// Puts an instruction that works on a byte. Y is lost where the byte is above sp.
pub fn put_op(op: Op, byte: OperandByte, draft: &mut Draft) -> Result<(), AllocError>
    ensures lines { OnOk result (draft.new ≡ with_lines draft.old (op_of op byte)) }
    ensures kept { OnErr result (Keeps draft.old draft.new) }
{
    match byte {
        OperandByte::Number(number) => put(draft, &[Do(op, Immediate, Byte(number))]),
        OperandByte::Low(sym, at) => put(draft, &[Do(op, Immediate, Low(sym, at))]),
        OperandByte::High(sym, at) => put(draft, &[Do(op, Immediate, High(sym, at))]),
        OperandByte::Near(at) => put(
            draft,
            &[Do(Ldy, Immediate, Byte(at)), Do(op, IndirectY, Zero(SP))],
        ),
        OperandByte::Data(sym, at) => put(draft, &[Do(op, Absolute, At(sym, at))]),
        OperandByte::Zero(at) => put(draft, &[Do(op, ZeroPage, Zero(at))]),
    }
}

/// Whether a byte is read by Y.
pub fn takes_y(byte: OperandByte) -> bool
    ensures { result ≡ takes_y byte }
{
    matches!(byte, OperandByte::Near(_))
}

/// What lets A wait while an instruction works on a byte.
pub fn aside(byte: OperandByte) -> Line
    ensures { result ≡ aside byte }
{
    Do(if takes_y(byte) { Pha } else { Tay }, Implied, Nothing)
}

/// What brings A back.
pub fn back(byte: OperandByte) -> Line
    ensures { result ≡ back byte }
{
    Do(if takes_y(byte) { Pla } else { Tya }, Implied, Nothing)
}
