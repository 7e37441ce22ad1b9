// The lines of the 65C02 that stand for two.
ghost use Rattle.std.specs.Prelude.{◌≡◌};
ghost use Rattle.c65_pass.specs.ProcessorRules.{is_plain_place, line_if, zero_stored, stepped_up, stepped_down, loaded_through, stored_through};

use c65_code::{Line, Operand};
use c65_mach::{Mode, Op};

// A byte of the zero page or at an address, without an index.
fn is_plain_place(mode: Mode) -> bool
    ensures { result ≡ is_plain_place mode }
{
    matches!(mode, Mode::ZeroPage | Mode::Absolute)
}

fn line_if(fits: bool, line: Line) -> Option<Line>
    ensures { result ≡ line_if fits line }
{
    if fits { Some(line) } else { None }
}

/// Zero loaded in A and stored.
pub fn zero_stored(line: &Line, next: &Line) -> Option<Line>
    ensures { result ≡ zero_stored line.now next.now }
{
    match (line, next) {
        (
            Line::Do(Op::Lda, Mode::Immediate, Operand::Byte(value)),
            Line::Do(Op::Sta, mode, operand),
        ) => line_if(
            *value == 0 && is_plain_place(*mode),
            Line::Do(Op::Stz, *mode, *operand),
        ),
        _ => None,
    }
}

/// One added to A without carry.
pub fn stepped_up(line: &Line, next: &Line) -> Option<Line>
    ensures { result ≡ stepped_up line.now next.now }
{
    match (line, next) {
        (Line::Do(Op::Clc, _, _), Line::Do(Op::Adc, Mode::Immediate, Operand::Byte(value))) =>
            line_if(
                *value == 1,
                Line::Do(Op::Inc, Mode::Accumulator, Operand::Nothing),
            ),
        _ => None,
    }
}

/// One taken off A without borrow.
pub fn stepped_down(line: &Line, next: &Line) -> Option<Line>
    ensures { result ≡ stepped_down line.now next.now }
{
    match (line, next) {
        (Line::Do(Op::Sec, _, _), Line::Do(Op::Sbc, Mode::Immediate, Operand::Byte(value))) =>
            line_if(
                *value == 1,
                Line::Do(Op::Dec, Mode::Accumulator, Operand::Nothing),
            ),
        _ => None,
    }
}

/// The byte to which a pointer of the zero page points, loaded in A.
pub fn loaded_through(line: &Line, next: &Line) -> Option<Line>
    ensures { result ≡ loaded_through line.now next.now }
{
    match (line, next) {
        (
            Line::Do(Op::Ldy, Mode::Immediate, Operand::Byte(value)),
            Line::Do(Op::Lda, Mode::IndirectY, operand),
        ) => line_if(
            *value == 0,
            Line::Do(Op::Lda, Mode::ZeroPageIndirect, *operand),
        ),
        _ => None,
    }
}

/// A stored in that byte.
pub fn stored_through(line: &Line, next: &Line) -> Option<Line>
    ensures { result ≡ stored_through line.now next.now }
{
    match (line, next) {
        (
            Line::Do(Op::Ldy, Mode::Immediate, Operand::Byte(value)),
            Line::Do(Op::Sta, Mode::IndirectY, operand),
        ) => line_if(
            *value == 0,
            Line::Do(Op::Sta, Mode::ZeroPageIndirect, *operand),
        ),
        _ => None,
    }
}
