// Which lines may stand in a segment, and whether lines are one.
ghost use Rattle.std.specs.Prelude.{◌≡◌, ◌↔◌, IsTrue};
ghost use Rattle.std.specs.List.{list_all};
ghost use Rattle.c65_code.specs.Segments.{is_common, is_counted, is_index_op, is_nmos_row, is_added_row, has_row, is_barred, takes, is_fit, labels_of, is_among, is_distinct, targets_of, is_closing, is_closed, IsSegment};

use crate::line::{Line, Operand};
use c65_mach::{Mode, Op};

// ADC AND CMP EOR LDA ORA SBC, and STA without immediate mode
fn is_common_mode(mode: Mode) -> bool
    ensures { result ≡ is_common mode }
{
    match mode {
        Mode::Immediate | Mode::ZeroPage | Mode::ZeroPageX | Mode::Absolute => true,
        Mode::AbsoluteX | Mode::AbsoluteY | Mode::IndirectX | Mode::IndirectY => true,
        _ => false,
    }
}

// INC DEC, and the shifts with the accumulator
fn is_counted_mode(mode: Mode) -> bool
    ensures { result ≡ is_counted mode }
{
    match mode {
        Mode::ZeroPage | Mode::ZeroPageX | Mode::Absolute | Mode::AbsoluteX => true,
        _ => false,
    }
}

// LDX LDY STX STY CPX CPY BIT
fn is_index_mode(op: Op, mode: Mode) -> bool
    requires { IsTrue (is_index_op op) }
    ensures { result ≡ is_nmos_row op mode }
{
    match (op, mode) {
        (_, Mode::ZeroPage | Mode::Absolute) => true,
        (Op::Ldx | Op::Ldy | Op::Cpx | Op::Cpy, Mode::Immediate) => true,
        (Op::Ldx | Op::Stx, Mode::ZeroPageY) => true,
        (Op::Ldy | Op::Sty, Mode::ZeroPageX) => true,
        (Op::Ldx, Mode::AbsoluteY) => true,
        (Op::Ldy, Mode::AbsoluteX) => true,
        _ => false,
    }
}

// The table of the 6502.
fn is_nmos_row(op: Op, mode: Mode) -> bool
    ensures { result ≡ is_nmos_row op mode }
{
    match op {
        Op::Adc | Op::And | Op::Cmp | Op::Eor | Op::Lda | Op::Ora | Op::Sbc => is_common_mode(mode),
        Op::Sta => is_common_mode(mode) && mode != Mode::Immediate,
        Op::Asl | Op::Lsr | Op::Rol | Op::Ror => is_counted_mode(mode) || mode == Mode::Accumulator,
        Op::Inc | Op::Dec => is_counted_mode(mode),
        Op::Ldx | Op::Ldy | Op::Stx | Op::Sty | Op::Cpx | Op::Cpy | Op::Bit => {
            is_index_mode(op, mode)
        }
        Op::Jmp => mode == Mode::Absolute || mode == Mode::Indirect,
        Op::Jsr => mode == Mode::Absolute,
        Op::Bcc | Op::Bcs | Op::Beq | Op::Bmi => mode == Mode::Relative,
        Op::Bne | Op::Bpl | Op::Bvc | Op::Bvs => mode == Mode::Relative,
        Op::Bra | Op::Phx | Op::Phy | Op::Plx | Op::Ply => false,
        Op::Stz | Op::Trb | Op::Tsb => false,
        _ => mode == Mode::Implied,
    }
}

// What the 65C02 adds and a line may have.
fn is_added_row(op: Op, mode: Mode) -> bool
    ensures { result ≡ is_added_row op mode }
{
    match (op, mode) {
        (Op::Stz, Mode::ZeroPage | Mode::Absolute) => true,
        (Op::Inc | Op::Dec, Mode::Accumulator) => true,
        (Op::Lda | Op::Sta, Mode::ZeroPageIndirect) => true,
        _ => false,
    }
}

/// Whether a line may have this operation in this mode, on the 6502 or the 65C02.
pub fn has_opcode(op: Op, mode: Mode) -> bool
    ensures { result ≡ has_row op mode }
{
    is_nmos_row(op, mode) || is_added_row(op, mode)
}

fn is_barred_op(op: Op) -> bool
    ensures { result ≡ is_barred op }
{
    match op {
        Op::Jsr | Op::Sed | Op::Cld | Op::Sei | Op::Cli => true,
        Op::Plp | Op::Php | Op::Rti | Op::Brk | Op::Txs => true,
        _ => false,
    }
}

fn is_operand(op: Op, mode: Mode, operand: Operand) -> bool
    ensures { result ≡ takes op mode operand }
{
    match mode {
        Mode::Implied | Mode::Accumulator => matches!(operand, Operand::Nothing),
        Mode::Immediate => {
            matches!(
                operand,
                Operand::Byte(_) | Operand::Low(_, _) | Operand::High(_, _)
            )
        }
        Mode::ZeroPage | Mode::ZeroPageX | Mode::ZeroPageY => matches!(operand, Operand::Zero(_)),
        Mode::IndirectX | Mode::IndirectY | Mode::Indirect => matches!(operand, Operand::Zero(_)),
        Mode::ZeroPageIndirect => matches!(operand, Operand::Zero(_)),
        Mode::AbsoluteIndirectX => false,
        Mode::AbsoluteX | Mode::AbsoluteY => matches!(operand, Operand::At(_, _)),
        Mode::Relative => matches!(operand, Operand::To(_)),
        Mode::Absolute => match op {
            Op::Jmp => matches!(operand, Operand::To(_)),
            _ => matches!(operand, Operand::At(_, _)),
        },
    }
}

impl Line {
    /// Whether the line may stand in a segment.
    pub fn is_fit(&self) -> bool
        ensures { result ≡ is_fit self.now }
    {
        match self {
            Line::Label(_) | Line::Call(_) => true,
            Line::Do(op, mode, operand) => {
                has_opcode(*op, *mode) && is_operand(*op, *mode, *operand) && !is_barred_op(*op)
            }
        }
    }
}

fn are_fit(lines: &[Line]) -> bool
    ensures { result ≡ list_all is_fit lines.now }
{
    for line in lines {
        if !line.is_fit() {
            return false;
        }
    }
    true
}

fn has_label(lines: &[Line], label: u32) -> bool
    ensures { result ≡ is_among (labels_of lines.now) label }
{
    for line in lines {
        if let Line::Label(other) = line {
            if label == *other {
                return true;
            }
        }
    }
    false
}

fn are_distinct(lines: &[Line]) -> bool
    ensures { result ≡ is_distinct (labels_of lines.now) }
{
    for (at, line) in lines.iter().enumerate() {
        if let Line::Label(label) = line {
            if has_label(&lines[at + 1..], *label) {
                return false;
            }
        }
    }
    true
}

fn have_labels(all: &[Line], lines: &[Line]) -> bool
    ensures { result ≡ list_all (is_among (labels_of all.now)) (targets_of lines.now) }
{
    for line in lines {
        if let Line::Do(_, _, Operand::To(label)) = line {
            if !has_label(all, *label) {
                return false;
            }
        }
    }
    true
}

fn is_closing_line(line: &Line) -> bool
    ensures { result ≡ is_closing line.now }
{
    match line {
        Line::Do(op, _, _) => matches!(op, Op::Rts | Op::Jmp),
        Line::Label(_) | Line::Call(_) => false,
    }
}

fn ends_closed(lines: &[Line]) -> bool
    ensures { result ≡ is_closed lines.now }
{
    let mut closed = false;
    for line in lines {
        closed = is_closing_line(line);
    }
    closed
}

/// Whether the lines keep what a segment's lines keep. It takes time in the square of the number of labels.
pub fn is_segment(lines: &[Line]) -> bool
    ensures { IsTrue result ↔ IsSegment lines.now }
{
    are_fit(lines) && are_distinct(lines) && have_labels(lines, lines) && ends_closed(lines)
}
