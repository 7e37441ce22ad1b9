// What a line reads, and what it sets whatever was there.
ghost use Rattle.std.specs.Prelude.{◌≡◌, if◌then◌else◌};
ghost use Rattle.c65_mach.specs.Step.{kind_of};
ghost use Rattle.c65_code.specs.Parts.{set_of, no_parts, union_of};
ghost use Rattle.c65_code.specs.Access.{byte_at, pointer_at, register_reads, register_sets, address_reads, operand_bytes, operand_byte, is_read, is_written, return_reads, op_reads, op_sets, callee_reads, callee_sets, line_reads, line_sets};

use crate::effects::kept_at_calls;
use crate::line::{Callee, Line, Operand};
use crate::parts::{Part, RegSet};
use c65_mach::{Mode, Op};

fn zero_byte(at: u8) -> RegSet
    ensures { result ≡ byte_at at }
{
    if at < 26 {
        RegSet::of(&[Part::Zp(at)])
    } else {
        RegSet::empty()
    }
}

fn pointer(operand: Operand) -> RegSet
    ensures { result ≡ pointer_at operand }
{
    match operand {
        Operand::Zero(at) => zero_byte(at).union(zero_byte(at.wrapping_add(1))),
        _ => RegSet::empty(),
    }
}

fn registers_read(op: Op, mode: Mode) -> RegSet
    ensures { result ≡ set_of (register_reads op mode) }
{
    match op {
        Op::Adc | Op::Sbc => RegSet::of(&[Part::A, Part::C]),
        Op::And | Op::Eor | Op::Ora | Op::Cmp | Op::Bit => RegSet::of(&[Part::A]),
        Op::Sta | Op::Pha | Op::Tax | Op::Tay | Op::Trb | Op::Tsb => RegSet::of(&[Part::A]),
        Op::Cpx | Op::Dex | Op::Inx | Op::Phx => RegSet::of(&[Part::X]),
        Op::Stx | Op::Txa | Op::Txs => RegSet::of(&[Part::X]),
        Op::Cpy | Op::Dey | Op::Iny | Op::Phy | Op::Sty | Op::Tya => RegSet::of(&[Part::Y]),
        Op::Bcc | Op::Bcs => RegSet::of(&[Part::C]),
        Op::Beq | Op::Bne => RegSet::of(&[Part::Z]),
        Op::Bmi | Op::Bpl => RegSet::of(&[Part::N]),
        Op::Bvc | Op::Bvs => RegSet::of(&[Part::V]),
        Op::Brk | Op::Php => RegSet::of(&[Part::N, Part::V, Part::Z, Part::C]),
        Op::Asl | Op::Lsr | Op::Inc | Op::Dec => match mode {
            Mode::Accumulator => RegSet::of(&[Part::A]),
            _ => RegSet::empty(),
        },
        Op::Rol | Op::Ror => match mode {
            Mode::Accumulator => RegSet::of(&[Part::A, Part::C]),
            _ => RegSet::of(&[Part::C]),
        },
        _ => RegSet::empty(),
    }
}

fn registers_set(op: Op, mode: Mode) -> RegSet
    ensures { result ≡ set_of (register_sets op mode) }
{
    match op {
        Op::Adc | Op::Sbc => RegSet::of(&[Part::A, Part::N, Part::V, Part::Z, Part::C]),
        Op::And | Op::Eor | Op::Ora | Op::Lda => RegSet::of(&[Part::A, Part::N, Part::Z]),
        Op::Pla | Op::Txa | Op::Tya => RegSet::of(&[Part::A, Part::N, Part::Z]),
        Op::Dex | Op::Inx | Op::Ldx | Op::Plx => RegSet::of(&[Part::X, Part::N, Part::Z]),
        Op::Tax | Op::Tsx => RegSet::of(&[Part::X, Part::N, Part::Z]),
        Op::Dey | Op::Iny | Op::Ldy => RegSet::of(&[Part::Y, Part::N, Part::Z]),
        Op::Ply | Op::Tay => RegSet::of(&[Part::Y, Part::N, Part::Z]),
        Op::Dec | Op::Inc => match mode {
            Mode::Accumulator => RegSet::of(&[Part::A, Part::N, Part::Z]),
            _ => RegSet::of(&[Part::N, Part::Z]),
        },
        Op::Trb | Op::Tsb => RegSet::of(&[Part::Z]),
        Op::Cmp | Op::Cpx | Op::Cpy => RegSet::of(&[Part::N, Part::Z, Part::C]),
        Op::Bit => RegSet::of(&[Part::N, Part::V, Part::Z]),
        Op::Clc | Op::Sec => RegSet::of(&[Part::C]),
        Op::Clv => RegSet::of(&[Part::V]),
        Op::Plp | Op::Rti => RegSet::of(&[Part::N, Part::V, Part::Z, Part::C]),
        Op::Asl | Op::Lsr | Op::Rol | Op::Ror => match mode {
            Mode::Accumulator => RegSet::of(&[Part::A, Part::N, Part::Z, Part::C]),
            _ => RegSet::of(&[Part::N, Part::Z, Part::C]),
        },
        _ => RegSet::empty(),
    }
}

fn address_read(mode: Mode, operand: Operand) -> RegSet
    ensures { result ≡ address_reads mode operand }
{
    match mode {
        Mode::ZeroPageX | Mode::AbsoluteX => RegSet::of(&[Part::X]),
        Mode::ZeroPageY | Mode::AbsoluteY => RegSet::of(&[Part::Y]),
        Mode::IndirectX => RegSet::of(&[Part::X]).union(RegSet::zero_bytes(0, 26)),
        Mode::IndirectY => RegSet::of(&[Part::Y]).union(pointer(operand)),
        Mode::Indirect | Mode::ZeroPageIndirect => pointer(operand),
        _ => RegSet::empty(),
    }
}

// The zero-page bytes that the operand may be.
fn bytes_read(mode: Mode, operand: Operand) -> RegSet
    ensures { result ≡ operand_bytes mode operand }
{
    match (mode, operand) {
        (Mode::ZeroPage, Operand::Zero(at)) => zero_byte(at),
        (Mode::ZeroPageX | Mode::ZeroPageY, _) => RegSet::zero_bytes(0, 26),
        _ => RegSet::empty(),
    }
}

// The zero-page byte that the operand is.
fn byte_set(mode: Mode, operand: Operand) -> RegSet
    ensures { result ≡ operand_byte mode operand }
{
    match (mode, operand) {
        (Mode::ZeroPage, Operand::Zero(at)) => zero_byte(at),
        _ => RegSet::empty(),
    }
}

fn is_reading(op: Op) -> bool
    ensures { result ≡ is_read (kind_of op) }
{
    match op {
        Op::Adc | Op::And | Op::Bit | Op::Cmp | Op::Cpx | Op::Cpy | Op::Eor => true,
        Op::Lda | Op::Ldx | Op::Ldy | Op::Ora | Op::Sbc => true,
        Op::Asl | Op::Dec | Op::Inc | Op::Lsr | Op::Rol | Op::Ror => true,
        _ => false,
    }
}

fn is_writing(op: Op) -> bool
    ensures { result ≡ is_written (kind_of op) }
{
    match op {
        Op::Sta | Op::Stx | Op::Sty | Op::Stz => true,
        Op::Asl | Op::Dec | Op::Inc | Op::Lsr | Op::Rol | Op::Ror => true,
        _ => false,
    }
}

fn returned(out: RegSet, op: Op) -> RegSet
    ensures { result ≡ return_reads out op }
{
    match op {
        Op::Rts => out.union(kept_at_calls()),
        _ => RegSet::empty(),
    }
}

fn read_by(out: RegSet, op: Op, mode: Mode, operand: Operand) -> RegSet
    ensures { result ≡ op_reads out op mode operand }
{
    let registers = returned(out, op).union(registers_read(op, mode));
    let bytes = if is_reading(op) {
        bytes_read(mode, operand)
    } else {
        RegSet::empty()
    };
    registers.union(address_read(mode, operand).union(bytes))
}

fn set_by(op: Op, mode: Mode, operand: Operand) -> RegSet
    ensures { result ≡ op_sets op mode operand }
{
    let bytes = if is_writing(op) {
        byte_set(mode, operand)
    } else {
        RegSet::empty()
    };
    registers_set(op, mode).union(bytes)
}

impl Callee {
    /// What the call reads: what is passed, and for a function also sp and regbank, which it finds as they were.
    pub fn reads(&self) -> RegSet
        ensures { result ≡ callee_reads self.now }
    {
        match self {
            Callee::Routine(routine) => routine.reads(),
            Callee::Function(_, reads, _) => reads.union(kept_at_calls()),
            Callee::Pointer(reads, _) => {
                reads
                    .union(kept_at_calls())
                    .union(RegSet::zero_bytes(14, 16))
            }
        }
    }

    /// What the call may change.
    pub fn sets(&self) -> RegSet
        ensures { result ≡ callee_sets self.now }
    {
        match self {
            Callee::Routine(routine) => routine.sets(),
            Callee::Function(_, _, _) | Callee::Pointer(_, _) => {
                RegSet::all().minus(kept_at_calls())
            }
        }
    }
}

impl Line {
    /// What the line reads; `out` is what its function gives.
    pub fn reads(&self, out: RegSet) -> RegSet
        ensures { result ≡ line_reads out self.now }
    {
        match self {
            Line::Label(_) => RegSet::empty(),
            Line::Do(op, mode, operand) => read_by(out, *op, *mode, *operand),
            Line::Call(callee) => callee.reads(),
        }
    }

    /// What the line sets whatever was there; of a call, all that it may change.
    pub fn sets(&self) -> RegSet
        ensures { result ≡ line_sets self.now }
    {
        match self {
            Line::Label(_) => RegSet::empty(),
            Line::Do(op, mode, operand) => set_by(*op, *mode, *operand),
            Line::Call(callee) => callee.sets(),
        }
    }
}
