// Opcodes, and branches that are taken where others are not.
ghost use Rattle.std.specs.Prelude.{◌≡◌, ◌<◌, ◌+◌, ◌≤◌};
ghost use Rattle.c65_mach.specs.Step.{size_of};
ghost use Rattle.c65_link.specs.Opcodes.{common_column, shift_column, counting_opcode, index_column, bit_opcode, zero_opcode, jump_opcode, single_opcode, opcode_of, opposite_of};

use c65_mach::{Mode, Op};

// ADC AND CMP EOR LDA ORA SBC STA
fn common(mode: Mode) -> u8
    ensures value { result ≡ common_column mode }
    ensures small { result < 32 }
{
    match mode {
        Mode::Immediate => 0x09,
        Mode::ZeroPage => 0x05,
        Mode::ZeroPageX => 0x15,
        Mode::Absolute => 0x0D,
        Mode::AbsoluteX => 0x1D,
        Mode::AbsoluteY => 0x19,
        Mode::IndirectX => 0x01,
        Mode::IndirectY => 0x11,
        Mode::ZeroPageIndirect => 0x12,
        _ => 0,
    }
}

// ASL LSR ROL ROR INC DEC
fn shift(mode: Mode) -> u8
    ensures value { result ≡ shift_column mode }
    ensures small { result < 32 }
{
    match mode {
        Mode::Accumulator => 0x0A,
        Mode::ZeroPage => 0x06,
        Mode::ZeroPageX => 0x16,
        Mode::Absolute => 0x0E,
        Mode::AbsoluteX => 0x1E,
        _ => 0,
    }
}

// INC DEC: those of A stand in another column.
fn counting(row: u8, in_a: u8, mode: Mode) -> u8
    requires { row ≤ 224 }
    ensures { result ≡ counting_opcode row in_a mode }
{
    match mode {
        Mode::Accumulator => in_a,
        _ => row + shift(mode),
    }
}

// LDX LDY STX STY CPX CPY BIT TSB TRB
fn index(mode: Mode) -> u8
    ensures value { result ≡ index_column mode }
    ensures small { result < 29 }
{
    match mode {
        Mode::ZeroPage => 0x04,
        Mode::ZeroPageX | Mode::ZeroPageY => 0x14,
        Mode::Absolute => 0x0C,
        Mode::AbsoluteX | Mode::AbsoluteY => 0x1C,
        _ => 0,
    }
}

// BIT
fn bit(mode: Mode) -> u8
    ensures { result ≡ bit_opcode mode }
{
    match mode {
        Mode::Immediate => 0x89,
        _ => 0x20 + index(mode),
    }
}

// STZ
fn zero(mode: Mode) -> u8
    ensures { result ≡ zero_opcode mode }
{
    match mode {
        Mode::ZeroPage => 0x64,
        Mode::ZeroPageX => 0x74,
        Mode::Absolute => 0x9C,
        _ => 0x9E,
    }
}

fn jump(mode: Mode) -> u8
    ensures { result ≡ jump_opcode mode }
{
    match mode {
        Mode::Indirect => 0x6C,
        Mode::AbsoluteIndirectX => 0x7C,
        _ => 0x4C,
    }
}

/// The opcode of an operation in a mode of the tables.
pub fn opcode(op: Op, mode: Mode) -> u8
    ensures { result ≡ opcode_of op mode }
{
    match op {
        Op::Ora => common(mode),
        Op::And => 0x20 + common(mode),
        Op::Eor => 0x40 + common(mode),
        Op::Adc => 0x60 + common(mode),
        Op::Sta => 0x80 + common(mode),
        Op::Lda => 0xA0 + common(mode),
        Op::Cmp => 0xC0 + common(mode),
        Op::Sbc => 0xE0 + common(mode),
        Op::Asl => shift(mode),
        Op::Rol => 0x20 + shift(mode),
        Op::Lsr => 0x40 + shift(mode),
        Op::Ror => 0x60 + shift(mode),
        Op::Dec => counting(0xC0, 0x3A, mode),
        Op::Inc => counting(0xE0, 0x1A, mode),
        Op::Bit => bit(mode),
        Op::Tsb => index(mode),
        Op::Trb => 0x10 + index(mode),
        Op::Stz => zero(mode),
        Op::Sty => 0x80 + index(mode),
        Op::Stx => 0x82 + index(mode),
        Op::Ldy => 0xA0 + index(mode),
        Op::Ldx => 0xA2 + index(mode),
        Op::Cpy => 0xC0 + index(mode),
        Op::Cpx => 0xE0 + index(mode),
        Op::Jmp => jump(mode),
        _ => single(op),
    }
}

// The operations with one mode.
fn single(op: Op) -> u8
    ensures { result ≡ single_opcode op }
{
    match op {
        Op::Jsr => 0x20,
        Op::Bpl => 0x10,
        Op::Bmi => 0x30,
        Op::Bvc => 0x50,
        Op::Bvs => 0x70,
        Op::Bcc => 0x90,
        Op::Bcs => 0xB0,
        Op::Bne => 0xD0,
        Op::Beq => 0xF0,
        Op::Brk => 0x00,
        Op::Rti => 0x40,
        Op::Rts => 0x60,
        Op::Php => 0x08,
        Op::Plp => 0x28,
        Op::Pha => 0x48,
        Op::Pla => 0x68,
        Op::Clc => 0x18,
        Op::Sec => 0x38,
        Op::Cli => 0x58,
        Op::Sei => 0x78,
        Op::Clv => 0xB8,
        Op::Cld => 0xD8,
        Op::Sed => 0xF8,
        Op::Tax => 0xAA,
        Op::Txa => 0x8A,
        Op::Tay => 0xA8,
        Op::Tya => 0x98,
        Op::Tsx => 0xBA,
        Op::Txs => 0x9A,
        Op::Inx => 0xE8,
        Op::Iny => 0xC8,
        Op::Dex => 0xCA,
        Op::Dey => 0x88,
        Op::Nop => 0xEA,
        Op::Bra => 0x80,
        Op::Phx => 0xDA,
        Op::Phy => 0x5A,
        Op::Plx => 0xFA,
        Op::Ply => 0x7A,
        _ => 0,
    }
}

/// The branch that is taken exactly where this one is not.
pub fn opposite(op: Op) -> Op
    ensures { result ≡ opposite_of op }
{
    match op {
        Op::Bpl => Op::Bmi,
        Op::Bmi => Op::Bpl,
        Op::Bvc => Op::Bvs,
        Op::Bvs => Op::Bvc,
        Op::Bcc => Op::Bcs,
        Op::Bcs => Op::Bcc,
        Op::Bne => Op::Beq,
        Op::Beq => Op::Bne,
        _ => op,
    }
}

/// How many bytes an instruction of a mode has.
pub fn mode_size(mode: Mode) -> u64
    ensures { result ≡ size_of mode }
{
    match mode {
        Mode::Implied | Mode::Accumulator => 1,
        Mode::Absolute | Mode::AbsoluteX | Mode::AbsoluteY => 3,
        Mode::Indirect | Mode::AbsoluteIndirectX => 3,
        _ => 2,
    }
}
