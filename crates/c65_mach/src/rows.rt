// The tables of opcodes: the 6502's (MCS6500 Programming Manual, appendices A and B), and the 65C02's own.
ghost use Rattle.std.specs.Prelude.{◌≡◌, ◌+◌, ◌<◌, true, false, Some};
ghost use Rattle.c65_mach.specs.Table.{row_of, row_for, own_rows, found};
ghost use Rattle.c65_mach.specs.Step.{pushes};

use c65_base::Cpu;

/// The 56 operations of the MCS6500 Programming Manual by their mnemonics there, and the 8 that the 65C02 adds.
#[derive(Clone, Copy, Debug, PartialEq, Eq)]
pub enum Op {
    Adc,
    And,
    Asl,
    Bcc,
    Bcs,
    Beq,
    Bit,
    Bmi,
    Bne,
    Bpl,
    Bra,
    Brk,
    Bvc,
    Bvs,
    Clc,
    Cld,
    Cli,
    Clv,
    Cmp,
    Cpx,
    Cpy,
    Dec,
    Dex,
    Dey,
    Eor,
    Inc,
    Inx,
    Iny,
    Jmp,
    Jsr,
    Lda,
    Ldx,
    Ldy,
    Lsr,
    Nop,
    Ora,
    Pha,
    Php,
    Phx,
    Phy,
    Pla,
    Plp,
    Plx,
    Ply,
    Rol,
    Ror,
    Rti,
    Rts,
    Sbc,
    Sec,
    Sed,
    Sei,
    Sta,
    Stx,
    Sty,
    Stz,
    Tax,
    Tay,
    Trb,
    Tsb,
    Tsx,
    Txa,
    Txs,
    Tya,
}

impl Op {
    /// How many bytes the operation pushes on the stack of page 1.
    pub fn pushes(self) -> u8
        ensures { result ≡ pushes self }
    {
        match self {
            Op::Brk => 3,
            Op::Jsr => 2,
            Op::Pha | Op::Php | Op::Phx | Op::Phy => 1,
            _ => 0,
        }
    }
}

/// Where an operation finds its operand (MCS6500 Programming Manual, chapters 5 and 6).
#[derive(Clone, Copy, Debug, PartialEq, Eq)]
pub enum Mode {
    /// No operand: `INX`.
    Implied,
    /// The accumulator: `ASL A`.
    Accumulator,
    /// The byte behind the opcode: `LDA #$12`.
    Immediate,
    /// A byte of the zero page: `LDA $12`.
    ZeroPage,
    /// A byte of the zero page, X further on and still in that page: `LDA $12,X`.
    ZeroPageX,
    /// The same with Y: `LDX $12,Y`.
    ZeroPageY,
    /// A byte by its address, or an address to go to: `LDA $1234`.
    Absolute,
    /// A byte X behind an address: `LDA $1234,X`.
    AbsoluteX,
    /// A byte Y behind an address: `LDA $1234,Y`.
    AbsoluteY,
    /// A byte whose address lies in the zero page, X further on: `LDA ($12,X)`.
    IndirectX,
    /// A byte Y behind the address that lies in the zero page: `LDA ($12),Y`.
    IndirectY,
    /// To go to the address that lies at an address: `JMP ($1234)`.
    Indirect,
    /// To go up to 127 bytes forward or 128 back: `BNE $1234`.
    Relative,
    /// A byte whose address lies in the zero page: `LDA ($12)`, on the 65C02.
    ZeroPageIndirect,
    /// To go to the address that lies X behind an address: `JMP ($1234,X)`, on the 65C02.
    AbsoluteIndirectX,
}

/// A row of the table: what the opcode does, where its operand is, and how long it takes.
#[derive(Clone, Copy, Debug, PartialEq, Eq)]
pub struct Row {
    pub op: Op,
    pub mode: Mode,
    /// The cycles it takes at least.
    pub cycles: u8,
    /// Whether it takes one more where an index leads into another page.
    pub page: bool,
}

fn plain(op: Op, mode: Mode, cycles: u8) -> Option<Row>
    ensures { result ≡ Some (record { op = op; mode = mode; cycles = cycles; page = false }) }
{
    Some(Row {
        op,
        mode,
        cycles,
        page: false,
    })
}

fn paged(op: Op, mode: Mode, cycles: u8) -> Option<Row>
    ensures { result ≡ Some (record { op = op; mode = mode; cycles = cycles; page = true }) }
{
    Some(Row {
        op,
        mode,
        cycles,
        page: true,
    })
}

fn row_0(low: u8) -> Option<Row>
    requires { low < 16 }
    ensures { result ≡ row_of (0x00 + low) }
{
    match low {
        0 => plain(Op::Brk, Mode::Implied, 7),
        1 => plain(Op::Ora, Mode::IndirectX, 6),
        2 => None,
        3 => None,
        4 => None,
        5 => plain(Op::Ora, Mode::ZeroPage, 3),
        6 => plain(Op::Asl, Mode::ZeroPage, 5),
        7 => None,
        8 => plain(Op::Php, Mode::Implied, 3),
        9 => plain(Op::Ora, Mode::Immediate, 2),
        10 => plain(Op::Asl, Mode::Accumulator, 2),
        11 => None,
        12 => None,
        13 => plain(Op::Ora, Mode::Absolute, 4),
        14 => plain(Op::Asl, Mode::Absolute, 6),
        _ => None,
    }
}

fn row_1(low: u8) -> Option<Row>
    requires { low < 16 }
    ensures { result ≡ row_of (0x10 + low) }
{
    match low {
        0 => paged(Op::Bpl, Mode::Relative, 2),
        1 => paged(Op::Ora, Mode::IndirectY, 5),
        2 => None,
        3 => None,
        4 => None,
        5 => plain(Op::Ora, Mode::ZeroPageX, 4),
        6 => plain(Op::Asl, Mode::ZeroPageX, 6),
        7 => None,
        8 => plain(Op::Clc, Mode::Implied, 2),
        9 => paged(Op::Ora, Mode::AbsoluteY, 4),
        10 => None,
        11 => None,
        12 => None,
        13 => paged(Op::Ora, Mode::AbsoluteX, 4),
        14 => plain(Op::Asl, Mode::AbsoluteX, 7),
        _ => None,
    }
}

fn row_2(low: u8) -> Option<Row>
    requires { low < 16 }
    ensures { result ≡ row_of (0x20 + low) }
{
    match low {
        0 => plain(Op::Jsr, Mode::Absolute, 6),
        1 => plain(Op::And, Mode::IndirectX, 6),
        2 => None,
        3 => None,
        4 => plain(Op::Bit, Mode::ZeroPage, 3),
        5 => plain(Op::And, Mode::ZeroPage, 3),
        6 => plain(Op::Rol, Mode::ZeroPage, 5),
        7 => None,
        8 => plain(Op::Plp, Mode::Implied, 4),
        9 => plain(Op::And, Mode::Immediate, 2),
        10 => plain(Op::Rol, Mode::Accumulator, 2),
        11 => None,
        12 => plain(Op::Bit, Mode::Absolute, 4),
        13 => plain(Op::And, Mode::Absolute, 4),
        14 => plain(Op::Rol, Mode::Absolute, 6),
        _ => None,
    }
}

fn row_3(low: u8) -> Option<Row>
    requires { low < 16 }
    ensures { result ≡ row_of (0x30 + low) }
{
    match low {
        0 => paged(Op::Bmi, Mode::Relative, 2),
        1 => paged(Op::And, Mode::IndirectY, 5),
        2 => None,
        3 => None,
        4 => None,
        5 => plain(Op::And, Mode::ZeroPageX, 4),
        6 => plain(Op::Rol, Mode::ZeroPageX, 6),
        7 => None,
        8 => plain(Op::Sec, Mode::Implied, 2),
        9 => paged(Op::And, Mode::AbsoluteY, 4),
        10 => None,
        11 => None,
        12 => None,
        13 => paged(Op::And, Mode::AbsoluteX, 4),
        14 => plain(Op::Rol, Mode::AbsoluteX, 7),
        _ => None,
    }
}

fn row_4(low: u8) -> Option<Row>
    requires { low < 16 }
    ensures { result ≡ row_of (0x40 + low) }
{
    match low {
        0 => plain(Op::Rti, Mode::Implied, 6),
        1 => plain(Op::Eor, Mode::IndirectX, 6),
        2 => None,
        3 => None,
        4 => None,
        5 => plain(Op::Eor, Mode::ZeroPage, 3),
        6 => plain(Op::Lsr, Mode::ZeroPage, 5),
        7 => None,
        8 => plain(Op::Pha, Mode::Implied, 3),
        9 => plain(Op::Eor, Mode::Immediate, 2),
        10 => plain(Op::Lsr, Mode::Accumulator, 2),
        11 => None,
        12 => plain(Op::Jmp, Mode::Absolute, 3),
        13 => plain(Op::Eor, Mode::Absolute, 4),
        14 => plain(Op::Lsr, Mode::Absolute, 6),
        _ => None,
    }
}

fn row_5(low: u8) -> Option<Row>
    requires { low < 16 }
    ensures { result ≡ row_of (0x50 + low) }
{
    match low {
        0 => paged(Op::Bvc, Mode::Relative, 2),
        1 => paged(Op::Eor, Mode::IndirectY, 5),
        2 => None,
        3 => None,
        4 => None,
        5 => plain(Op::Eor, Mode::ZeroPageX, 4),
        6 => plain(Op::Lsr, Mode::ZeroPageX, 6),
        7 => None,
        8 => plain(Op::Cli, Mode::Implied, 2),
        9 => paged(Op::Eor, Mode::AbsoluteY, 4),
        10 => None,
        11 => None,
        12 => None,
        13 => paged(Op::Eor, Mode::AbsoluteX, 4),
        14 => plain(Op::Lsr, Mode::AbsoluteX, 7),
        _ => None,
    }
}

fn row_6(low: u8) -> Option<Row>
    requires { low < 16 }
    ensures { result ≡ row_of (0x60 + low) }
{
    match low {
        0 => plain(Op::Rts, Mode::Implied, 6),
        1 => plain(Op::Adc, Mode::IndirectX, 6),
        2 => None,
        3 => None,
        4 => None,
        5 => plain(Op::Adc, Mode::ZeroPage, 3),
        6 => plain(Op::Ror, Mode::ZeroPage, 5),
        7 => None,
        8 => plain(Op::Pla, Mode::Implied, 4),
        9 => plain(Op::Adc, Mode::Immediate, 2),
        10 => plain(Op::Ror, Mode::Accumulator, 2),
        11 => None,
        12 => plain(Op::Jmp, Mode::Indirect, 5),
        13 => plain(Op::Adc, Mode::Absolute, 4),
        14 => plain(Op::Ror, Mode::Absolute, 6),
        _ => None,
    }
}

fn row_7(low: u8) -> Option<Row>
    requires { low < 16 }
    ensures { result ≡ row_of (0x70 + low) }
{
    match low {
        0 => paged(Op::Bvs, Mode::Relative, 2),
        1 => paged(Op::Adc, Mode::IndirectY, 5),
        2 => None,
        3 => None,
        4 => None,
        5 => plain(Op::Adc, Mode::ZeroPageX, 4),
        6 => plain(Op::Ror, Mode::ZeroPageX, 6),
        7 => None,
        8 => plain(Op::Sei, Mode::Implied, 2),
        9 => paged(Op::Adc, Mode::AbsoluteY, 4),
        10 => None,
        11 => None,
        12 => None,
        13 => paged(Op::Adc, Mode::AbsoluteX, 4),
        14 => plain(Op::Ror, Mode::AbsoluteX, 7),
        _ => None,
    }
}

fn row_8(low: u8) -> Option<Row>
    requires { low < 16 }
    ensures { result ≡ row_of (0x80 + low) }
{
    match low {
        0 => None,
        1 => plain(Op::Sta, Mode::IndirectX, 6),
        2 => None,
        3 => None,
        4 => plain(Op::Sty, Mode::ZeroPage, 3),
        5 => plain(Op::Sta, Mode::ZeroPage, 3),
        6 => plain(Op::Stx, Mode::ZeroPage, 3),
        7 => None,
        8 => plain(Op::Dey, Mode::Implied, 2),
        9 => None,
        10 => plain(Op::Txa, Mode::Implied, 2),
        11 => None,
        12 => plain(Op::Sty, Mode::Absolute, 4),
        13 => plain(Op::Sta, Mode::Absolute, 4),
        14 => plain(Op::Stx, Mode::Absolute, 4),
        _ => None,
    }
}

fn row_9(low: u8) -> Option<Row>
    requires { low < 16 }
    ensures { result ≡ row_of (0x90 + low) }
{
    match low {
        0 => paged(Op::Bcc, Mode::Relative, 2),
        1 => plain(Op::Sta, Mode::IndirectY, 6),
        2 => None,
        3 => None,
        4 => plain(Op::Sty, Mode::ZeroPageX, 4),
        5 => plain(Op::Sta, Mode::ZeroPageX, 4),
        6 => plain(Op::Stx, Mode::ZeroPageY, 4),
        7 => None,
        8 => plain(Op::Tya, Mode::Implied, 2),
        9 => plain(Op::Sta, Mode::AbsoluteY, 5),
        10 => plain(Op::Txs, Mode::Implied, 2),
        11 => None,
        12 => None,
        13 => plain(Op::Sta, Mode::AbsoluteX, 5),
        14 => None,
        _ => None,
    }
}

fn row_a(low: u8) -> Option<Row>
    requires { low < 16 }
    ensures { result ≡ row_of (0xA0 + low) }
{
    match low {
        0 => plain(Op::Ldy, Mode::Immediate, 2),
        1 => plain(Op::Lda, Mode::IndirectX, 6),
        2 => plain(Op::Ldx, Mode::Immediate, 2),
        3 => None,
        4 => plain(Op::Ldy, Mode::ZeroPage, 3),
        5 => plain(Op::Lda, Mode::ZeroPage, 3),
        6 => plain(Op::Ldx, Mode::ZeroPage, 3),
        7 => None,
        8 => plain(Op::Tay, Mode::Implied, 2),
        9 => plain(Op::Lda, Mode::Immediate, 2),
        10 => plain(Op::Tax, Mode::Implied, 2),
        11 => None,
        12 => plain(Op::Ldy, Mode::Absolute, 4),
        13 => plain(Op::Lda, Mode::Absolute, 4),
        14 => plain(Op::Ldx, Mode::Absolute, 4),
        _ => None,
    }
}

fn row_b(low: u8) -> Option<Row>
    requires { low < 16 }
    ensures { result ≡ row_of (0xB0 + low) }
{
    match low {
        0 => paged(Op::Bcs, Mode::Relative, 2),
        1 => paged(Op::Lda, Mode::IndirectY, 5),
        2 => None,
        3 => None,
        4 => plain(Op::Ldy, Mode::ZeroPageX, 4),
        5 => plain(Op::Lda, Mode::ZeroPageX, 4),
        6 => plain(Op::Ldx, Mode::ZeroPageY, 4),
        7 => None,
        8 => plain(Op::Clv, Mode::Implied, 2),
        9 => paged(Op::Lda, Mode::AbsoluteY, 4),
        10 => plain(Op::Tsx, Mode::Implied, 2),
        11 => None,
        12 => paged(Op::Ldy, Mode::AbsoluteX, 4),
        13 => paged(Op::Lda, Mode::AbsoluteX, 4),
        14 => paged(Op::Ldx, Mode::AbsoluteY, 4),
        _ => None,
    }
}

fn row_c(low: u8) -> Option<Row>
    requires { low < 16 }
    ensures { result ≡ row_of (0xC0 + low) }
{
    match low {
        0 => plain(Op::Cpy, Mode::Immediate, 2),
        1 => plain(Op::Cmp, Mode::IndirectX, 6),
        2 => None,
        3 => None,
        4 => plain(Op::Cpy, Mode::ZeroPage, 3),
        5 => plain(Op::Cmp, Mode::ZeroPage, 3),
        6 => plain(Op::Dec, Mode::ZeroPage, 5),
        7 => None,
        8 => plain(Op::Iny, Mode::Implied, 2),
        9 => plain(Op::Cmp, Mode::Immediate, 2),
        10 => plain(Op::Dex, Mode::Implied, 2),
        11 => None,
        12 => plain(Op::Cpy, Mode::Absolute, 4),
        13 => plain(Op::Cmp, Mode::Absolute, 4),
        14 => plain(Op::Dec, Mode::Absolute, 6),
        _ => None,
    }
}

fn row_d(low: u8) -> Option<Row>
    requires { low < 16 }
    ensures { result ≡ row_of (0xD0 + low) }
{
    match low {
        0 => paged(Op::Bne, Mode::Relative, 2),
        1 => paged(Op::Cmp, Mode::IndirectY, 5),
        2 => None,
        3 => None,
        4 => None,
        5 => plain(Op::Cmp, Mode::ZeroPageX, 4),
        6 => plain(Op::Dec, Mode::ZeroPageX, 6),
        7 => None,
        8 => plain(Op::Cld, Mode::Implied, 2),
        9 => paged(Op::Cmp, Mode::AbsoluteY, 4),
        10 => None,
        11 => None,
        12 => None,
        13 => paged(Op::Cmp, Mode::AbsoluteX, 4),
        14 => plain(Op::Dec, Mode::AbsoluteX, 7),
        _ => None,
    }
}

fn row_e(low: u8) -> Option<Row>
    requires { low < 16 }
    ensures { result ≡ row_of (0xE0 + low) }
{
    match low {
        0 => plain(Op::Cpx, Mode::Immediate, 2),
        1 => plain(Op::Sbc, Mode::IndirectX, 6),
        2 => None,
        3 => None,
        4 => plain(Op::Cpx, Mode::ZeroPage, 3),
        5 => plain(Op::Sbc, Mode::ZeroPage, 3),
        6 => plain(Op::Inc, Mode::ZeroPage, 5),
        7 => None,
        8 => plain(Op::Inx, Mode::Implied, 2),
        9 => plain(Op::Sbc, Mode::Immediate, 2),
        10 => plain(Op::Nop, Mode::Implied, 2),
        11 => None,
        12 => plain(Op::Cpx, Mode::Absolute, 4),
        13 => plain(Op::Sbc, Mode::Absolute, 4),
        14 => plain(Op::Inc, Mode::Absolute, 6),
        _ => None,
    }
}

fn row_f(low: u8) -> Option<Row>
    requires { low < 16 }
    ensures { result ≡ row_of (0xF0 + low) }
{
    match low {
        0 => paged(Op::Beq, Mode::Relative, 2),
        1 => paged(Op::Sbc, Mode::IndirectY, 5),
        2 => None,
        3 => None,
        4 => None,
        5 => plain(Op::Sbc, Mode::ZeroPageX, 4),
        6 => plain(Op::Inc, Mode::ZeroPageX, 6),
        7 => None,
        8 => plain(Op::Sed, Mode::Implied, 2),
        9 => paged(Op::Sbc, Mode::AbsoluteY, 4),
        10 => None,
        11 => None,
        12 => None,
        13 => paged(Op::Sbc, Mode::AbsoluteX, 4),
        14 => plain(Op::Inc, Mode::AbsoluteX, 7),
        _ => None,
    }
}

/// The row of an opcode on the 6502.
pub fn decode(byte: u8) -> Option<Row>
    ensures { result ≡ row_of byte }
{
    let low = byte % 16;
    match byte / 16 {
        0 => row_0(low),
        1 => row_1(low),
        2 => row_2(low),
        3 => row_3(low),
        4 => row_4(low),
        5 => row_5(low),
        6 => row_6(low),
        7 => row_7(low),
        8 => row_8(low),
        9 => row_9(low),
        10 => row_a(low),
        11 => row_b(low),
        12 => row_c(low),
        13 => row_d(low),
        14 => row_e(low),
        _ => row_f(low),
    }
}

// The 65C02's own row for an opcode.
fn own_row(byte: u8) -> Option<Row>
    ensures { result ≡ found byte own_rows }
{
    match byte {
        0x04 => plain(Op::Tsb, Mode::ZeroPage, 5),
        0x0C => plain(Op::Tsb, Mode::Absolute, 6),
        0x12 => plain(Op::Ora, Mode::ZeroPageIndirect, 5),
        0x14 => plain(Op::Trb, Mode::ZeroPage, 5),
        0x1A => plain(Op::Inc, Mode::Accumulator, 2),
        0x1C => plain(Op::Trb, Mode::Absolute, 6),
        0x32 => plain(Op::And, Mode::ZeroPageIndirect, 5),
        0x34 => plain(Op::Bit, Mode::ZeroPageX, 4),
        0x3A => plain(Op::Dec, Mode::Accumulator, 2),
        0x3C => paged(Op::Bit, Mode::AbsoluteX, 4),
        0x52 => plain(Op::Eor, Mode::ZeroPageIndirect, 5),
        0x5A => plain(Op::Phy, Mode::Implied, 3),
        0x64 => plain(Op::Stz, Mode::ZeroPage, 3),
        0x6C => plain(Op::Jmp, Mode::Indirect, 6),
        0x72 => plain(Op::Adc, Mode::ZeroPageIndirect, 5),
        0x74 => plain(Op::Stz, Mode::ZeroPageX, 4),
        0x7A => plain(Op::Ply, Mode::Implied, 4),
        0x7C => plain(Op::Jmp, Mode::AbsoluteIndirectX, 6),
        0x80 => paged(Op::Bra, Mode::Relative, 3),
        0x89 => plain(Op::Bit, Mode::Immediate, 2),
        0x92 => plain(Op::Sta, Mode::ZeroPageIndirect, 5),
        0x9C => plain(Op::Stz, Mode::Absolute, 4),
        0x9E => plain(Op::Stz, Mode::AbsoluteX, 5),
        0xB2 => plain(Op::Lda, Mode::ZeroPageIndirect, 5),
        0xD2 => plain(Op::Cmp, Mode::ZeroPageIndirect, 5),
        0xDA => plain(Op::Phx, Mode::Implied, 3),
        0xF2 => plain(Op::Sbc, Mode::ZeroPageIndirect, 5),
        0xFA => plain(Op::Plx, Mode::Implied, 4),
        _ => None,
    }
}

/// The row of an opcode on either processor. It answers None exactly for a byte that has no row there: the 105 bytes of the
/// 6502, of which the 65C02 has rows for 27.
pub fn decode_for(cpu: Cpu, byte: u8) -> Option<Row>
    ensures { result ≡ row_for cpu byte }
{
    match cpu {
        Cpu::Nmos => decode(byte),
        Cpu::Cmos => match own_row(byte) {
            Some(row) => Some(row),
            None => decode(byte),
        },
    }
}
