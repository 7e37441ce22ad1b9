// The names of operations.
ghost use Rattle.std.specs.Prelude.{◌≡◌, ◌≤◌, IfSome};
ghost use Rattle.c65_asm.specs.Text.{mnemonic_of};
ghost use Rattle.c65_asm.specs.Rows.{op_among, op_named};

use c65_mach::Op;
use std::ops::Range;

/// An operation's name in assembly text.
pub fn mnemonic(op: Op) -> &'static [u8]
    ensures { result.now ≡ mnemonic_of op }
{
    match op {
        Op::Adc => b"ADC",
        Op::And => b"AND",
        Op::Asl => b"ASL",
        Op::Bcc => b"BCC",
        Op::Bcs => b"BCS",
        Op::Beq => b"BEQ",
        Op::Bit => b"BIT",
        Op::Bmi => b"BMI",
        Op::Bne => b"BNE",
        Op::Bpl => b"BPL",
        Op::Bra => b"BRA",
        Op::Brk => b"BRK",
        Op::Bvc => b"BVC",
        Op::Bvs => b"BVS",
        Op::Clc => b"CLC",
        Op::Cld => b"CLD",
        Op::Cli => b"CLI",
        Op::Clv => b"CLV",
        Op::Cmp => b"CMP",
        Op::Cpx => b"CPX",
        Op::Cpy => b"CPY",
        Op::Dec => b"DEC",
        Op::Dex => b"DEX",
        Op::Dey => b"DEY",
        Op::Eor => b"EOR",
        Op::Inc => b"INC",
        Op::Inx => b"INX",
        Op::Iny => b"INY",
        Op::Jmp => b"JMP",
        Op::Jsr => b"JSR",
        Op::Lda => b"LDA",
        Op::Ldx => b"LDX",
        Op::Ldy => b"LDY",
        Op::Lsr => b"LSR",
        Op::Nop => b"NOP",
        Op::Ora => b"ORA",
        Op::Pha => b"PHA",
        Op::Php => b"PHP",
        Op::Phx => b"PHX",
        Op::Phy => b"PHY",
        Op::Pla => b"PLA",
        Op::Plp => b"PLP",
        Op::Plx => b"PLX",
        Op::Ply => b"PLY",
        Op::Rol => b"ROL",
        Op::Ror => b"ROR",
        Op::Rti => b"RTI",
        Op::Rts => b"RTS",
        Op::Sbc => b"SBC",
        Op::Sec => b"SEC",
        Op::Sed => b"SED",
        Op::Sei => b"SEI",
        Op::Sta => b"STA",
        Op::Stx => b"STX",
        Op::Sty => b"STY",
        Op::Stz => b"STZ",
        Op::Tax => b"TAX",
        Op::Tay => b"TAY",
        Op::Trb => b"TRB",
        Op::Tsb => b"TSB",
        Op::Tsx => b"TSX",
        Op::Txa => b"TXA",
        Op::Txs => b"TXS",
        Op::Tya => b"TYA",
    }
}

const OPERATIONS: [Op; 64] = [
    Op::Adc,
    Op::And,
    Op::Asl,
    Op::Bcc,
    Op::Bcs,
    Op::Beq,
    Op::Bit,
    Op::Bmi,
    Op::Bne,
    Op::Bpl,
    Op::Bra,
    Op::Brk,
    Op::Bvc,
    Op::Bvs,
    Op::Clc,
    Op::Cld,
    Op::Cli,
    Op::Clv,
    Op::Cmp,
    Op::Cpx,
    Op::Cpy,
    Op::Dec,
    Op::Dex,
    Op::Dey,
    Op::Eor,
    Op::Inc,
    Op::Inx,
    Op::Iny,
    Op::Jmp,
    Op::Jsr,
    Op::Lda,
    Op::Ldx,
    Op::Ldy,
    Op::Lsr,
    Op::Nop,
    Op::Ora,
    Op::Pha,
    Op::Php,
    Op::Phx,
    Op::Phy,
    Op::Pla,
    Op::Plp,
    Op::Plx,
    Op::Ply,
    Op::Rol,
    Op::Ror,
    Op::Rti,
    Op::Rts,
    Op::Sbc,
    Op::Sec,
    Op::Sed,
    Op::Sei,
    Op::Sta,
    Op::Stx,
    Op::Sty,
    Op::Stz,
    Op::Tax,
    Op::Tay,
    Op::Trb,
    Op::Tsb,
    Op::Tsx,
    Op::Txa,
    Op::Txs,
    Op::Tya,
];

fn among(operations: &[Op], name: &[u8]) -> Option<Op>
    ensures first { result ≡ op_among operations.now name.now }
    ensures named { IfSome result (λ op. mnemonic_of op ≡ name.now) }
{
    for op in operations {
        if mnemonic(*op) == name {
            return Some(*op);
        }
    }
    None
}

// Where the operations stand whose names begin like this one.
fn likely_places(name: &[u8]) -> Range<usize>
    ensures order { result.start ≤ result.end }
    ensures end { result.end ≤ 64 }
{
    match name.first() {
        Some(b'A') => 0..3,
        Some(b'B') => 3..14,
        Some(b'C') => 14..21,
        Some(b'D') => 21..24,
        Some(b'E' | b'I') => 24..28,
        Some(b'J') => 28..30,
        Some(b'L') => 30..34,
        Some(b'N' | b'O') => 34..36,
        Some(b'P') => 36..44,
        Some(b'R') => 44..48,
        Some(b'S') => 48..56,
        Some(b'T') => 56..64,
        _ => 0..0,
    }
}

/// The operation of a name.
pub fn op_of(name: &[u8]) -> Option<Op>
    ensures { result ≡ op_named name.now }
{
    match among(&OPERATIONS[likely_places(name)], name) {
        Some(op) => Some(op),
        None => among(&OPERATIONS, name),
    }
}
