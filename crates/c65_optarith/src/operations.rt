// What operations leave, compare and set.
ghost use Rattle.std.specs.Prelude.{◌≡◌};
ghost use Rattle.c65_pass.specs.ArithRules.{carry_of, is_shift_of_a, signed_by, compared_by, neutral_byte, are_opposite, neutral_carry, may_join, is_arithmetic};

use c65_mach::{Mode, Op};
use c65_pass::Register;

/// The carry that CLC and SEC leave.
pub fn carry_of(op: Op) -> Option<bool>
    ensures { result ≡ carry_of op }
{
    match op {
        Op::Clc => Some(false),
        Op::Sec => Some(true),
        _ => None,
    }
}

fn is_shift_of_a(op: Op, mode: Mode) -> bool
    ensures { result ≡ is_shift_of_a op mode }
{
    matches!(
        (op, mode),
        (Op::Asl | Op::Lsr | Op::Rol | Op::Ror, Mode::Accumulator)
    )
}

/// The register that an operation sets, with N and Z by its value.
pub fn signed_by(op: Op, mode: Mode) -> Option<Register>
    ensures { result ≡ signed_by op mode }
{
    match op {
        Op::Lda | Op::Txa | Op::Tya | Op::And | Op::Ora | Op::Eor | Op::Pla => Some(Register::A),
        Op::Ldx | Op::Tax | Op::Inx | Op::Dex => Some(Register::X),
        Op::Ldy | Op::Tay | Op::Iny | Op::Dey => Some(Register::Y),
        _ if is_shift_of_a(op, mode) => Some(Register::A),
        _ => None,
    }
}

/// The register that an operation compares.
pub fn compared_by(op: Op) -> Option<Register>
    ensures { result ≡ compared_by op }
{
    match op {
        Op::Cmp => Some(Register::A),
        Op::Cpx => Some(Register::X),
        Op::Cpy => Some(Register::Y),
        _ => None,
    }
}

/// The byte with which an operation leaves A.
pub fn neutral_byte(op: Op) -> Option<u8>
    ensures { result ≡ neutral_byte op }
{
    match op {
        Op::And => Some(255),
        Op::Ora | Op::Eor => Some(0),
        _ => None,
    }
}

/// A step of X or Y, and the step back.
pub fn are_opposite(op: Op, next: Op) -> bool
    ensures { result ≡ are_opposite op next }
{
    matches!(
        (op, next),
        (Op::Inx, Op::Dex) | (Op::Dex, Op::Inx) | (Op::Iny, Op::Dey) | (Op::Dey, Op::Iny)
    )
}

/// The carry with which adding or taking off 0 leaves A, and the carry too.
pub fn neutral_carry(op: Op) -> Option<bool>
    ensures { result ≡ neutral_carry op }
{
    match op {
        Op::Adc => Some(false),
        Op::Sbc => Some(true),
        _ => None,
    }
}

/// Whether an operation on A and a second one, each with a byte, are the first one with some byte.
pub fn may_join(op: Op, next: Op) -> bool
    ensures { result ≡ may_join op next }
{
    matches!(
        (op, next),
        (Op::Lda, _) | (Op::And, Op::And) | (Op::Ora, Op::Ora) | (Op::Eor, Op::Eor)
    )
}

/// AND, ORA, EOR, ADC, SBC, the shifts of A, and the steps of X and Y.
pub fn is_arithmetic(op: Op, mode: Mode) -> bool
    ensures { result ≡ is_arithmetic op mode }
{
    match op {
        Op::And | Op::Ora | Op::Eor | Op::Adc | Op::Sbc => true,
        Op::Inx | Op::Iny | Op::Dex | Op::Dey => true,
        _ => is_shift_of_a(op, mode),
    }
}
