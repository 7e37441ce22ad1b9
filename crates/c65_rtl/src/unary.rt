// The operators on the primary register alone, and the widenings.
ghost use Rattle.std.specs.Prelude.{◌≡◌, OnOk};
ghost use Rattle.c65_rtl.specs.Assembly.{with_pieces};
ghost use Rattle.c65_rtl.specs.Unary.{word_pieces, long_pieces, widening_pieces};

use crate::places::{SREG, TMP1};
use crate::writing::put;
use c65_code::Line::{Do, Label};
use c65_code::Operand::{Byte, Nothing, To, Zero};
use c65_code::{Draft, Line, Routine, UnaryRoutine};
use c65_mach::Mode::{Accumulator, Immediate, Implied, Relative, ZeroPage};
use c65_mach::Op::{
    Adc, Asl, Bcc, Clc, Cmp, Cpx, Cpy, Dex, Dey, Eor, Lda, Ldx, Ldy, Lsr, Ora, Rol, Ror, Rts, Sta,
    Stx, Sty, Tax, Tay, Txa, Tya,
};
use std::alloc::AllocError;

// The complement and one more; the low byte is in Y.
const MINUS_WORD: [Line; 8] = [
    Do(Clc, Implied, Nothing),
    Do(Eor, Immediate, Byte(0xFF)),
    Do(Adc, Immediate, Byte(1)),
    Do(Tay, Implied, Nothing),
    Do(Txa, Implied, Nothing),
    Do(Eor, Immediate, Byte(0xFF)),
    Do(Adc, Immediate, Byte(0)),
    Do(Tax, Implied, Nothing),
];

// The same of the high half.
const MINUS_ON: [Line; 8] = [
    Do(Lda, ZeroPage, Zero(SREG)),
    Do(Eor, Immediate, Byte(0xFF)),
    Do(Adc, Immediate, Byte(0)),
    Do(Sta, ZeroPage, Zero(SREG)),
    Do(Lda, ZeroPage, Zero(SREG + 1)),
    Do(Eor, Immediate, Byte(0xFF)),
    Do(Adc, Immediate, Byte(0)),
    Do(Sta, ZeroPage, Zero(SREG + 1)),
];

// The complement; the low byte is in Y.
const COMPLEMENT_WORD: [Line; 5] = [
    Do(Eor, Immediate, Byte(0xFF)),
    Do(Tay, Implied, Nothing),
    Do(Txa, Implied, Nothing),
    Do(Eor, Immediate, Byte(0xFF)),
    Do(Tax, Implied, Nothing),
];

// The same of the high half.
const COMPLEMENT_ON: [Line; 6] = [
    Do(Lda, ZeroPage, Zero(SREG)),
    Do(Eor, Immediate, Byte(0xFF)),
    Do(Sta, ZeroPage, Zero(SREG)),
    Do(Lda, ZeroPage, Zero(SREG + 1)),
    Do(Eor, Immediate, Byte(0xFF)),
    Do(Sta, ZeroPage, Zero(SREG + 1)),
];

// The low byte is in Y.
const FROM_Y: [Line; 2] = [Do(Tya, Implied, Nothing), Do(Rts, Implied, Nothing)];

// One bit up; the high byte is in tmp1.
const DOUBLE_WORD: [Line; 3] = [
    Do(Stx, ZeroPage, Zero(TMP1)),
    Do(Asl, Accumulator, Nothing),
    Do(Rol, ZeroPage, Zero(TMP1)),
];

// The same of the high half.
const DOUBLE_ON: [Line; 2] = [
    Do(Rol, ZeroPage, Zero(SREG)),
    Do(Rol, ZeroPage, Zero(SREG + 1)),
];

// One bit down.
const HALF_WORD: [Line; 3] = [
    Do(Stx, ZeroPage, Zero(TMP1)),
    Do(Lsr, ZeroPage, Zero(TMP1)),
    Do(Ror, Accumulator, Nothing),
];

// One bit down.
const HALF_LONG: [Line; 5] = [
    Do(Stx, ZeroPage, Zero(TMP1)),
    Do(Lsr, ZeroPage, Zero(SREG + 1)),
    Do(Ror, ZeroPage, Zero(SREG)),
    Do(Ror, ZeroPage, Zero(TMP1)),
    Do(Ror, Accumulator, Nothing),
];

// One bit down, the sign stays.
const SIGNED_HALF_WORD: [Line; 4] = [
    Do(Stx, ZeroPage, Zero(TMP1)),
    Do(Cpx, Immediate, Byte(0x80)),
    Do(Ror, ZeroPage, Zero(TMP1)),
    Do(Ror, Accumulator, Nothing),
];

// One bit down, the sign stays.
const SIGNED_HALF_LONG: [Line; 7] = [
    Do(Stx, ZeroPage, Zero(TMP1)),
    Do(Ldy, ZeroPage, Zero(SREG + 1)),
    Do(Cpy, Immediate, Byte(0x80)),
    Do(Ror, ZeroPage, Zero(SREG + 1)),
    Do(Ror, ZeroPage, Zero(SREG)),
    Do(Ror, ZeroPage, Zero(TMP1)),
    Do(Ror, Accumulator, Nothing),
];

// The high byte is in tmp1.
const FROM_TMP1: [Line; 2] = [Do(Ldx, ZeroPage, Zero(TMP1)), Do(Rts, Implied, Nothing)];

// A is 0 where AX is 0.
const ALL_BITS: [Line; 2] = [Do(Stx, ZeroPage, Zero(TMP1)), Do(Ora, ZeroPage, Zero(TMP1))];

// The same of the high half.
const ALL_BITS_ON: [Line; 2] = [
    Do(Ora, ZeroPage, Zero(SREG)),
    Do(Ora, ZeroPage, Zero(SREG + 1)),
];

// AX = 1 where A is 0, else 0.
const IS_ZERO: [Line; 6] = [
    Do(Cmp, Immediate, Byte(1)),
    Do(Lda, Immediate, Byte(0)),
    Do(Rol, Accumulator, Nothing),
    Do(Eor, Immediate, Byte(1)),
    Do(Ldx, Immediate, Byte(0)),
    Do(Rts, Implied, Nothing),
];

// X by the sign of A.
const SIGN_BYTE: [Line; 6] = [
    Do(Ldx, Immediate, Byte(0)),
    Do(Cmp, Immediate, Byte(0x80)),
    Do(Bcc, Relative, To(0)),
    Do(Dex, Implied, Nothing),
    Label(0),
    Do(Rts, Implied, Nothing),
];

// sreg by the sign of X.
const SIGN_WORD: [Line; 8] = [
    Do(Ldy, Immediate, Byte(0)),
    Do(Cpx, Immediate, Byte(0x80)),
    Do(Bcc, Relative, To(0)),
    Do(Dey, Implied, Nothing),
    Label(0),
    Do(Sty, ZeroPage, Zero(SREG)),
    Do(Sty, ZeroPage, Zero(SREG + 1)),
    Do(Rts, Implied, Nothing),
];

// sreg is 0.
const ZERO_WORD: [Line; 4] = [
    Do(Ldy, Immediate, Byte(0)),
    Do(Sty, ZeroPage, Zero(SREG)),
    Do(Sty, ZeroPage, Zero(SREG + 1)),
    Do(Rts, Implied, Nothing),
];

pub fn word(draft: &mut Draft, op: UnaryRoutine) -> Result<(), AllocError>
    ensures { OnOk result (draft.new ≡ with_pieces draft.old (word_pieces op)) }
{
    match op {
        UnaryRoutine::Neg => {
            put(draft, &MINUS_WORD)?;
            put(draft, &FROM_Y)
        }
        UnaryRoutine::Compl => {
            put(draft, &COMPLEMENT_WORD)?;
            put(draft, &FROM_Y)
        }
        UnaryRoutine::Shl1 => {
            put(draft, &DOUBLE_WORD)?;
            put(draft, &FROM_TMP1)
        }
        UnaryRoutine::Shr1 => {
            put(draft, &HALF_WORD)?;
            put(draft, &FROM_TMP1)
        }
        UnaryRoutine::Asr1 => {
            put(draft, &SIGNED_HALF_WORD)?;
            put(draft, &FROM_TMP1)
        }
        UnaryRoutine::BNeg => {
            put(draft, &ALL_BITS)?;
            put(draft, &IS_ZERO)
        }
    }
}

pub fn long(draft: &mut Draft, op: UnaryRoutine) -> Result<(), AllocError>
    ensures { OnOk result (draft.new ≡ with_pieces draft.old (long_pieces op)) }
{
    match op {
        UnaryRoutine::Neg => {
            put(draft, &MINUS_WORD)?;
            put(draft, &MINUS_ON)?;
            put(draft, &FROM_Y)
        }
        UnaryRoutine::Compl => {
            put(draft, &COMPLEMENT_WORD)?;
            put(draft, &COMPLEMENT_ON)?;
            put(draft, &FROM_Y)
        }
        UnaryRoutine::Shl1 => {
            put(draft, &DOUBLE_WORD)?;
            put(draft, &DOUBLE_ON)?;
            put(draft, &FROM_TMP1)
        }
        UnaryRoutine::Shr1 => {
            put(draft, &HALF_LONG)?;
            put(draft, &FROM_TMP1)
        }
        UnaryRoutine::Asr1 => {
            put(draft, &SIGNED_HALF_LONG)?;
            put(draft, &FROM_TMP1)
        }
        UnaryRoutine::BNeg => {
            put(draft, &ALL_BITS)?;
            put(draft, &ALL_BITS_ON)?;
            put(draft, &IS_ZERO)
        }
    }
}

pub fn widening(draft: &mut Draft, which: Routine) -> Result<(), AllocError>
    ensures { OnOk result (draft.new ≡ with_pieces draft.old (widening_pieces which)) }
{
    match which {
        Routine::SignA => put(draft, &SIGN_BYTE),
        Routine::LongAx => put(draft, &SIGN_WORD),
        Routine::ULongAx => put(draft, &ZERO_WORD),
        _ => Ok(()),
    }
}
