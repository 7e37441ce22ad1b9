// The operators on TOS and the primary register that are no orders and no shifts.
ghost use Rattle.std.specs.Prelude.{◌≡◌, ◌∷◌, [], ◌+◌, ◌<◌, OnOk};
ghost use Rattle.c65_rtl.specs.Assembly.{with_pieces};
ghost use Rattle.c65_rtl.specs.Operators.{combined, combined_on, negation, drop_pieces, combine_pieces, subtract_pieces, multiply_pieces, divide_pieces, signed_divide_pieces, remainder_first, terms_pieces, signed, arithmetic_pieces, division_pieces};

use crate::memory::point_ptr1;
use crate::places::{PTR1, PTR2, PTR3, SP, SREG, TMP1, TMP2};
use crate::stack::{BACK, raise};
use crate::writing::put;
use c65_code::Line::{Call, Do, Label};
use c65_code::Operand::{Byte, Nothing, To, Zero};
use c65_code::{Callee, Count, Draft, Line, Routine, TosOp, Width};
use c65_mach::Mode::{Accumulator, Immediate, Implied, IndirectY, Relative, ZeroPage};
use c65_mach::Op;
use c65_mach::Op::{
    Adc, Asl, Bcc, Beq, Bne, Bpl, Clc, Cmp, Dex, Eor, Inc, Iny, Lda, Ldx, Ldy, Lsr, Ora, Rol, Ror,
    Sbc, Sec, Sta, Stx, Tax, Tay, Txa, Tya,
};
use std::alloc::AllocError;

// A from tmp1.
const LOW_BYTE: [Line; 1] = [Do(Lda, ZeroPage, Zero(TMP1))];

// C is 0.
const NO_CARRY: [Line; 1] = [Do(Clc, Implied, Nothing)];

// The word that is subtracted to tmp1.
const BORROW: [Line; 11] = [
    Do(Sta, ZeroPage, Zero(TMP1)),
    Do(Stx, ZeroPage, Zero(TMP2)),
    Do(Sec, Implied, Nothing),
    Do(Ldy, Immediate, Byte(0)),
    Do(Lda, IndirectY, Zero(SP)),
    Do(Sbc, ZeroPage, Zero(TMP1)),
    Do(Sta, ZeroPage, Zero(TMP1)),
    Do(Iny, Implied, Nothing),
    Do(Lda, IndirectY, Zero(SP)),
    Do(Sbc, ZeroPage, Zero(TMP2)),
    Do(Tax, Implied, Nothing),
];

// The high half of a difference.
const BORROW_ON: [Line; 8] = [
    Do(Iny, Implied, Nothing),
    Do(Lda, IndirectY, Zero(SP)),
    Do(Sbc, ZeroPage, Zero(SREG)),
    Do(Sta, ZeroPage, Zero(SREG)),
    Do(Iny, Implied, Nothing),
    Do(Lda, IndirectY, Zero(SP)),
    Do(Sbc, ZeroPage, Zero(SREG + 1)),
    Do(Sta, ZeroPage, Zero(SREG + 1)),
];

// AX to ptr2.
const POINT_SECOND: [Line; 2] = [
    Do(Sta, ZeroPage, Zero(PTR2)),
    Do(Stx, ZeroPage, Zero(PTR2 + 1)),
];

// AX popped.
const POP_WORD: [Line; 1] = [Call(Callee::Routine(Routine::PopAx))];

// AX = ptr2 times ptr1, by the bits of ptr1 from the lowest on; the sum so far is in Y and X.
const MULTIPLY: [Line; 22] = [
    Do(Ldy, Immediate, Byte(0)),
    Do(Ldx, Immediate, Byte(0)),
    Do(Beq, Relative, To(2)),
    Label(0),
    Do(Lsr, ZeroPage, Zero(PTR1 + 1)),
    Do(Ror, ZeroPage, Zero(PTR1)),
    Do(Bcc, Relative, To(1)),
    Do(Clc, Implied, Nothing),
    Do(Tya, Implied, Nothing),
    Do(Adc, ZeroPage, Zero(PTR2)),
    Do(Tay, Implied, Nothing),
    Do(Txa, Implied, Nothing),
    Do(Adc, ZeroPage, Zero(PTR2 + 1)),
    Do(Tax, Implied, Nothing),
    Label(1),
    Do(Asl, ZeroPage, Zero(PTR2)),
    Do(Rol, ZeroPage, Zero(PTR2 + 1)),
    Label(2),
    Do(Lda, ZeroPage, Zero(PTR1)),
    Do(Ora, ZeroPage, Zero(PTR1 + 1)),
    Do(Bne, Relative, To(0)),
    Do(Tya, Implied, Nothing),
];

// The dividend is in AX: the remainder's sign to tmp1, the quotient's to tmp2, and N is the dividend's.
const SIGNS: [Line; 5] = [
    Do(Stx, ZeroPage, Zero(TMP1)),
    Do(Txa, Implied, Nothing),
    Do(Eor, ZeroPage, Zero(PTR2 + 1)),
    Do(Sta, ZeroPage, Zero(TMP2)),
    Do(Txa, Implied, Nothing),
];

// N is the divisor's sign.
const DIVISOR_SIGN: [Line; 1] = [Do(Lda, ZeroPage, Zero(PTR2 + 1))];

// ptr1 divided by ptr2, bit by bit: the quotient takes the dividend's place, and the remainder is in A and the high byte of
// ptr3.
const DIVIDE: [Line; 22] = [
    Do(Lda, Immediate, Byte(0)),
    Do(Sta, ZeroPage, Zero(PTR3 + 1)),
    Do(Ldx, Immediate, Byte(16)),
    Label(2),
    Do(Asl, ZeroPage, Zero(PTR1)),
    Do(Rol, ZeroPage, Zero(PTR1 + 1)),
    Do(Rol, Accumulator, Nothing),
    Do(Rol, ZeroPage, Zero(PTR3 + 1)),
    Do(Tay, Implied, Nothing),
    Do(Cmp, ZeroPage, Zero(PTR2)),
    Do(Lda, ZeroPage, Zero(PTR3 + 1)),
    Do(Sbc, ZeroPage, Zero(PTR2 + 1)),
    Do(Bcc, Relative, To(3)),
    Do(Sta, ZeroPage, Zero(PTR3 + 1)),
    Do(Tya, Implied, Nothing),
    Do(Sbc, ZeroPage, Zero(PTR2)),
    Do(Tay, Implied, Nothing),
    Do(Inc, ZeroPage, Zero(PTR1)),
    Label(3),
    Do(Tya, Implied, Nothing),
    Do(Dex, Implied, Nothing),
    Do(Bne, Relative, To(2)),
];

// AX is the quotient.
const QUOTIENT: [Line; 2] = [
    Do(Lda, ZeroPage, Zero(PTR1)),
    Do(Ldx, ZeroPage, Zero(PTR1 + 1)),
];

// AX is the remainder.
const REMAINDER: [Line; 1] = [Do(Ldx, ZeroPage, Zero(PTR3 + 1))];

/// The end of an operator: TOS is dropped.
pub fn drop_tos(draft: &mut Draft, width: Width) -> Result<(), AllocError>
    ensures { OnOk result (draft.new ≡ with_pieces draft.old (drop_pieces width)) }
{
    match width {
        Width::Ax => raise(draft, Count::Two),
        Width::Eax => raise(draft, Count::Four),
    }
}

// ADC, AND, EOR or ORA of the two low bytes.
fn combine_words(draft: &mut Draft, op: Op) -> Result<(), AllocError>
    ensures { OnOk result (draft.new ≡ with_pieces draft.old (combined op ∷ [])) }
{
    put(
        draft,
        &[
            Do(Ldy, Immediate, Byte(0)),
            Do(op, IndirectY, Zero(SP)),
            Do(Sta, ZeroPage, Zero(TMP1)),
            Do(Iny, Implied, Nothing),
            Do(Txa, Implied, Nothing),
            Do(op, IndirectY, Zero(SP)),
            Do(Tax, Implied, Nothing),
        ],
    )
}

// The same of the high halves.
fn combine_on(draft: &mut Draft, op: Op) -> Result<(), AllocError>
    ensures { OnOk result (draft.new ≡ with_pieces draft.old (combined_on op ∷ [])) }
{
    put(
        draft,
        &[
            Do(Iny, Implied, Nothing),
            Do(Lda, ZeroPage, Zero(SREG)),
            Do(op, IndirectY, Zero(SP)),
            Do(Sta, ZeroPage, Zero(SREG)),
            Do(Iny, Implied, Nothing),
            Do(Lda, ZeroPage, Zero(SREG + 1)),
            Do(op, IndirectY, Zero(SP)),
            Do(Sta, ZeroPage, Zero(SREG + 1)),
        ],
    )
}

fn combine(draft: &mut Draft, op: Op, width: Width) -> Result<(), AllocError>
    ensures { OnOk result (draft.new ≡ with_pieces draft.old (combine_pieces op width)) }
{
    match width {
        Width::Ax => {
            combine_words(draft, op)?;
            put(draft, &LOW_BYTE)?;
            raise(draft, Count::Two)
        }
        Width::Eax => {
            combine_words(draft, op)?;
            combine_on(draft, op)?;
            put(draft, &LOW_BYTE)?;
            raise(draft, Count::Four)
        }
    }
}

fn subtract(draft: &mut Draft, width: Width) -> Result<(), AllocError>
    ensures { OnOk result (draft.new ≡ with_pieces draft.old (subtract_pieces width)) }
{
    match width {
        Width::Ax => {
            put(draft, &BORROW)?;
            put(draft, &LOW_BYTE)?;
            raise(draft, Count::Two)
        }
        Width::Eax => {
            put(draft, &BORROW)?;
            put(draft, &BORROW_ON)?;
            put(draft, &LOW_BYTE)?;
            raise(draft, Count::Four)
        }
    }
}

fn multiply(draft: &mut Draft) -> Result<(), AllocError>
    ensures { OnOk result (draft.new ≡ with_pieces draft.old multiply_pieces) }
{
    point_ptr1(draft)?;
    put(draft, &POP_WORD)?;
    put(draft, &POINT_SECOND)?;
    put(draft, &MULTIPLY)?;
    put(draft, &BACK)
}

pub fn arithmetic(draft: &mut Draft, op: TosOp, width: Width) -> Result<(), AllocError>
    ensures { OnOk result (draft.new ≡ with_pieces draft.old (arithmetic_pieces op width)) }
{
    match op {
        TosOp::Add => {
            put(draft, &NO_CARRY)?;
            combine(draft, Op::Adc, width)
        }
        TosOp::And => combine(draft, Op::And, width),
        TosOp::Or => combine(draft, Op::Ora, width),
        TosOp::Xor => combine(draft, Op::Eor, width),
        TosOp::Sub => subtract(draft, width),
        TosOp::Mul => multiply(draft),
        _ => Ok(()),
    }
}

// The word at an address becomes its negative where N is set.
fn negate(draft: &mut Draft, at: u8, label: u32) -> Result<(), AllocError>
    requires { at < 255 }
    ensures { OnOk result (draft.new ≡ with_pieces draft.old (negation at label ∷ [])) }
{
    put(
        draft,
        &[
            Do(Bpl, Relative, To(label)),
            Do(Sec, Implied, Nothing),
            Do(Lda, Immediate, Byte(0)),
            Do(Sbc, ZeroPage, Zero(at)),
            Do(Sta, ZeroPage, Zero(at)),
            Do(Lda, Immediate, Byte(0)),
            Do(Sbc, ZeroPage, Zero(at + 1)),
            Do(Sta, ZeroPage, Zero(at + 1)),
            Label(label),
        ],
    )
}

// AX becomes its negative where the byte of the sign says so.
fn sign_by(draft: &mut Draft, sign: u8) -> Result<(), AllocError>
    ensures { OnOk result (draft.new ≡ with_pieces draft.old (signed sign ∷ [])) }
{
    put(
        draft,
        &[
            Do(Ldy, ZeroPage, Zero(sign)),
            Do(Bpl, Relative, To(4)),
            Do(Eor, Immediate, Byte(0xFF)),
            Do(Clc, Implied, Nothing),
            Do(Adc, Immediate, Byte(1)),
            Do(Tay, Implied, Nothing),
            Do(Txa, Implied, Nothing),
            Do(Eor, Immediate, Byte(0xFF)),
            Do(Adc, Immediate, Byte(0)),
            Do(Tax, Implied, Nothing),
            Do(Tya, Implied, Nothing),
            Label(4),
        ],
    )
}

// AX to ptr2 and TOS to ptr1, which stays in AX.
fn take_terms(draft: &mut Draft) -> Result<(), AllocError>
    ensures { OnOk result (draft.new ≡ with_pieces draft.old terms_pieces) }
{
    put(draft, &POINT_SECOND)?;
    put(draft, &POP_WORD)?;
    point_ptr1(draft)
}

// The quotient to ptr1, the remainder to A and ptr3.
fn divide(draft: &mut Draft) -> Result<(), AllocError>
    ensures { OnOk result (draft.new ≡ with_pieces draft.old divide_pieces) }
{
    take_terms(draft)?;
    put(draft, &DIVIDE)
}

// The same of the two without their signs, which wait in tmp1 and tmp2.
fn divide_signed(draft: &mut Draft) -> Result<(), AllocError>
    ensures { OnOk result (draft.new ≡ with_pieces draft.old signed_divide_pieces) }
{
    take_terms(draft)?;
    put(draft, &SIGNS)?;
    negate(draft, PTR1, 0)?;
    put(draft, &DIVISOR_SIGN)?;
    negate(draft, PTR2, 1)?;
    put(draft, &DIVIDE)
}

// The routine of the remainder, which leaves the quotient in ptr1 and its sign in tmp2.
fn take_remainder(draft: &mut Draft, op: TosOp) -> Result<(), AllocError>
    ensures { OnOk result (draft.new ≡ with_pieces draft.old (remainder_first op ∷ [])) }
{
    put(draft, &[Call(Callee::Routine(Routine::Tos(op, Width::Ax)))])
}

pub fn division(draft: &mut Draft, op: TosOp) -> Result<(), AllocError>
    ensures { OnOk result (draft.new ≡ with_pieces draft.old (division_pieces op)) }
{
    match op {
        TosOp::UDiv => {
            take_remainder(draft, TosOp::UMod)?;
            put(draft, &QUOTIENT)?;
            put(draft, &BACK)
        }
        TosOp::UMod => {
            divide(draft)?;
            put(draft, &REMAINDER)?;
            put(draft, &BACK)
        }
        TosOp::Div => {
            take_remainder(draft, TosOp::Mod)?;
            put(draft, &QUOTIENT)?;
            sign_by(draft, TMP2)?;
            put(draft, &BACK)
        }
        TosOp::Mod => {
            divide_signed(draft)?;
            put(draft, &REMAINDER)?;
            sign_by(draft, TMP1)?;
            put(draft, &BACK)
        }
        _ => Ok(()),
    }
}
