// The multiplication and the divisions of 32 bits. The divisions share their core.
ghost use Rattle.std.specs.Prelude.{◌≡◌, ◌∷◌, [], ◌+◌, ◌<◌, OnOk, IfOk, IfErr, IsTrue};
ghost use Rattle.c65_base.specs.declared.refusal.Refusal.TheVariants.{OutOfMemory};
ghost use Rattle.c65_rtl.specs.Assembly.{with_pieces};
ghost use Rattle.c65_rtl.specs.Routines.{given_by};
ghost use Rattle.c65_rtlwide.specs.Wide.{is_wide, negation, signed, remainder_first, divide_pieces, signed_divide_pieces, multiply_pieces, division_pieces, wide_pieces, lines_of};

use crate::places::{PTR1, PTR2, PTR3, PTR4, REGSAVE, SREG, TMP1, TMP2};
use c65_base::Refusal;
use c65_code::Line::{Call, Do, Label};
use c65_code::Operand::{Byte, Nothing, To, Zero};
use c65_code::{Callee, Draft, Line, Routine, Seg, TosOp, UnaryRoutine, Width};
use c65_mach::Mode::{Immediate, Implied, Relative, ZeroPage};
use c65_mach::Op::{
    Adc, Asl, Bcc, Bne, Bpl, Clc, Cmp, Dex, Eor, Inc, Lda, Ldx, Ldy, Lsr, Ora, Rol, Ror, Sbc, Sec,
    Sta, Stx,
};
use c65_rtl::{BACK, given, put};
use std::alloc::{AllocError, Global};

// EAX to ptr3 and ptr4, and TOS to ptr1 and ptr2; A is its highest byte.
const TERMS: [Line; 13] = [
    Do(Sta, ZeroPage, Zero(PTR3)),
    Do(Stx, ZeroPage, Zero(PTR3 + 1)),
    Do(Lda, ZeroPage, Zero(SREG)),
    Do(Sta, ZeroPage, Zero(PTR4)),
    Do(Lda, ZeroPage, Zero(SREG + 1)),
    Do(Sta, ZeroPage, Zero(PTR4 + 1)),
    Call(Callee::Routine(Routine::PopEax)),
    Do(Sta, ZeroPage, Zero(PTR1)),
    Do(Stx, ZeroPage, Zero(PTR1 + 1)),
    Do(Lda, ZeroPage, Zero(SREG)),
    Do(Sta, ZeroPage, Zero(PTR2)),
    Do(Lda, ZeroPage, Zero(SREG + 1)),
    Do(Sta, ZeroPage, Zero(PTR2 + 1)),
];

// regsave is 0.
const NOTHING_YET: [Line; 5] = [
    Do(Lda, Immediate, Byte(0)),
    Do(Sta, ZeroPage, Zero(REGSAVE)),
    Do(Sta, ZeroPage, Zero(REGSAVE + 1)),
    Do(Sta, ZeroPage, Zero(REGSAVE + 2)),
    Do(Sta, ZeroPage, Zero(REGSAVE + 3)),
];

// regsave is the product, by the bits of ptr3 and ptr4 from the lowest on.
const MULTIPLY: [Line; 29] = [
    Label(0),
    Do(Lsr, ZeroPage, Zero(PTR4 + 1)),
    Do(Ror, ZeroPage, Zero(PTR4)),
    Do(Ror, ZeroPage, Zero(PTR3 + 1)),
    Do(Ror, ZeroPage, Zero(PTR3)),
    Do(Bcc, Relative, To(1)),
    Do(Clc, Implied, Nothing),
    Do(Lda, ZeroPage, Zero(REGSAVE)),
    Do(Adc, ZeroPage, Zero(PTR1)),
    Do(Sta, ZeroPage, Zero(REGSAVE)),
    Do(Lda, ZeroPage, Zero(REGSAVE + 1)),
    Do(Adc, ZeroPage, Zero(PTR1 + 1)),
    Do(Sta, ZeroPage, Zero(REGSAVE + 1)),
    Do(Lda, ZeroPage, Zero(REGSAVE + 2)),
    Do(Adc, ZeroPage, Zero(PTR2)),
    Do(Sta, ZeroPage, Zero(REGSAVE + 2)),
    Do(Lda, ZeroPage, Zero(REGSAVE + 3)),
    Do(Adc, ZeroPage, Zero(PTR2 + 1)),
    Do(Sta, ZeroPage, Zero(REGSAVE + 3)),
    Label(1),
    Do(Asl, ZeroPage, Zero(PTR1)),
    Do(Rol, ZeroPage, Zero(PTR1 + 1)),
    Do(Rol, ZeroPage, Zero(PTR2)),
    Do(Rol, ZeroPage, Zero(PTR2 + 1)),
    Do(Lda, ZeroPage, Zero(PTR3)),
    Do(Ora, ZeroPage, Zero(PTR3 + 1)),
    Do(Ora, ZeroPage, Zero(PTR4)),
    Do(Ora, ZeroPage, Zero(PTR4 + 1)),
    Do(Bne, Relative, To(0)),
];

// A is the dividend's highest byte: the remainder's sign to tmp1, the quotient's to tmp2, and N is the dividend's.
const SIGNS: [Line; 4] = [
    Do(Sta, ZeroPage, Zero(TMP1)),
    Do(Eor, ZeroPage, Zero(PTR4 + 1)),
    Do(Sta, ZeroPage, Zero(TMP2)),
    Do(Lda, ZeroPage, Zero(PTR2 + 1)),
];

// N is the divisor's sign.
const DIVISOR_SIGN: [Line; 1] = [Do(Lda, ZeroPage, Zero(PTR4 + 1))];

// ptr1 and ptr2 divided by ptr3 and ptr4, bit by bit: the quotient takes the dividend's place, and the remainder is regsave.
const DIVIDE: [Line; 33] = [
    Do(Ldx, Immediate, Byte(32)),
    Label(2),
    Do(Asl, ZeroPage, Zero(PTR1)),
    Do(Rol, ZeroPage, Zero(PTR1 + 1)),
    Do(Rol, ZeroPage, Zero(PTR2)),
    Do(Rol, ZeroPage, Zero(PTR2 + 1)),
    Do(Rol, ZeroPage, Zero(REGSAVE)),
    Do(Rol, ZeroPage, Zero(REGSAVE + 1)),
    Do(Rol, ZeroPage, Zero(REGSAVE + 2)),
    Do(Rol, ZeroPage, Zero(REGSAVE + 3)),
    Do(Lda, ZeroPage, Zero(REGSAVE)),
    Do(Cmp, ZeroPage, Zero(PTR3)),
    Do(Lda, ZeroPage, Zero(REGSAVE + 1)),
    Do(Sbc, ZeroPage, Zero(PTR3 + 1)),
    Do(Lda, ZeroPage, Zero(REGSAVE + 2)),
    Do(Sbc, ZeroPage, Zero(PTR4)),
    Do(Lda, ZeroPage, Zero(REGSAVE + 3)),
    Do(Sbc, ZeroPage, Zero(PTR4 + 1)),
    Do(Bcc, Relative, To(3)),
    Do(Sta, ZeroPage, Zero(REGSAVE + 3)),
    Do(Lda, ZeroPage, Zero(REGSAVE)),
    Do(Sbc, ZeroPage, Zero(PTR3)),
    Do(Sta, ZeroPage, Zero(REGSAVE)),
    Do(Lda, ZeroPage, Zero(REGSAVE + 1)),
    Do(Sbc, ZeroPage, Zero(PTR3 + 1)),
    Do(Sta, ZeroPage, Zero(REGSAVE + 1)),
    Do(Lda, ZeroPage, Zero(REGSAVE + 2)),
    Do(Sbc, ZeroPage, Zero(PTR4)),
    Do(Sta, ZeroPage, Zero(REGSAVE + 2)),
    Do(Inc, ZeroPage, Zero(PTR1)),
    Label(3),
    Do(Dex, Implied, Nothing),
    Do(Bne, Relative, To(2)),
];

// EAX from ptr1 and ptr2.
const QUOTIENT: [Line; 6] = [
    Do(Lda, ZeroPage, Zero(PTR2)),
    Do(Sta, ZeroPage, Zero(SREG)),
    Do(Lda, ZeroPage, Zero(PTR2 + 1)),
    Do(Sta, ZeroPage, Zero(SREG + 1)),
    Do(Lda, ZeroPage, Zero(PTR1)),
    Do(Ldx, ZeroPage, Zero(PTR1 + 1)),
];

// EAX from regsave.
const REMAINDER: [Line; 6] = [
    Do(Lda, ZeroPage, Zero(REGSAVE + 2)),
    Do(Sta, ZeroPage, Zero(SREG)),
    Do(Lda, ZeroPage, Zero(REGSAVE + 3)),
    Do(Sta, ZeroPage, Zero(SREG + 1)),
    Do(Lda, ZeroPage, Zero(REGSAVE)),
    Do(Ldx, ZeroPage, Zero(REGSAVE + 1)),
];

// Four bytes become their negative where N is set.
fn negate(draft: &mut Draft, at: u8, label: u32) -> Result<(), AllocError>
    requires { at < 253 }
    ensures { OnOk result (draft.new ≡ with_pieces draft.old (negation at label ∷ [])) }
{
    put(
        draft,
        &[
            Do(Bpl, Relative, To(label)),
            Do(Sec, Implied, Nothing),
            Do(Lda, Immediate, Byte(0)),
            Do(Sbc, ZeroPage, Zero(at)),
            Do(Sta, ZeroPage, Zero(at)),
            Do(Lda, Immediate, Byte(0)),
            Do(Sbc, ZeroPage, Zero(at + 1)),
            Do(Sta, ZeroPage, Zero(at + 1)),
            Do(Lda, Immediate, Byte(0)),
            Do(Sbc, ZeroPage, Zero(at + 2)),
            Do(Sta, ZeroPage, Zero(at + 2)),
            Do(Lda, Immediate, Byte(0)),
            Do(Sbc, ZeroPage, Zero(at + 3)),
            Do(Sta, ZeroPage, Zero(at + 3)),
            Label(label),
        ],
    )
}

// EAX becomes its negative where the byte of the sign says so.
fn sign_by(draft: &mut Draft, sign: u8) -> Result<(), AllocError>
    ensures { OnOk result (draft.new ≡ with_pieces draft.old (signed sign ∷ [])) }
{
    put(
        draft,
        &[
            Do(Ldy, ZeroPage, Zero(sign)),
            Do(Bpl, Relative, To(4)),
            Call(Callee::Routine(Routine::Unary(UnaryRoutine::Neg, Width::Eax))),
            Label(4),
        ],
    )
}

fn multiply(draft: &mut Draft) -> Result<(), AllocError>
    ensures { OnOk result (draft.new ≡ with_pieces draft.old multiply_pieces) }
{
    put(draft, &TERMS)?;
    put(draft, &NOTHING_YET)?;
    put(draft, &MULTIPLY)?;
    put(draft, &REMAINDER)?;
    put(draft, &BACK)
}

// The quotient to ptr1 and ptr2, the remainder to regsave.
fn divide(draft: &mut Draft) -> Result<(), AllocError>
    ensures { OnOk result (draft.new ≡ with_pieces draft.old divide_pieces) }
{
    put(draft, &TERMS)?;
    put(draft, &NOTHING_YET)?;
    put(draft, &DIVIDE)
}

// The same of the two without their signs, which wait in tmp1 and tmp2.
fn divide_signed(draft: &mut Draft) -> Result<(), AllocError>
    ensures { OnOk result (draft.new ≡ with_pieces draft.old signed_divide_pieces) }
{
    put(draft, &TERMS)?;
    put(draft, &SIGNS)?;
    negate(draft, PTR1, 0)?;
    put(draft, &DIVISOR_SIGN)?;
    negate(draft, PTR3, 1)?;
    put(draft, &NOTHING_YET)?;
    put(draft, &DIVIDE)
}

// The routine of the remainder, which leaves the quotient in ptr1 and ptr2 and its sign in tmp2.
fn take_remainder(draft: &mut Draft, op: TosOp) -> Result<(), AllocError>
    ensures { OnOk result (draft.new ≡ with_pieces draft.old (remainder_first op ∷ [])) }
{
    put(
        draft,
        &[Call(Callee::Routine(Routine::Tos(op, Width::Eax)))],
    )
}

fn division(draft: &mut Draft, op: TosOp) -> Result<(), AllocError>
    ensures { OnOk result (draft.new ≡ with_pieces draft.old (division_pieces op)) }
{
    match op {
        TosOp::UDiv => {
            take_remainder(draft, TosOp::UMod)?;
            put(draft, &QUOTIENT)?;
            put(draft, &BACK)
        }
        TosOp::UMod => {
            divide(draft)?;
            put(draft, &REMAINDER)?;
            put(draft, &BACK)
        }
        TosOp::Div => {
            take_remainder(draft, TosOp::Mod)?;
            put(draft, &QUOTIENT)?;
            sign_by(draft, TMP2)?;
            put(draft, &BACK)
        }
        TosOp::Mod => {
            divide_signed(draft)?;
            put(draft, &REMAINDER)?;
            sign_by(draft, TMP1)?;
            put(draft, &BACK)
        }
        _ => Ok(()),
    }
}

/// Whether the routine's lines stand here.
pub fn is_wide(which: Routine) -> bool
    ensures { result ≡ is_wide which }
{
    match which {
        Routine::Tos(TosOp::Mul | TosOp::Div | TosOp::Mod, Width::Eax) => true,
        Routine::Tos(TosOp::UDiv | TosOp::UMod, Width::Eax) => true,
        _ => false,
    }
}

fn write(draft: &mut Draft, which: Routine) -> Result<(), AllocError>
    ensures { OnOk result (draft.new ≡ with_pieces draft.old (wide_pieces which)) }
{
    match which {
        Routine::Tos(TosOp::Mul, Width::Eax) => multiply(draft),
        Routine::Tos(op, Width::Eax) => division(draft, op),
        _ => Ok(()),
    }
}

/// The lines of the multiplication, a division or a remainder of 32 bits, and what the routine gives.
///
/// It refuses for want of memory alone.
pub fn wide_routine(alloc: Global, which: Routine) -> Result<Seg, Refusal>
    requires { IsTrue (is_wide which) }
    ensures lines { IfOk result (λ seg. seg.lines ≡ lines_of which) }
    ensures out { IfOk result (λ seg. seg.out ≡ given_by which) }
    ensures refused { IfErr result (λ refusal. refusal ≡ OutOfMemory) }
{
    let mut draft = Draft::new(alloc, given(which));
    write(&mut draft, which)?;
    Ok(draft.close())
}
