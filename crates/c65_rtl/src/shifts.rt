// Shifts of TOS by the primary register.
ghost use Rattle.std.specs.Prelude.{◌≡◌, OnOk};
ghost use Rattle.c65_rtl.specs.Assembly.{with_pieces};
ghost use Rattle.c65_rtl.specs.Shifts.{begin_pieces, end_pieces, up_pieces, down_pieces, shift_pieces};

use crate::operators::drop_tos;
use crate::places::{SP, SREG, TMP1, TMP2, TMP3};
use crate::writing::put;
use c65_code::Line::{Do, Label};
use c65_code::Operand::{Byte, Nothing, To, Zero};
use c65_code::{Draft, Line, TosOp, Width};
use c65_mach::Mode::{Accumulator, Immediate, Implied, IndirectY, Relative, ZeroPage};
use c65_mach::Op::{
    And, Asl, Beq, Bne, Clc, Cmp, Cpx, Dex, Iny, Lda, Ldx, Ldy, Rol, Ror, Sta, Tax,
};
use std::alloc::AllocError;

// The count to X, the low byte to tmp1, the high byte to A.
const SHIFT_WORD: [Line; 7] = [
    Do(And, Immediate, Byte(15)),
    Do(Tax, Implied, Nothing),
    Do(Ldy, Immediate, Byte(0)),
    Do(Lda, IndirectY, Zero(SP)),
    Do(Sta, ZeroPage, Zero(TMP1)),
    Do(Iny, Implied, Nothing),
    Do(Lda, IndirectY, Zero(SP)),
];

// The count to X, the three lower bytes to tmp1 to tmp3, the highest to A.
const SHIFT_LONG: [Line; 13] = [
    Do(And, Immediate, Byte(31)),
    Do(Tax, Implied, Nothing),
    Do(Ldy, Immediate, Byte(0)),
    Do(Lda, IndirectY, Zero(SP)),
    Do(Sta, ZeroPage, Zero(TMP1)),
    Do(Iny, Implied, Nothing),
    Do(Lda, IndirectY, Zero(SP)),
    Do(Sta, ZeroPage, Zero(TMP2)),
    Do(Iny, Implied, Nothing),
    Do(Lda, IndirectY, Zero(SP)),
    Do(Sta, ZeroPage, Zero(TMP3)),
    Do(Iny, Implied, Nothing),
    Do(Lda, IndirectY, Zero(SP)),
];

// So many times, perhaps none.
const SHIFTS: [Line; 3] = [
    Do(Cpx, Immediate, Byte(0)),
    Do(Beq, Relative, To(3)),
    Label(2),
];

// Once more until the count is used up.
const SHIFTED: [Line; 3] = [
    Do(Dex, Implied, Nothing),
    Do(Bne, Relative, To(2)),
    Label(3),
];

// AX from its bytes.
const SHIFTED_WORD: [Line; 2] = [Do(Tax, Implied, Nothing), Do(Lda, ZeroPage, Zero(TMP1))];

// EAX from its bytes.
const SHIFTED_LONG: [Line; 5] = [
    Do(Sta, ZeroPage, Zero(SREG + 1)),
    Do(Lda, ZeroPage, Zero(TMP3)),
    Do(Sta, ZeroPage, Zero(SREG)),
    Do(Ldx, ZeroPage, Zero(TMP2)),
    Do(Lda, ZeroPage, Zero(TMP1)),
];

// One bit up.
const UP_WORD: [Line; 2] = [Do(Asl, ZeroPage, Zero(TMP1)), Do(Rol, Accumulator, Nothing)];

// One bit up.
const UP_LONG: [Line; 4] = [
    Do(Asl, ZeroPage, Zero(TMP1)),
    Do(Rol, ZeroPage, Zero(TMP2)),
    Do(Rol, ZeroPage, Zero(TMP3)),
    Do(Rol, Accumulator, Nothing),
];

// One bit down, with C as the highest.
const DOWN_WORD: [Line; 2] = [Do(Ror, Accumulator, Nothing), Do(Ror, ZeroPage, Zero(TMP1))];

// One bit down, with C as the highest.
const DOWN_LONG: [Line; 4] = [
    Do(Ror, Accumulator, Nothing),
    Do(Ror, ZeroPage, Zero(TMP3)),
    Do(Ror, ZeroPage, Zero(TMP2)),
    Do(Ror, ZeroPage, Zero(TMP1)),
];

fn begin(draft: &mut Draft, width: Width) -> Result<(), AllocError>
    ensures { OnOk result (draft.new ≡ with_pieces draft.old (begin_pieces width)) }
{
    match width {
        Width::Ax => {
            put(draft, &SHIFT_WORD)?;
            put(draft, &SHIFTS)
        }
        Width::Eax => {
            put(draft, &SHIFT_LONG)?;
            put(draft, &SHIFTS)
        }
    }
}

fn end(draft: &mut Draft, width: Width) -> Result<(), AllocError>
    ensures { OnOk result (draft.new ≡ with_pieces draft.old (end_pieces width)) }
{
    match width {
        Width::Ax => {
            put(draft, &SHIFTED)?;
            put(draft, &SHIFTED_WORD)?;
            drop_tos(draft, width)
        }
        Width::Eax => {
            put(draft, &SHIFTED)?;
            put(draft, &SHIFTED_LONG)?;
            drop_tos(draft, width)
        }
    }
}

fn up(draft: &mut Draft, width: Width) -> Result<(), AllocError>
    ensures { OnOk result (draft.new ≡ with_pieces draft.old (up_pieces width)) }
{
    match width {
        Width::Ax => {
            begin(draft, width)?;
            put(draft, &UP_WORD)?;
            end(draft, width)
        }
        Width::Eax => {
            begin(draft, width)?;
            put(draft, &UP_LONG)?;
            end(draft, width)
        }
    }
}

// The line before each step sets what comes in from above.
fn down(draft: &mut Draft, carry: Line, width: Width) -> Result<(), AllocError>
    ensures { OnOk result (draft.new ≡ with_pieces draft.old (down_pieces carry width)) }
{
    match width {
        Width::Ax => {
            begin(draft, width)?;
            put(draft, &[carry])?;
            put(draft, &DOWN_WORD)?;
            end(draft, width)
        }
        Width::Eax => {
            begin(draft, width)?;
            put(draft, &[carry])?;
            put(draft, &DOWN_LONG)?;
            end(draft, width)
        }
    }
}

pub fn shift(draft: &mut Draft, op: TosOp, width: Width) -> Result<(), AllocError>
    ensures { OnOk result (draft.new ≡ with_pieces draft.old (shift_pieces op width)) }
{
    match op {
        TosOp::Shl => up(draft, width),
        TosOp::Shr => down(draft, Do(Clc, Implied, Nothing), width),
        TosOp::Asr => down(draft, Do(Cmp, Immediate, Byte(0x80)), width),
        _ => Ok(()),
    }
}
