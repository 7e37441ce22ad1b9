// Equality and the orders of TOS and the primary register.
ghost use Rattle.std.specs.Prelude.{◌≡◌, OnOk};
ghost use Rattle.c65_rtl.specs.Assembly.{with_pieces};
ghost use Rattle.c65_rtl.specs.Orders.{decide_pieces, equality_pieces, compared_pieces, signed_pieces, unsigned_pieces, order_pieces};

use crate::operators::drop_tos;
use crate::places::{SP, SREG, TMP1};
use crate::writing::put;
use c65_code::Line::{Do, Label};
use c65_code::Operand::{Byte, Nothing, To, Zero};
use c65_code::{Draft, Line, TosOp, Width};
use c65_mach::Mode::{Immediate, Implied, IndirectY, Relative, ZeroPage};
use c65_mach::Op;
use c65_mach::Op::{Bne, Bvc, Eor, Iny, Lda, Ldx, Ldy, Ora, Sbc, Sta, Txa};
use std::alloc::AllocError;

// Z is set where the words are equal.
const UNLIKE: [Line; 7] = [
    Do(Ldy, Immediate, Byte(0)),
    Do(Eor, IndirectY, Zero(SP)),
    Do(Sta, ZeroPage, Zero(TMP1)),
    Do(Iny, Implied, Nothing),
    Do(Txa, Implied, Nothing),
    Do(Eor, IndirectY, Zero(SP)),
    Do(Ora, ZeroPage, Zero(TMP1)),
];

// The same of the high halves.
const UNLIKE_ON: [Line; 10] = [
    Do(Sta, ZeroPage, Zero(TMP1)),
    Do(Iny, Implied, Nothing),
    Do(Lda, ZeroPage, Zero(SREG)),
    Do(Eor, IndirectY, Zero(SP)),
    Do(Ora, ZeroPage, Zero(TMP1)),
    Do(Sta, ZeroPage, Zero(TMP1)),
    Do(Iny, Implied, Nothing),
    Do(Lda, ZeroPage, Zero(SREG + 1)),
    Do(Eor, IndirectY, Zero(SP)),
    Do(Ora, ZeroPage, Zero(TMP1)),
];

// AX less the word at sp: C and V tell the order.
const COMPARE: [Line; 5] = [
    Do(Ldy, Immediate, Byte(0)),
    Do(Sbc, IndirectY, Zero(SP)),
    Do(Iny, Implied, Nothing),
    Do(Txa, Implied, Nothing),
    Do(Sbc, IndirectY, Zero(SP)),
];

// The same of the high halves.
const COMPARE_ON: [Line; 6] = [
    Do(Iny, Implied, Nothing),
    Do(Lda, ZeroPage, Zero(SREG)),
    Do(Sbc, IndirectY, Zero(SP)),
    Do(Iny, Implied, Nothing),
    Do(Lda, ZeroPage, Zero(SREG + 1)),
    Do(Sbc, IndirectY, Zero(SP)),
];

// N is the difference's true sign.
const SIGN: [Line; 3] = [
    Do(Bvc, Relative, To(2)),
    Do(Eor, Immediate, Byte(0x80)),
    Label(2),
];

// AX = 1, or 0 from label 3 on.
const TRUTH: [Line; 6] = [
    Do(Lda, Immediate, Byte(1)),
    Do(Bne, Relative, To(4)),
    Label(3),
    Do(Lda, Immediate, Byte(0)),
    Label(4),
    Do(Ldx, Immediate, Byte(0)),
];

// AX = 0 where the branch is taken, else 1.
fn decide(draft: &mut Draft, branch: Op, width: Width) -> Result<(), AllocError>
    ensures { OnOk result (draft.new ≡ with_pieces draft.old (decide_pieces branch width)) }
{
    put(draft, &[Do(branch, Relative, To(3))])?;
    put(draft, &TRUTH)?;
    drop_tos(draft, width)
}

fn equality(draft: &mut Draft, branch: Op, width: Width) -> Result<(), AllocError>
    ensures { OnOk result (draft.new ≡ with_pieces draft.old (equality_pieces branch width)) }
{
    match width {
        Width::Ax => {
            put(draft, &UNLIKE)?;
            decide(draft, branch, width)
        }
        Width::Eax => {
            put(draft, &UNLIKE)?;
            put(draft, &UNLIKE_ON)?;
            decide(draft, branch, width)
        }
    }
}

// The primary register less TOS, and one less after CLC.
fn compare(draft: &mut Draft, first: Op, width: Width) -> Result<(), AllocError>
    ensures { OnOk result (draft.new ≡ with_pieces draft.old (compared_pieces first width)) }
{
    put(draft, &[Do(first, Implied, Nothing)])?;
    match width {
        Width::Ax => put(draft, &COMPARE),
        Width::Eax => {
            put(draft, &COMPARE)?;
            put(draft, &COMPARE_ON)
        }
    }
}

fn signed(draft: &mut Draft, first: Op, branch: Op, width: Width) -> Result<(), AllocError>
    ensures { OnOk result (draft.new ≡ with_pieces draft.old (signed_pieces first branch width)) }
{
    match width {
        Width::Ax => {
            compare(draft, first, width)?;
            put(draft, &SIGN)?;
            decide(draft, branch, width)
        }
        Width::Eax => {
            compare(draft, first, width)?;
            put(draft, &SIGN)?;
            decide(draft, branch, width)
        }
    }
}

fn unsigned(draft: &mut Draft, first: Op, branch: Op, width: Width) -> Result<(), AllocError>
    ensures { OnOk result (draft.new ≡ with_pieces draft.old (unsigned_pieces first branch width)) }
{
    match width {
        Width::Ax => {
            compare(draft, first, width)?;
            decide(draft, branch, width)
        }
        Width::Eax => {
            compare(draft, first, width)?;
            decide(draft, branch, width)
        }
    }
}

/// The branch leads to 0. TOS is below where the primary register less TOS and one more has no borrow.
pub fn order(draft: &mut Draft, op: TosOp, width: Width) -> Result<(), AllocError>
    ensures { OnOk result (draft.new ≡ with_pieces draft.old (order_pieces op width)) }
{
    match op {
        TosOp::Eq => equality(draft, Op::Bne, width),
        TosOp::Ne => equality(draft, Op::Beq, width),
        TosOp::Lt => signed(draft, Op::Clc, Op::Bmi, width),
        TosOp::Le => signed(draft, Op::Sec, Op::Bmi, width),
        TosOp::Gt => signed(draft, Op::Sec, Op::Bpl, width),
        TosOp::Ge => signed(draft, Op::Clc, Op::Bpl, width),
        TosOp::ULt => unsigned(draft, Op::Clc, Op::Bcc, width),
        TosOp::ULe => unsigned(draft, Op::Sec, Op::Bcc, width),
        TosOp::UGt => unsigned(draft, Op::Sec, Op::Bcs, width),
        TosOp::UGe => unsigned(draft, Op::Clc, Op::Bcs, width),
        _ => Ok(()),
    }
}
