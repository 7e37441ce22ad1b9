// Operators whose right or left operand is read where it lies (C90 6.3.6, 6.3.10 to 6.3.12).
ghost use Rattle.std.specs.Prelude.{◌≡◌, OnOk, OnErr};
ghost use Rattle.c65_genwide.specs.Lines.{with_lines, Keeps};
ghost use Rattle.c65_gendirect.specs.Words.{instruction, carry_code, first_byte_code, both_bytes_code, onward_code, end_label, word_code, sum_code, add_number_code, taken_from_code, long_mask_code};

use crate::bytes::{OperandByte, aside, back, put_op};
use c65_base::BinaryOp;
use c65_code::Draft;
use c65_code::Line::{Do, Label};
use c65_code::Operand::{Byte, Nothing, To, Zero};
use c65_genload::zero_page::{SREG, TMP1, TMP2};
use c65_genload::{first, fourth, second, third};
use c65_genwide::put;
use c65_mach::Mode::{Immediate, Implied, Relative, ZeroPage};
use c65_mach::Op;
use c65_mach::Op::{
    Adc, And, Bcc, Bcs, Clc, Dex, Eor, Inx, Lda, Ldx, Ora, Sbc, Sec, Sta, Stx, Tax, Tay, Txa, Tya,
};
use std::alloc::AllocError;

fn instruction(op: BinaryOp) -> Op
    ensures { result ≡ instruction op }
{
    match op {
        BinaryOp::Add => Adc,
        BinaryOp::Sub => Sbc,
        BinaryOp::BitAnd => And,
        BinaryOp::BitXor => Eor,
        _ => Ora,
    }
}

// A sum begins with no carry, a difference with no borrow.
fn put_carry(op: BinaryOp, draft: &mut Draft) -> Result<(), AllocError>
    ensures lines { OnOk result (draft.new ≡ with_lines draft.old (carry_code op)) }
    ensures kept { OnErr result (Keeps draft.old draft.new) }
{
    match op {
        BinaryOp::Add => put(draft, &[Do(Clc, Implied, Nothing)]),
        BinaryOp::Sub => put(draft, &[Do(Sec, Implied, Nothing)]),
        _ => put(draft, &[]),
    }
}

/// The low byte of AX by an operator and a byte.
pub fn put_first_byte(op: BinaryOp, low: OperandByte, draft: &mut Draft) -> Result<(), AllocError>
    ensures lines { OnOk result (draft.new ≡ with_lines draft.old (first_byte_code op low)) }
    ensures kept { OnErr result (Keeps draft.old draft.new) }
{
    put_carry(op, draft)?;
    put_op(instruction(op), low, draft)
}

fn put_both_bytes(
    op: BinaryOp,
    low: OperandByte,
    high: OperandByte,
    draft: &mut Draft,
) -> Result<(), AllocError>
    ensures lines { OnOk result (draft.new ≡ with_lines draft.old (both_bytes_code op low high)) }
    ensures kept { OnErr result (Keeps draft.old draft.new) }
{
    put_first_byte(op, low, draft)?;
    put(draft, &[aside(high), Do(Txa, Implied, Nothing)])?;
    put_op(instruction(op), high, draft)?;
    put(draft, &[Do(Tax, Implied, Nothing), back(high)])
}

// Behind the low byte, where the high byte of the word is 0.
fn put_onward(op: BinaryOp, fresh: u32, draft: &mut Draft) -> Result<(), AllocError>
    ensures lines { OnOk result (draft.new ≡ with_lines draft.old (onward_code op fresh)) }
    ensures kept { OnErr result (Keeps draft.old draft.new) }
{
    match op {
        BinaryOp::Add => put(
            draft,
            &[
                Do(Bcc, Relative, To(fresh)),
                Do(Inx, Implied, Nothing),
                Label(fresh),
            ],
        ),
        BinaryOp::Sub => put(
            draft,
            &[
                Do(Bcs, Relative, To(fresh)),
                Do(Dex, Implied, Nothing),
                Label(fresh),
            ],
        ),
        BinaryOp::BitAnd => put(draft, &[Do(Ldx, Immediate, Byte(0))]),
        _ => put(draft, &[]),
    }
}

fn put_end_label(op: BinaryOp, fresh: u32, draft: &mut Draft) -> Result<(), AllocError>
    ensures lines { OnOk result (draft.new ≡ with_lines draft.old (end_label op fresh)) }
    ensures kept { OnErr result (Keeps draft.old draft.new) }
{
    match op {
        BinaryOp::Add | BinaryOp::Sub => put(draft, &[Label(fresh)]),
        _ => put(draft, &[]),
    }
}

/// AX by `+`, `-`, `&`, `^` or `|` and a word. The label is that of a sum or a difference, where it is
/// placed.
pub fn put_word(
    op: BinaryOp,
    low: OperandByte,
    high: OperandByte,
    fresh: u32,
    draft: &mut Draft,
) -> Result<(), AllocError>
    ensures lines { OnOk result (draft.new ≡ with_lines draft.old (word_code op low high fresh)) }
    ensures kept { OnErr result (Keeps draft.old draft.new) }
{
    match (op, high) {
        (_, OperandByte::Number(0)) => {
            put_first_byte(op, low, draft)?;
            put_onward(op, fresh, draft)
        }
        (BinaryOp::BitAnd, OperandByte::Number(255)) => put_first_byte(op, low, draft),
        _ => {
            put_both_bytes(op, low, high, draft)?;
            put_end_label(op, fresh, draft)
        }
    }
}

/// A word is added to AX.
pub fn put_sum(low: OperandByte, high: OperandByte, draft: &mut Draft) -> Result<(), AllocError>
    ensures lines { OnOk result (draft.new ≡ with_lines draft.old (sum_code low high)) }
    ensures kept { OnErr result (Keeps draft.old draft.new) }
{
    put_both_bytes(BinaryOp::Add, low, high, draft)
}

/// A number is added to AX, modulo 65,536. The label is placed.
pub fn put_add_number(number: u32, fresh: u32, draft: &mut Draft) -> Result<(), AllocError>
    ensures lines { OnOk result (draft.new ≡ with_lines draft.old (add_number_code number fresh)) }
    ensures kept { OnErr result (Keeps draft.old draft.new) }
{
    let (low, high) = (first(number), second(number));
    if number % 65_536 == 0 {
        put(draft, &[Label(fresh)])
    } else if high == 255 && 0 < low {
        let less = OperandByte::Number((256 - low as u16) as u8);
        put_word(BinaryOp::Sub, less, OperandByte::Number(0), fresh, draft)
    } else {
        let (low, high) = (OperandByte::Number(low), OperandByte::Number(high));
        put_word(BinaryOp::Add, low, high, fresh, draft)
    }
}

/// AX is taken from a word.
pub fn put_taken_from(
    low: OperandByte,
    high: OperandByte,
    draft: &mut Draft,
) -> Result<(), AllocError>
    ensures lines { OnOk result (draft.new ≡ with_lines draft.old (taken_from_code low high)) }
    ensures kept { OnErr result (Keeps draft.old draft.new) }
{
    put(
        draft,
        &[Do(Sta, ZeroPage, Zero(TMP1)), Do(Stx, ZeroPage, Zero(TMP2))],
    )?;
    put_op(Lda, low, draft)?;
    put(
        draft,
        &[
            Do(Sec, Implied, Nothing),
            Do(Sbc, ZeroPage, Zero(TMP1)),
            aside(high),
        ],
    )?;
    put_op(Lda, high, draft)?;
    put(
        draft,
        &[
            Do(Sbc, ZeroPage, Zero(TMP2)),
            Do(Tax, Implied, Nothing),
            back(high),
        ],
    )
}

/// EAX by `&`, `^` or `|` and a number.
pub fn put_long_mask(op: BinaryOp, number: u32, draft: &mut Draft) -> Result<(), AllocError>
    ensures lines { OnOk result (draft.new ≡ with_lines draft.old (long_mask_code op number)) }
    ensures kept { OnErr result (Keeps draft.old draft.new) }
{
    let op = instruction(op);
    put(
        draft,
        &[
            Do(op, Immediate, Byte(first(number))),
            Do(Tay, Implied, Nothing),
            Do(Txa, Implied, Nothing),
            Do(op, Immediate, Byte(second(number))),
            Do(Tax, Implied, Nothing),
            Do(Lda, ZeroPage, Zero(SREG)),
            Do(op, Immediate, Byte(third(number))),
            Do(Sta, ZeroPage, Zero(SREG)),
            Do(Lda, ZeroPage, Zero(SREG + 1)),
            Do(op, Immediate, Byte(fourth(number))),
            Do(Sta, ZeroPage, Zero(SREG + 1)),
            Do(Tya, Implied, Nothing),
        ],
    )
}
