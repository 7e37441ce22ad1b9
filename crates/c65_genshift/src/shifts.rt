// The primary register shifted by a number of bits that is known (C90 6.3.7).
ghost use Rattle.std.specs.Prelude.{◌≡◌, ◌+◌, ◌<◌, ◌∷◌, [], OnOk, OnErr};
ghost use Rattle.c65_code.specs.declared.line.Line.TheVariants as labels;
ghost use Rattle.c65_genwide.specs.Lines.{with_lines, Keeps};
ghost use Rattle.c65_genshift.specs.Shifts.{one_of, calls_code, turns_code, left_turn, right_turn, left_bits_code, left_byte_code, right_byte_code, left_one_code, left_two_code, left_three_code, right_one_code, right_two_code, right_three_code, left_word_code, right_word_code, left_long_code, right_long_code, shift_code, is_short_long, is_short};

use crate::zero_page::{SREG, TMP1};
use c65_code::Line::{Call, Do, Label};
use c65_code::Operand::{Byte, Nothing, To, Zero};
use c65_code::{Callee, Draft, Routine, TosOp, UnaryRoutine, Width};
use c65_genload::{put_times, shift_a};
use c65_genwide::put;
use c65_mach::Mode::{Immediate, Implied, Relative, ZeroPage};
use c65_mach::Op::{Asl, Bne, Dey, Lda, Ldx, Ldy, Lsr, Rol, Ror, Sta, Stx, Sty, Tax, Txa};
use std::alloc::AllocError;

fn one_of(op: TosOp) -> UnaryRoutine
    ensures { result ≡ one_of op }
{
    match op {
        TosOp::Shl => UnaryRoutine::Shl1,
        TosOp::Shr => UnaryRoutine::Shr1,
        _ => UnaryRoutine::Asr1,
    }
}

pub fn put_calls(op: TosOp, width: Width, count: u32, draft: &mut Draft) -> Result<(), AllocError>
    ensures lines { OnOk result (draft.new ≡ with_lines draft.old (calls_code op width count)) }
    ensures kept { OnErr result (Keeps draft.old draft.new) }
{
    let routine = Routine::Unary(one_of(op), width);
    put_times(Call(Callee::Routine(routine)), count, draft)
}

// AX bit by bit, with the high byte in tmp1.
fn put_left_turns(count: u8, label: u32, draft: &mut Draft) -> Result<(), AllocError>
    ensures lines { OnOk result (draft.new ≡ with_lines draft.old (turns_code left_turn count label)) }
    ensures kept { OnErr result (Keeps draft.old draft.new) }
{
    put(
        draft,
        &[
            Do(Stx, ZeroPage, Zero(TMP1)),
            Do(Ldy, Immediate, Byte(count)),
            Label(label),
            shift_a(Asl),
            Do(Rol, ZeroPage, Zero(TMP1)),
            Do(Dey, Implied, Nothing),
            Do(Bne, Relative, To(label)),
            Do(Ldx, ZeroPage, Zero(TMP1)),
        ],
    )
}

fn put_right_turns(count: u8, label: u32, draft: &mut Draft) -> Result<(), AllocError>
    ensures lines { OnOk result (draft.new ≡ with_lines draft.old (turns_code right_turn count label)) }
    ensures kept { OnErr result (Keeps draft.old draft.new) }
{
    put(
        draft,
        &[
            Do(Stx, ZeroPage, Zero(TMP1)),
            Do(Ldy, Immediate, Byte(count)),
            Label(label),
            Do(Lsr, ZeroPage, Zero(TMP1)),
            shift_a(Ror),
            Do(Dey, Implied, Nothing),
            Do(Bne, Relative, To(label)),
            Do(Ldx, ZeroPage, Zero(TMP1)),
        ],
    )
}

fn put_left_turn(draft: &mut Draft) -> Result<(), AllocError>
    ensures lines { OnOk result (draft.new ≡ with_lines draft.old left_turn) }
    ensures kept { OnErr result (Keeps draft.old draft.new) }
{
    put(draft, &[shift_a(Asl), Do(Rol, ZeroPage, Zero(TMP1))])
}

// AX bit by bit, where there is no label.
#[tactic(auto, using(crate::proofs::Turns::turn_grows))]
pub fn put_left_bits(count: u32, draft: &mut Draft) -> Result<(), AllocError>
    ensures lines { OnOk result (draft.new ≡ with_lines draft.old (left_bits_code count)) }
    ensures kept { OnErr result (Keeps draft.old draft.new) }
{
    put(draft, &[Do(Stx, ZeroPage, Zero(TMP1))])?;
    for _round in 0..count {
        put_left_turn(draft)?;
    }
    put(draft, &[Do(Ldx, ZeroPage, Zero(TMP1))])
}

// AX by eight bits and a count more.
pub fn put_left_byte(count: u32, draft: &mut Draft) -> Result<(), AllocError>
    ensures lines { OnOk result (draft.new ≡ with_lines draft.old (left_byte_code count)) }
    ensures kept { OnErr result (Keeps draft.old draft.new) }
{
    put_times(shift_a(Asl), count, draft)?;
    put(
        draft,
        &[Do(Tax, Implied, Nothing), Do(Lda, Immediate, Byte(0))],
    )
}

fn put_right_byte(count: u32, draft: &mut Draft) -> Result<(), AllocError>
    ensures lines { OnOk result (draft.new ≡ with_lines draft.old (right_byte_code count)) }
    ensures kept { OnErr result (Keeps draft.old draft.new) }
{
    put(draft, &[Do(Txa, Implied, Nothing)])?;
    put_times(shift_a(Lsr), count, draft)?;
    put(draft, &[Do(Ldx, Immediate, Byte(0))])
}

// EAX by one byte, by two bytes, and by three bytes and a count of bits.
fn put_left_one(draft: &mut Draft) -> Result<(), AllocError>
    ensures lines { OnOk result (draft.new ≡ with_lines draft.old left_one_code) }
    ensures kept { OnErr result (Keeps draft.old draft.new) }
{
    put(
        draft,
        &[
            Do(Ldy, ZeroPage, Zero(SREG)),
            Do(Sty, ZeroPage, Zero(SREG + 1)),
            Do(Stx, ZeroPage, Zero(SREG)),
            Do(Tax, Implied, Nothing),
            Do(Lda, Immediate, Byte(0)),
        ],
    )
}

fn put_left_two(draft: &mut Draft) -> Result<(), AllocError>
    ensures lines { OnOk result (draft.new ≡ with_lines draft.old left_two_code) }
    ensures kept { OnErr result (Keeps draft.old draft.new) }
{
    put(
        draft,
        &[
            Do(Stx, ZeroPage, Zero(SREG + 1)),
            Do(Sta, ZeroPage, Zero(SREG)),
            Do(Lda, Immediate, Byte(0)),
            Do(Tax, Implied, Nothing),
        ],
    )
}

fn put_left_three(count: u32, draft: &mut Draft) -> Result<(), AllocError>
    ensures lines { OnOk result (draft.new ≡ with_lines draft.old (left_three_code count)) }
    ensures kept { OnErr result (Keeps draft.old draft.new) }
{
    put_times(shift_a(Asl), count, draft)?;
    put(
        draft,
        &[
            Do(Sta, ZeroPage, Zero(SREG + 1)),
            Do(Lda, Immediate, Byte(0)),
            Do(Sta, ZeroPage, Zero(SREG)),
            Do(Tax, Implied, Nothing),
        ],
    )
}

fn put_right_one(draft: &mut Draft) -> Result<(), AllocError>
    ensures lines { OnOk result (draft.new ≡ with_lines draft.old right_one_code) }
    ensures kept { OnErr result (Keeps draft.old draft.new) }
{
    put(
        draft,
        &[
            Do(Txa, Implied, Nothing),
            Do(Ldx, ZeroPage, Zero(SREG)),
            Do(Ldy, ZeroPage, Zero(SREG + 1)),
            Do(Sty, ZeroPage, Zero(SREG)),
            Do(Ldy, Immediate, Byte(0)),
            Do(Sty, ZeroPage, Zero(SREG + 1)),
        ],
    )
}

fn put_right_two(draft: &mut Draft) -> Result<(), AllocError>
    ensures lines { OnOk result (draft.new ≡ with_lines draft.old right_two_code) }
    ensures kept { OnErr result (Keeps draft.old draft.new) }
{
    put(
        draft,
        &[
            Do(Lda, ZeroPage, Zero(SREG)),
            Do(Ldx, ZeroPage, Zero(SREG + 1)),
            Do(Ldy, Immediate, Byte(0)),
            Do(Sty, ZeroPage, Zero(SREG)),
            Do(Sty, ZeroPage, Zero(SREG + 1)),
        ],
    )
}

fn put_right_three(count: u32, draft: &mut Draft) -> Result<(), AllocError>
    ensures lines { OnOk result (draft.new ≡ with_lines draft.old (right_three_code count)) }
    ensures kept { OnErr result (Keeps draft.old draft.new) }
{
    put(
        draft,
        &[
            Do(Lda, ZeroPage, Zero(SREG + 1)),
            Do(Ldx, Immediate, Byte(0)),
            Do(Stx, ZeroPage, Zero(SREG)),
            Do(Stx, ZeroPage, Zero(SREG + 1)),
        ],
    )?;
    put_times(shift_a(Lsr), count, draft)
}

/// A label behind lines that have no need of it.
pub fn place(label: u32, draft: &mut Draft) -> Result<(), AllocError>
    ensures lines { OnOk result (draft.new ≡ with_lines draft.old (labels.Label label ∷ [])) }
    ensures kept { OnErr result (Keeps draft.old draft.new) }
{
    put(draft, &[Label(label)])
}

fn put_left_word(count: u32, label: u32, draft: &mut Draft) -> Result<(), AllocError>
    ensures lines { OnOk result (draft.new ≡ with_lines draft.old (left_word_code count label)) }
    ensures kept { OnErr result (Keeps draft.old draft.new) }
{
    if count < 4 {
        put_calls(TosOp::Shl, Width::Ax, count, draft)?;
        place(label, draft)
    } else if count < 8 {
        put_left_turns(count as u8, label, draft)
    } else {
        put_left_byte(count - 8, draft)?;
        place(label, draft)
    }
}

fn put_left_long(count: u32, draft: &mut Draft) -> Result<(), AllocError>
    ensures lines { OnOk result (draft.new ≡ with_lines draft.old (left_long_code count)) }
    ensures kept { OnErr result (Keeps draft.old draft.new) }
{
    if count < 8 {
        put_calls(TosOp::Shl, Width::Eax, count, draft)
    } else if count < 16 {
        put_left_one(draft)?;
        put_calls(TosOp::Shl, Width::Eax, count - 8, draft)
    } else if count < 24 {
        put_left_two(draft)?;
        put_calls(TosOp::Shl, Width::Eax, count - 16, draft)
    } else {
        put_left_three(count - 24, draft)
    }
}

fn put_right_word(count: u32, label: u32, draft: &mut Draft) -> Result<(), AllocError>
    ensures lines { OnOk result (draft.new ≡ with_lines draft.old (right_word_code count label)) }
    ensures kept { OnErr result (Keeps draft.old draft.new) }
{
    if count < 4 {
        put_calls(TosOp::Shr, Width::Ax, count, draft)?;
        place(label, draft)
    } else if count < 8 {
        put_right_turns(count as u8, label, draft)
    } else {
        put_right_byte(count - 8, draft)?;
        place(label, draft)
    }
}

fn put_right_long(count: u32, draft: &mut Draft) -> Result<(), AllocError>
    ensures lines { OnOk result (draft.new ≡ with_lines draft.old (right_long_code count)) }
    ensures kept { OnErr result (Keeps draft.old draft.new) }
{
    if count < 8 {
        put_calls(TosOp::Shr, Width::Eax, count, draft)
    } else if count < 16 {
        put_right_one(draft)?;
        put_calls(TosOp::Shr, Width::Eax, count - 8, draft)
    } else if count < 24 {
        put_right_two(draft)?;
        put_calls(TosOp::Shr, Width::Eax, count - 16, draft)
    } else {
        put_right_three(count - 24, draft)
    }
}

/// The primary register is shifted by so many bits, in the operator's width. The label is a fresh one,
/// and is placed once, also where no line leads to it.
pub fn shift(
    op: TosOp,
    width: Width,
    count: u32,
    label: u32,
    draft: &mut Draft,
) -> Result<(), AllocError>
    ensures lines { OnOk result (draft.new ≡ with_lines draft.old (shift_code op width count label)) }
    ensures kept { OnErr result (Keeps draft.old draft.new) }
{
    match (op, width) {
        (TosOp::Shl, Width::Ax) => put_left_word(count, label, draft),
        (TosOp::Shl, Width::Eax) => {
            put_left_long(count, draft)?;
            place(label, draft)
        }
        (TosOp::Shr, Width::Ax) => put_right_word(count, label, draft),
        (TosOp::Shr, Width::Eax) => {
            put_right_long(count, draft)?;
            place(label, draft)
        }
        (_, _) => {
            put_calls(op, width, count, draft)?;
            place(label, draft)
        }
    }
}

fn is_short_long(count: u32) -> bool
    ensures { result ≡ is_short_long count }
{
    count < 32 && (count % 8 < 4 || 24 <= count)
}

/// Whether a shift by so many bits is few lines. For the others there are the routines that take both
/// operands.
pub fn is_short(op: TosOp, width: Width, count: u32) -> bool
    ensures { result ≡ is_short op width count }
{
    match (op, width) {
        (TosOp::Shl | TosOp::Shr, Width::Ax) => count < 16,
        (TosOp::Shl | TosOp::Shr, Width::Eax) => is_short_long(count),
        (TosOp::Asr, _) => count < 4,
        (_, _) => false,
    }
}
