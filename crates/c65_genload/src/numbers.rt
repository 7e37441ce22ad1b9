// Numbers that are known: taken, added, multiplied and divided by.
ghost use Rattle.std.specs.Prelude.{◌≡◌, OnOk, OnErr};
ghost use Rattle.c65_genwide.specs.Lines.{with_lines, Keeps};
ghost use Rattle.c65_genload.specs.Numbers.{first, second, third, fourth, number_code, add_word_code, add_long_code, add_code, mask_code, by_code, shift_code, scale_code, is_divisor, divide_code};

use crate::zero_page::SREG;
use c65_code::Line::Do;
use c65_code::Operand::{Byte, Nothing, Zero};
use c65_code::{Draft, Routine, TosOp, UnaryRoutine, Width};
use c65_genwide::{narrow, put, run, width_of};
use c65_ints::IntType;
use c65_mach::Mode::{Immediate, Implied, ZeroPage};
use c65_mach::Op::{Adc, And, Clc, Lda, Ldx, Sta, Tax, Tay, Txa, Tya};
use std::alloc::AllocError;

pub fn first(number: u32) -> u8
    ensures { result ≡ first number }
{
    (number % 256) as u8
}

pub fn second(number: u32) -> u8
    ensures { result ≡ second number }
{
    (number / 256 % 256) as u8
}

pub fn third(number: u32) -> u8
    ensures { result ≡ third number }
{
    (number / 65_536 % 256) as u8
}

pub fn fourth(number: u32) -> u8
    ensures { result ≡ fourth number }
{
    (number / 16_777_216 % 256) as u8
}

/// The primary register becomes a number of so many bytes.
pub fn number(width: Width, number: u32, draft: &mut Draft) -> Result<(), AllocError>
    ensures lines { OnOk result (draft.new ≡ with_lines draft.old (number_code width number)) }
    ensures kept { OnErr result (Keeps draft.old draft.new) }
{
    match width {
        Width::Ax => put(
            draft,
            &[
                Do(Ldx, Immediate, Byte(second(number))),
                Do(Lda, Immediate, Byte(first(number))),
            ],
        ),
        Width::Eax => put(
            draft,
            &[
                Do(Lda, Immediate, Byte(third(number))),
                Do(Sta, ZeroPage, Zero(SREG)),
                Do(Lda, Immediate, Byte(fourth(number))),
                Do(Sta, ZeroPage, Zero(SREG + 1)),
                Do(Ldx, Immediate, Byte(second(number))),
                Do(Lda, Immediate, Byte(first(number))),
            ],
        ),
    }
}

fn add_word(number: u32, draft: &mut Draft) -> Result<(), AllocError>
    ensures lines { OnOk result (draft.new ≡ with_lines draft.old (add_word_code number)) }
    ensures kept { OnErr result (Keeps draft.old draft.new) }
{
    put(
        draft,
        &[
            Do(Clc, Implied, Nothing),
            Do(Adc, Immediate, Byte(first(number))),
            Do(Tay, Implied, Nothing),
            Do(Txa, Implied, Nothing),
            Do(Adc, Immediate, Byte(second(number))),
            Do(Tax, Implied, Nothing),
            Do(Tya, Implied, Nothing),
        ],
    )
}

fn add_long(number: u32, draft: &mut Draft) -> Result<(), AllocError>
    ensures lines { OnOk result (draft.new ≡ with_lines draft.old (add_long_code number)) }
    ensures kept { OnErr result (Keeps draft.old draft.new) }
{
    put(
        draft,
        &[
            Do(Clc, Implied, Nothing),
            Do(Adc, Immediate, Byte(first(number))),
            Do(Tay, Implied, Nothing),
            Do(Txa, Implied, Nothing),
            Do(Adc, Immediate, Byte(second(number))),
            Do(Tax, Implied, Nothing),
            Do(Lda, ZeroPage, Zero(SREG)),
            Do(Adc, Immediate, Byte(third(number))),
            Do(Sta, ZeroPage, Zero(SREG)),
            Do(Lda, ZeroPage, Zero(SREG + 1)),
            Do(Adc, Immediate, Byte(fourth(number))),
            Do(Sta, ZeroPage, Zero(SREG + 1)),
            Do(Tya, Implied, Nothing),
        ],
    )
}

/// A number is added to the primary register, and the sum brought back into the type.
pub fn add(kind: IntType, number: u32, draft: &mut Draft) -> Result<(), AllocError>
    ensures lines { OnOk result (draft.new ≡ with_lines draft.old (add_code kind number)) }
    ensures kept { OnErr result (Keeps draft.old draft.new) }
{
    match width_of(kind) {
        Width::Ax => {
            add_word(number, draft)?;
            narrow(kind, draft)
        }
        Width::Eax => add_long(number, draft),
    }
}

/// The bits of AX that a number has.
pub fn mask(number: u32, draft: &mut Draft) -> Result<(), AllocError>
    ensures lines { OnOk result (draft.new ≡ with_lines draft.old (mask_code number)) }
    ensures kept { OnErr result (Keeps draft.old draft.new) }
{
    put(
        draft,
        &[
            Do(And, Immediate, Byte(first(number))),
            Do(Tay, Implied, Nothing),
            Do(Txa, Implied, Nothing),
            Do(And, Immediate, Byte(second(number))),
            Do(Tax, Implied, Nothing),
            Do(Tya, Implied, Nothing),
        ],
    )
}

/// AX and a number, by an operator.
fn by(op: TosOp, amount: u32, draft: &mut Draft) -> Result<(), AllocError>
    ensures lines { OnOk result (draft.new ≡ with_lines draft.old (by_code op amount)) }
    ensures kept { OnErr result (Keeps draft.old draft.new) }
{
    run(draft, Routine::PushAx)?;
    number(Width::Ax, amount, draft)?;
    run(draft, Routine::Tos(op, Width::Ax))
}

/// AX is shifted by so many bits.
pub fn shift(op: TosOp, count: u32, draft: &mut Draft) -> Result<(), AllocError>
    ensures lines { OnOk result (draft.new ≡ with_lines draft.old (shift_code op count)) }
    ensures kept { OnErr result (Keeps draft.old draft.new) }
{
    if count == 0 {
        put(draft, &[])
    } else {
        by(op, count, draft)
    }
}

/// A number of elements of so many bytes becomes a number of bytes (C90 6.3.6).
pub fn scale(size: u32, draft: &mut Draft) -> Result<(), AllocError>
    ensures lines { OnOk result (draft.new ≡ with_lines draft.old (scale_code size)) }
    ensures kept { OnErr result (Keeps draft.old draft.new) }
{
    if size == 1 {
        put(draft, &[])
    } else if size == 2 {
        run(draft, Routine::Unary(UnaryRoutine::Shl1, Width::Ax))
    } else {
        by(TosOp::Mul, size, draft)
    }
}

/// Whether a signed division by a number gives what an unsigned one would, of what is at most 32,767.
fn is_divisor(size: u32) -> bool
    ensures { result ≡ is_divisor size }
{
    0 < size && size <= 32_767
}

/// A signed number of bytes becomes a number of elements of so many bytes (C90 6.3.6). It is 0 where
/// an element has more than 32,767 bytes, and where it is told to have none because it has more than
/// 65,535: no two pointers into one array are as far apart.
pub fn divide(size: u32, draft: &mut Draft) -> Result<(), AllocError>
    ensures lines { OnOk result (draft.new ≡ with_lines draft.old (divide_code size)) }
    ensures kept { OnErr result (Keeps draft.old draft.new) }
{
    if size == 1 {
        put(draft, &[])
    } else if is_divisor(size) {
        by(TosOp::Div, size, draft)
    } else {
        number(Width::Ax, 0, draft)
    }
}
