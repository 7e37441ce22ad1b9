// The choice of a case (C90 6.6.4.2).
ghost use Rattle.std.specs.Prelude.{◌≡◌, ◌≤◌, OnOk, OnErr, length};
ghost use Rattle.std.specs.List.{list_all};
ghost use Rattle.c65_genwide.specs.Lines.{with_lines, Keeps};
ghost use Rattle.c65_genentry.specs.Words.{with_code};
ghost use Rattle.c65_genentry.specs.Choice.{bits_of, byte_of, word_test, long_test, test_code, case_code, case_codes, is_byte, by_bytes, byte_tests, byte_choice, choice_code, choice_labels};

use crate::drafts::{fresh, label};
use crate::places::SREG;
use c65_code::Line::Do;
use c65_code::Operand::{Byte, To, Zero};
use c65_code::{Draft, Width};
use c65_genwide::put;
use c65_mach::Mode::{Immediate, Relative, ZeroPage};
use c65_mach::Op::{Beq, Bne, Cmp, Cpx, Cpy, Ldy};
use std::alloc::AllocError;

/// A value in two's complement of 32 bits.
fn bits_of(value: i64) -> u32
    ensures { result ≡ bits_of value }
{
    value.rem_euclid(4_294_967_296) as u32
}

/// The byte of a number whose unit is this power of 256.
fn byte_of(bits: u32, unit: u32) -> u8
    requires { 1 ≤ unit }
    ensures { result ≡ byte_of bits unit }
{
    (bits / unit % 256) as u8
}

fn put_word_test(bits: u32, other: u32, case: u32, draft: &mut Draft) -> Result<(), AllocError>
    ensures lines { OnOk result (draft.new ≡ with_lines draft.old (word_test bits other case)) }
    ensures kept { OnErr result (Keeps draft.old draft.new) }
{
    put(
        draft,
        &[
            Do(Cpx, Immediate, Byte(byte_of(bits, 256))),
            Do(Bne, Relative, To(other)),
            Do(Cmp, Immediate, Byte(byte_of(bits, 1))),
            Do(Beq, Relative, To(case)),
        ],
    )
}

fn put_long_test(bits: u32, other: u32, case: u32, draft: &mut Draft) -> Result<(), AllocError>
    ensures lines { OnOk result (draft.new ≡ with_lines draft.old (long_test bits other case)) }
    ensures kept { OnErr result (Keeps draft.old draft.new) }
{
    put(
        draft,
        &[
            Do(Ldy, ZeroPage, Zero(SREG)),
            Do(Cpy, Immediate, Byte(byte_of(bits, 65_536))),
            Do(Bne, Relative, To(other)),
            Do(Ldy, ZeroPage, Zero(SREG + 1)),
            Do(Cpy, Immediate, Byte(byte_of(bits, 16_777_216))),
            Do(Bne, Relative, To(other)),
        ],
    )?;
    put_word_test(bits, other, case, draft)?;
    Ok(())
}

fn put_test(
    width: Width,
    bits: u32,
    other: u32,
    case: u32,
    draft: &mut Draft,
) -> Result<(), AllocError>
    ensures lines { OnOk result (draft.new ≡ with_lines draft.old (test_code width bits other case)) }
    ensures kept { OnErr result (Keeps draft.old draft.new) }
{
    match width {
        Width::Ax => put_word_test(bits, other, case, draft),
        Width::Eax => put_long_test(bits, other, case, draft),
    }
}

/// Goes to a case where the primary register has its value; the register stays.
fn put_case(width: Width, value: i64, case: u32, draft: &mut Draft) -> Result<(), AllocError>
    ensures lines { OnOk result (draft.new ≡ with_code 1 (case_code width value case draft.old.labels) draft.old) }
    ensures kept { OnErr result (Keeps draft.old draft.new) }
{
    let other = fresh(draft)?;
    put_test(width, bits_of(value), other, case, draft)?;
    label(draft, other)?;
    Ok(())
}

/// Each case by itself. The label of the first one is given, and the others follow it.
fn put_cases(width: Width, first: u32, values: &[i64], draft: &mut Draft) -> Result<(), AllocError>
    ensures lines { OnOk result (draft.new ≡ with_code (length values.now) (case_codes width first draft.old.labels values.now) draft.old) }
    ensures kept { OnErr result (Keeps draft.old draft.new) }
{
    match values {
        [] => put(draft, &[]),
        [value, rest @ ..] => {
            put_case(width, *value, first, draft)?;
            put_cases(width, first.wrapping_add(1), rest, draft)
        }
    }
}

/// Whether a value is from 0 to 255.
fn is_byte(value: i64) -> bool
    ensures { result ≡ is_byte value }
{
    0 <= value && value < 256
}

fn are_bytes(values: &[i64]) -> bool
    ensures { result ≡ list_all is_byte values.now }
{
    values.iter().all(|value| is_byte(*value))
}

/// Whether all cases of a switch by 16 bits are such.
fn by_bytes(width: Width, values: &[i64]) -> bool
    ensures { result ≡ by_bytes width values.now }
{
    match width {
        Width::Ax => !values.is_empty() && are_bytes(values),
        Width::Eax => false,
    }
}

/// Goes to a case where A has its low byte.
fn put_byte_tests(first: u32, values: &[i64], draft: &mut Draft) -> Result<(), AllocError>
    ensures lines { OnOk result (draft.new ≡ with_lines draft.old (byte_tests first values.now)) }
    ensures kept { OnErr result (Keeps draft.old draft.new) }
{
    match values {
        [] => put(draft, &[]),
        [value, rest @ ..] => {
            put(
                draft,
                &[
                    Do(Cmp, Immediate, Byte(byte_of(bits_of(*value), 1))),
                    Do(Beq, Relative, To(first)),
                ],
            )?;
            put_byte_tests(first.wrapping_add(1), rest, draft)
        }
    }
}

fn put_byte_choice(
    other: u32,
    first: u32,
    values: &[i64],
    draft: &mut Draft,
) -> Result<(), AllocError>
    ensures lines { OnOk result (draft.new ≡ with_lines draft.old (byte_choice other first values.now)) }
    ensures kept { OnErr result (Keeps draft.old draft.new) }
{
    put(
        draft,
        &[Do(Cpx, Immediate, Byte(0)), Do(Bne, Relative, To(other))],
    )?;
    put_byte_tests(first, values, draft)
}

/// Goes to the case with the value that the primary register has. The label of the first case is
/// given, and the others follow it. Where none has the value, it goes on, or to the label `other`.
pub fn choose(
    width: Width,
    other: u32,
    first: u32,
    values: &[i64],
    draft: &mut Draft,
) -> Result<(), AllocError>
    ensures lines { OnOk result (draft.new ≡ with_code (choice_labels width values.now) (choice_code width other first draft.old.labels values.now) draft.old) }
    ensures kept { OnErr result (Keeps draft.old draft.new) }
{
    if by_bytes(width, values) {
        put_byte_choice(other, first, values, draft)
    } else {
        put_cases(width, first, values, draft)
    }
}
