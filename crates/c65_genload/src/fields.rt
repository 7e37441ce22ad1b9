// Bit-fields in their units of 16 bits (C90 6.5.2.1).
ghost use Rattle.std.specs.Prelude.{◌≡◌, ◌<◌, IsTrue, OnOk, OnErr};
ghost use Rattle.c65_genwide.specs.Lines.{with_lines, Keeps};
ghost use Rattle.c65_genload.specs.Fields.{ones, others, is_in_byte, own_bits, down_code, up_code, is_topmost, cut_code, sign_bit, spread_code, signed_code, byte_value_code, mask_unless_all, once, rounds, both_down_code, is_astride, astride_code, wide_value_code, extract_code, range_code, aligned_code, is_unit};

use crate::numbers::{first, mask, shift};
use crate::places::Field;
use crate::times::{put_times, shift_a};
use crate::zero_page::TMP1;
use c65_code::Line::Do;
use c65_code::Operand::{Byte, Nothing, Zero};
use c65_code::{Draft, Line, TosOp};
use c65_genwide::{narrow, put};
use c65_ints::IntType;
use c65_mach::Mode::{Immediate, Implied, ZeroPage};
use c65_mach::Op::{And, Asl, Eor, Lda, Lsr, Rol, Ror, Sbc, Sec, Stx};
use std::alloc::AllocError;

// So many ones, at most 16.
fn ones(width: u8) -> u32
    ensures exact { result ≡ ones width }
    ensures small { result < 65536 }
{
    (1_u32 << width.min(16)) - 1
}

/// The bits of a unit that are not of a field.
pub fn others(field: Field) -> u32
    ensures { result ≡ others field }
{
    65_535 - (ones(field.width) << field.low.min(16)) % 65_536
}

/// Whether the bits of a field lie in one byte of its unit.
pub fn is_in_byte(field: Field) -> bool
    ensures { result ≡ is_in_byte field }
{
    field.low < 16 && field.low as u32 % 8 + field.width as u32 <= 8
}

/// The bits that such a field has of that byte.
pub fn own_bits(field: Field) -> u8
    ensures { result ≡ own_bits field }
{
    first(ones(field.width) << (field.low % 8))
}

/// Whether a field is its unit.
pub fn is_unit(field: Field) -> bool
    ensures { result ≡ is_unit field }
{
    field.low == 0 && 16 <= field.width
}

// The bit of A at this number, at most 7, comes to the lowest: to the right, or round by the left.
fn put_down(low: u8, draft: &mut Draft) -> Result<(), AllocError>
    requires { low < 8 }
    ensures lines { OnOk result (draft.new ≡ with_lines draft.old (down_code low)) }
    ensures kept { OnErr result (Keeps draft.old draft.new) }
{
    if low <= 4 {
        put_times(shift_a(Lsr), low as u32, draft)
    } else {
        put(draft, &[shift_a(Asl)])?;
        put_times(shift_a(Rol), 8 - low as u32, draft)
    }
}

/// The lowest bit of A comes to the one at this number, at most 7: to the left, or round by the right.
pub fn put_up(low: u8, draft: &mut Draft) -> Result<(), AllocError>
    requires { low < 8 }
    ensures lines { OnOk result (draft.new ≡ with_lines draft.old (up_code low)) }
    ensures kept { OnErr result (Keeps draft.old draft.new) }
{
    if low <= 4 {
        put_times(shift_a(Asl), low as u32, draft)
    } else {
        put(draft, &[shift_a(Lsr)])?;
        put_times(shift_a(Ror), 8 - low as u32, draft)
    }
}

// Whether bits that come down have zeros above them.
fn is_topmost(field: Field) -> bool
    ensures { result ≡ is_topmost field }
{
    field.low % 8 <= 4 && (field.low % 8) as u32 + field.width as u32 == 8
}

// The lowest bits of A stay.
fn cut(field: Field, draft: &mut Draft) -> Result<(), AllocError>
    ensures lines { OnOk result (draft.new ≡ with_lines draft.old (cut_code field)) }
    ensures kept { OnErr result (Keeps draft.old draft.new) }
{
    if is_topmost(field) {
        put(draft, &[])
    } else {
        put(draft, &[Do(And, Immediate, Byte(first(ones(field.width))))])
    }
}

fn sign_bit(width: u8) -> u8
    ensures { result ≡ sign_bit width }
{
    first(ones(width) / 2 + 1)
}

// The sign of the lowest bits goes up to the top of A.
fn spread(width: u8, draft: &mut Draft) -> Result<(), AllocError>
    ensures lines { OnOk result (draft.new ≡ with_lines draft.old (spread_code width)) }
    ensures kept { OnErr result (Keeps draft.old draft.new) }
{
    let sign = sign_bit(width);
    if width == 8 {
        put(draft, &[])
    } else {
        put(
            draft,
            &[
                Do(Eor, Immediate, Byte(sign)),
                Do(Sec, Implied, Nothing),
                Do(Sbc, Immediate, Byte(sign)),
            ],
        )
    }
}

// AX from the lowest bits of A.
fn put_signed(field: Field, draft: &mut Draft) -> Result<(), AllocError>
    ensures lines { OnOk result (draft.new ≡ with_lines draft.old (signed_code field)) }
    ensures kept { OnErr result (Keeps draft.old draft.new) }
{
    if field.kind.is_signed() {
        spread(field.width, draft)?;
        narrow(IntType::SChar, draft)
    } else {
        narrow(IntType::UChar, draft)
    }
}

/// A is the byte of a unit that has a field, and AX becomes the value of the field.
pub fn byte_value(field: Field, draft: &mut Draft) -> Result<(), AllocError>
    ensures lines { OnOk result (draft.new ≡ with_lines draft.old (byte_value_code field)) }
    ensures kept { OnErr result (Keeps draft.old draft.new) }
{
    put_down(field.low % 8, draft)?;
    cut(field, draft)?;
    put_signed(field, draft)
}

fn mask_unless_all(number: u32, draft: &mut Draft) -> Result<(), AllocError>
    ensures lines { OnOk result (draft.new ≡ with_lines draft.old (mask_unless_all number)) }
    ensures kept { OnErr result (Keeps draft.old draft.new) }
{
    if number == 65_535 {
        put(draft, &[])
    } else {
        mask(number, draft)
    }
}

// Two lines, or none.
fn put_once(wanted: bool, first: Line, next: Line, draft: &mut Draft) -> Result<(), AllocError>
    ensures lines { OnOk result (draft.new ≡ with_lines draft.old (once wanted first next)) }
    ensures kept { OnErr result (Keeps draft.old draft.new) }
{
    if wanted {
        put(draft, &[first, next])
    } else {
        put(draft, &[])
    }
}

// Both lines so many times, at most four.
fn put_rounds(count: u8, first: Line, next: Line, draft: &mut Draft) -> Result<(), AllocError>
    ensures lines { OnOk result (draft.new ≡ with_lines draft.old (rounds count first next)) }
    ensures kept { OnErr result (Keeps draft.old draft.new) }
{
    put_once(1 <= count, first, next, draft)?;
    put_once(2 <= count, first, next, draft)?;
    put_once(3 <= count, first, next, draft)?;
    put_once(4 <= count, first, next, draft)
}

// The bit at this number, at most 7, of A and tmp1, its high byte, comes to the lowest of A: to the right, or by the
// left into tmp1.
fn put_both_down(low: u8, draft: &mut Draft) -> Result<(), AllocError>
    requires { low < 8 }
    ensures lines { OnOk result (draft.new ≡ with_lines draft.old (both_down_code low)) }
    ensures kept { OnErr result (Keeps draft.old draft.new) }
{
    if low <= 4 {
        put_rounds(low, Do(Lsr, ZeroPage, Zero(TMP1)), shift_a(Ror), draft)
    } else {
        put_rounds(8 - low, shift_a(Asl), Do(Rol, ZeroPage, Zero(TMP1)), draft)?;
        put(draft, &[Do(Lda, ZeroPage, Zero(TMP1))])
    }
}

/// Whether a field without a sign has room in one byte, and begins in the low one of its unit.
pub fn is_astride(field: Field) -> bool
    ensures exact { result ≡ is_astride field }
    ensures low { IsTrue result → field.low < 8 }
{
    !field.kind.is_signed() && field.low < 8 && field.width <= 8
}

// AX is a unit, and becomes the value of such a field in it.
fn put_astride(field: Field, draft: &mut Draft) -> Result<(), AllocError>
    requires { field.low < 8 }
    ensures lines { OnOk result (draft.new ≡ with_lines draft.old (astride_code field)) }
    ensures kept { OnErr result (Keeps draft.old draft.new) }
{
    put(draft, &[Do(Stx, ZeroPage, Zero(TMP1))])?;
    put_both_down(field.low, draft)?;
    put(draft, &[Do(And, Immediate, Byte(first(ones(field.width))))])?;
    narrow(IntType::UChar, draft)
}

/// AX is a unit, and becomes the value of the field in it.
pub fn extract(field: Field, draft: &mut Draft) -> Result<(), AllocError>
    ensures lines { OnOk result (draft.new ≡ with_lines draft.old (extract_code field)) }
    ensures kept { OnErr result (Keeps draft.old draft.new) }
{
    if is_astride(field) {
        put_astride(field, draft)
    } else {
        put_wide_value(field, draft)
    }
}

// The same of any other field: a signed one goes up to the top and down again.
fn put_wide_value(field: Field, draft: &mut Draft) -> Result<(), AllocError>
    ensures lines { OnOk result (draft.new ≡ with_lines draft.old (wide_value_code field)) }
    ensures kept { OnErr result (Keeps draft.old draft.new) }
{
    if field.kind.is_signed() {
        let above = (field.low as u32 + field.width as u32).min(16);
        shift(TosOp::Shl, 16 - above, draft)?;
        shift(TosOp::Asr, 16 - field.width.min(16) as u32, draft)
    } else {
        shift(TosOp::Shr, field.low as u32, draft)?;
        mask_unless_all(ones(field.width), draft)
    }
}

/// AX is brought into the range of a field.
pub fn in_field(field: Field, draft: &mut Draft) -> Result<(), AllocError>
    ensures lines { OnOk result (draft.new ≡ with_lines draft.old (range_code field)) }
    ensures kept { OnErr result (Keeps draft.old draft.new) }
{
    let lowest = Field {
        kind: field.kind,
        low: 0,
        width: field.width,
    };
    if is_in_byte(lowest) {
        byte_value(lowest, draft)
    } else {
        extract(lowest, draft)
    }
}

/// AX is a value, and becomes the unit that has it in the field and zeros beside it.
pub fn align(field: Field, draft: &mut Draft) -> Result<(), AllocError>
    ensures lines { OnOk result (draft.new ≡ with_lines draft.old (aligned_code field)) }
    ensures kept { OnErr result (Keeps draft.old draft.new) }
{
    mask(ones(field.width), draft)?;
    shift(TosOp::Shl, field.low as u32, draft)
}
