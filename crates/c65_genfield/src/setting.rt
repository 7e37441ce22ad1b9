// Bit-fields that are set where they lie, where nothing needs their value then (C90 6.3.16).
ghost use Rattle.std.specs.Prelude.{◌≡◌, OnOk, OnErr};
ghost use Rattle.c65_genwide.specs.Lines.{with_lines, Keeps};
ghost use Rattle.c65_genfield.specs.Setting.{own_word, set_word, clear_code, raise_code, byte_code, part_code, number_code, behind_code, byte_set, set_code};

use c65_code::Draft;
use c65_code::Line::Do;
use c65_code::Operand::{Byte, Zero};
use c65_genchange::{Spot, put_again, put_reach, spot_at};
use c65_genload::{
    Extent, Field, Place, first, is_in_byte, is_unit, merge, onward, others, own_bits, put_up,
    second, set_in_unit, settled, store_bits, store_bytes,
};
use c65_genwide::put;
use c65_mach::Mode::{Immediate, IndirectY};
use c65_mach::Op::{And, Lda, Ldy, Ora, Sta};
use std::alloc::AllocError;

// The bits of the unit that are of a field.
fn own_word(field: Field) -> u32
    ensures { result ≡ own_word field }
{
    65_535 - others(field)
}

// The bits of a number that go there.
fn set_word(field: Field, number: u32) -> u32
    ensures { result ≡ set_word field number }
{
    (number % (1_u32 << field.width.min(16))) << field.low.min(16)
}

// The bits of A that a mask has become 0, where not all of them are set then.
fn put_clear(bits: u8, mask: u8, draft: &mut Draft) -> Result<(), AllocError>
    ensures lines { OnOk result (draft.new ≡ with_lines draft.old (clear_code bits mask)) }
    ensures kept { OnErr result (Keeps draft.old draft.new) }
{
    if bits == mask {
        put(draft, &[])
    } else {
        put(draft, &[Do(And, Immediate, Byte(255 - mask))])
    }
}

// These bits of A become 1.
fn put_raise(bits: u8, draft: &mut Draft) -> Result<(), AllocError>
    ensures lines { OnOk result (draft.new ≡ with_lines draft.old (raise_code bits)) }
    ensures kept { OnErr result (Keeps draft.old draft.new) }
{
    if bits == 0 {
        put(draft, &[])
    } else {
        put(draft, &[Do(Ora, Immediate, Byte(bits))])
    }
}

// The bits of a byte that a mask has become these.
fn put_byte(bits: u8, mask: u8, spot: Spot, draft: &mut Draft) -> Result<(), AllocError>
    ensures lines { OnOk result (draft.new ≡ with_lines draft.old (byte_code bits mask spot)) }
    ensures kept { OnErr result (Keeps draft.old draft.new) }
{
    if mask == 255 {
        put(draft, &[Do(Lda, Immediate, Byte(bits))])?;
        put_reach(Sta, spot, draft)
    } else {
        put_reach(Lda, spot, draft)?;
        put_clear(bits, mask, draft)?;
        put_raise(bits, draft)?;
        put_again(Sta, spot, draft)
    }
}

// A byte that has none of the field's bits stays.
fn put_part(bits: u8, mask: u8, spot: Spot, draft: &mut Draft) -> Result<(), AllocError>
    ensures lines { OnOk result (draft.new ≡ with_lines draft.old (part_code bits mask spot)) }
    ensures kept { OnErr result (Keeps draft.old draft.new) }
{
    if mask == 0 {
        put(draft, &[])
    } else {
        put_byte(bits, mask, spot, draft)
    }
}

/// A number goes into a field; of a place that is anywhere the address is in ptr1.
pub fn put_set_number(
    place: Place,
    field: Field,
    number: u32,
    draft: &mut Draft,
) -> Result<(), AllocError>
    ensures lines { OnOk result (draft.new ≡ with_lines draft.old (number_code place field number)) }
    ensures kept { OnErr result (Keeps draft.old draft.new) }
{
    let bits = set_word(field, number);
    let mask = own_word(field);
    put_part(first(bits), first(mask), spot_at(place, 0), draft)?;
    put_part(second(bits), second(mask), spot_at(place, 1), draft)
}

/// The value in A goes into a field, so far behind the pointer at this byte of the zero page.
pub fn put_behind(pointer: u8, at: u8, field: Field, draft: &mut Draft) -> Result<(), AllocError>
    ensures lines { OnOk result (draft.new ≡ with_lines draft.old (behind_code pointer at field)) }
    ensures kept { OnErr result (Keeps draft.old draft.new) }
{
    put_up(field.low % 8, draft)?;
    put(
        draft,
        &[Do(Ldy, Immediate, Byte(at.wrapping_add(field.low / 8)))],
    )?;
    merge(IndirectY, Zero(pointer), own_bits(field), draft)
}

// The value in A goes into a field of one byte. An address that waited is popped.
fn put_byte_set(place: Place, field: Field, draft: &mut Draft) -> Result<(), AllocError>
    ensures lines { OnOk result (draft.new ≡ with_lines draft.old (byte_set place field)) }
    ensures kept { OnErr result (Keeps draft.old draft.new) }
{
    put_up(field.low % 8, draft)?;
    store_bits(
        onward(settled(place), field.low / 8),
        own_bits(field),
        draft,
    )
}

/// The value in AX goes into a field. An address that waited is popped.
pub fn put_set(place: Place, field: Field, draft: &mut Draft) -> Result<(), AllocError>
    ensures lines { OnOk result (draft.new ≡ with_lines draft.old (set_code place field)) }
    ensures kept { OnErr result (Keeps draft.old draft.new) }
{
    if is_in_byte(field) {
        put_byte_set(place, field, draft)
    } else if is_unit(field) {
        store_bytes(place, Extent::Two, draft)
    } else {
        set_in_unit(place, field, draft)
    }
}
