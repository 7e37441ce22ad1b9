// Values put where they are kept (C90 6.3.16).
ghost use Rattle.std.specs.Prelude.{◌≡◌, OnOk, OnErr};
ghost use Rattle.c65_genwide.specs.Lines.{with_lines, Keeps};
ghost use Rattle.c65_genload.specs.Stores.{bank_store, near_store, data_store, far_store, bytes_store, after_store, under_code, unit_set, unit_store, popped_code, merged_code, bits_store, byte_store, field_store, store_code, copy_code};

use crate::fields::{align, byte_value, extract, is_in_byte, is_unit, others, own_bits, put_up};
use crate::loads::load_bytes;
use crate::numbers::mask;
use crate::places::{Access, Extent, Field, Place, extent_of, onward, settled};
use crate::zero_page::{PTR1, PTR3, REGBANK, SP, SREG, TMP1};
use c65_code::Line::Do;
use c65_code::Operand::{At, Byte, Nothing, Zero};
use c65_code::{Draft, Operand, Routine, Sym, TosOp, Width};
use c65_genwide::{narrow, put, run};
use c65_ints::IntType;
use c65_mach::Mode;
use c65_mach::Mode::{Absolute, Immediate, Implied, IndirectY, ZeroPage};
use c65_mach::Op::{And, Eor, Lda, Ldy, Sta, Stx, Sty, Tay, Tya};
use std::alloc::AllocError;

fn store_bank(at: u8, extent: Extent, draft: &mut Draft) -> Result<(), AllocError>
    ensures lines { OnOk result (draft.new ≡ with_lines draft.old (bank_store at extent)) }
    ensures kept { OnErr result (Keeps draft.old draft.new) }
{
    let byte = REGBANK.wrapping_add(at);
    match extent {
        Extent::One => put(draft, &[Do(Sta, ZeroPage, Zero(byte))]),
        Extent::Two | Extent::Three | Extent::Four => put(
            draft,
            &[
                Do(Sta, ZeroPage, Zero(byte)),
                Do(Stx, ZeroPage, Zero(byte.wrapping_add(1))),
            ],
        ),
    }
}

fn store_near(at: u8, extent: Extent, draft: &mut Draft) -> Result<(), AllocError>
    ensures lines { OnOk result (draft.new ≡ with_lines draft.old (near_store at extent)) }
    ensures kept { OnErr result (Keeps draft.old draft.new) }
{
    put(draft, &[Do(Ldy, Immediate, Byte(at))])?;
    match extent {
        Extent::One => put(draft, &[Do(Sta, IndirectY, Zero(SP))]),
        Extent::Two | Extent::Three => run(draft, Routine::StAxYSp),
        Extent::Four => run(draft, Routine::StEaxYSp),
    }
}

fn store_data(sym: Sym, at: u16, extent: Extent, draft: &mut Draft) -> Result<(), AllocError>
    ensures lines { OnOk result (draft.new ≡ with_lines draft.old (data_store sym at extent)) }
    ensures kept { OnErr result (Keeps draft.old draft.new) }
{
    match extent {
        Extent::One => put(draft, &[Do(Sta, Absolute, At(sym, at))]),
        Extent::Two | Extent::Three => put(
            draft,
            &[
                Do(Sta, Absolute, At(sym, at)),
                Do(Stx, Absolute, At(sym, at.wrapping_add(1))),
            ],
        ),
        Extent::Four => put(
            draft,
            &[
                Do(Sta, Absolute, At(sym, at)),
                Do(Stx, Absolute, At(sym, at.wrapping_add(1))),
                Do(Ldy, ZeroPage, Zero(SREG)),
                Do(Sty, Absolute, At(sym, at.wrapping_add(2))),
                Do(Ldy, ZeroPage, Zero(SREG + 1)),
                Do(Sty, Absolute, At(sym, at.wrapping_add(3))),
            ],
        ),
    }
}

fn store_far(extent: Extent, draft: &mut Draft) -> Result<(), AllocError>
    ensures lines { OnOk result (draft.new ≡ with_lines draft.old (far_store extent)) }
    ensures kept { OnErr result (Keeps draft.old draft.new) }
{
    match extent {
        Extent::One => run(draft, Routine::StATos),
        Extent::Two | Extent::Three => run(draft, Routine::StAxTos),
        Extent::Four => run(draft, Routine::StEaxTos),
    }
}

// A, AX or EAX goes to a place. An address that waited is popped. A number has no three bytes, and is
// stored as of two then.
/// A, AX or EAX goes to a place; an address that waited is popped.
pub fn store_bytes(place: Place, extent: Extent, draft: &mut Draft) -> Result<(), AllocError>
    ensures lines { OnOk result (draft.new ≡ with_lines draft.old (bytes_store place extent)) }
    ensures kept { OnErr result (Keeps draft.old draft.new) }
{
    match place {
        Place::Bank(at) => store_bank(at, extent, draft),
        Place::Near(at) => store_near(at, extent, draft),
        Place::Data(sym, at) => store_data(sym, at, extent, draft),
        Place::Far(_) => store_far(extent, draft),
    }
}

// A store through an address leaves A alone in place of a character.
fn restore(place: Place, kind: IntType, draft: &mut Draft) -> Result<(), AllocError>
    ensures lines { OnOk result (draft.new ≡ with_lines draft.old (after_store place kind)) }
    ensures kept { OnErr result (Keeps draft.old draft.new) }
{
    match place {
        Place::Far(_) => narrow(kind, draft),
        Place::Bank(_) | Place::Near(_) | Place::Data(_, _) => put(draft, &[]),
    }
}

// The word at a place, above whose address one word more waits.
fn load_under(place: Place, draft: &mut Draft) -> Result<(), AllocError>
    ensures lines { OnOk result (draft.new ≡ with_lines draft.old (under_code place)) }
    ensures kept { OnErr result (Keeps draft.old draft.new) }
{
    match place {
        Place::Near(at) => load_bytes(Place::Near(at.wrapping_add(2)), Extent::Two, draft),
        Place::Far(_) => {
            put(draft, &[Do(Ldy, Immediate, Byte(3))])?;
            run(draft, Routine::LdAxYSp)?;
            run(draft, Routine::LdAxi)
        }
        Place::Bank(_) | Place::Data(_, _) => load_bytes(place, Extent::Two, draft),
    }
}

/// AX goes into a field of the unit at a place, whose other bits stay. An address that waited is popped.
pub fn set_in_unit(place: Place, field: Field, draft: &mut Draft) -> Result<(), AllocError>
    ensures lines { OnOk result (draft.new ≡ with_lines draft.old (unit_set place field)) }
    ensures kept { OnErr result (Keeps draft.old draft.new) }
{
    align(field, draft)?;
    run(draft, Routine::PushAx)?;
    load_under(place, draft)?;
    mask(others(field), draft)?;
    run(draft, Routine::Tos(TosOp::Or, Width::Ax))?;
    store_bytes(place, Extent::Two, draft)
}

fn store_in_unit(place: Place, field: Field, draft: &mut Draft) -> Result<(), AllocError>
    ensures lines { OnOk result (draft.new ≡ with_lines draft.old (unit_store place field)) }
    ensures kept { OnErr result (Keeps draft.old draft.new) }
{
    set_in_unit(place, field, draft)?;
    extract(field, draft)
}

// The address that waits comes into ptr1, and A stays.
fn pop_address(draft: &mut Draft) -> Result<(), AllocError>
    ensures lines { OnOk result (draft.new ≡ with_lines draft.old popped_code) }
    ensures kept { OnErr result (Keeps draft.old draft.new) }
{
    put(draft, &[Do(Sta, ZeroPage, Zero(TMP1))])?;
    run(draft, Routine::PopAx)?;
    put(
        draft,
        &[
            Do(Sta, ZeroPage, Zero(PTR1)),
            Do(Stx, ZeroPage, Zero(PTR1 + 1)),
            Do(Lda, ZeroPage, Zero(TMP1)),
        ],
    )
}

/// The bits of A that a mask has go into a byte, and A becomes that byte.
pub fn merge(mode: Mode, operand: Operand, mask: u8, draft: &mut Draft) -> Result<(), AllocError>
    ensures lines { OnOk result (draft.new ≡ with_lines draft.old (merged_code mode operand mask)) }
    ensures kept { OnErr result (Keeps draft.old draft.new) }
{
    if mask == 255 {
        put(draft, &[Do(Sta, mode, operand)])
    } else {
        put(
            draft,
            &[
                Do(Eor, mode, operand),
                Do(And, Immediate, Byte(mask)),
                Do(Eor, mode, operand),
                Do(Sta, mode, operand),
            ],
        )
    }
}

/// The same of the byte at a place; an address that waited is popped.
pub fn store_bits(place: Place, mask: u8, draft: &mut Draft) -> Result<(), AllocError>
    ensures lines { OnOk result (draft.new ≡ with_lines draft.old (bits_store place mask)) }
    ensures kept { OnErr result (Keeps draft.old draft.new) }
{
    match place {
        Place::Bank(at) => merge(ZeroPage, Zero(REGBANK.wrapping_add(at)), mask, draft),
        Place::Near(at) => {
            put(draft, &[Do(Ldy, Immediate, Byte(at))])?;
            merge(IndirectY, Zero(SP), mask, draft)
        }
        Place::Data(sym, at) => merge(Absolute, At(sym, at), mask, draft),
        Place::Far(at) => {
            pop_address(draft)?;
            put(draft, &[Do(Ldy, Immediate, Byte(at))])?;
            merge(IndirectY, Zero(PTR1), mask, draft)
        }
    }
}

// The other bits of the byte stay.
fn store_in_byte(place: Place, field: Field, draft: &mut Draft) -> Result<(), AllocError>
    ensures lines { OnOk result (draft.new ≡ with_lines draft.old (byte_store place field)) }
    ensures kept { OnErr result (Keeps draft.old draft.new) }
{
    put_up(field.low % 8, draft)?;
    store_bits(
        onward(settled(place), field.low / 8),
        own_bits(field),
        draft,
    )?;
    byte_value(field, draft)
}

fn store_field(place: Place, field: Field, draft: &mut Draft) -> Result<(), AllocError>
    ensures lines { OnOk result (draft.new ≡ with_lines draft.old (field_store place field)) }
    ensures kept { OnErr result (Keeps draft.old draft.new) }
{
    if is_in_byte(field) {
        store_in_byte(place, field, draft)
    } else if is_unit(field) {
        store_bytes(place, Extent::Two, draft)
    } else {
        store_in_unit(place, field, draft)
    }
}

/// The primary register goes to a place, and is what the place then holds. An address that waited is
/// popped.
pub fn store(place: Place, access: Access, draft: &mut Draft) -> Result<(), AllocError>
    ensures lines { OnOk result (draft.new ≡ with_lines draft.old (store_code place access)) }
    ensures kept { OnErr result (Keeps draft.old draft.new) }
{
    match access {
        Access::Whole(kind) => {
            store_bytes(place, extent_of(kind), draft)?;
            restore(place, kind, draft)
        }
        Access::Part(field) => store_field(place, field, draft),
    }
}

/// So many bytes are copied from the address in AX to the one that waits, which AX becomes (C90
/// 6.3.16.1).
pub fn copy(size: u32, draft: &mut Draft) -> Result<(), AllocError>
    ensures lines { OnOk result (draft.new ≡ with_lines draft.old (copy_code size)) }
    ensures kept { OnErr result (Keeps draft.old draft.new) }
{
    put(
        draft,
        &[
            Do(Tay, Implied, Nothing),
            Do(Lda, Immediate, Byte((size % 256) as u8)),
            Do(Sta, ZeroPage, Zero(PTR3)),
            Do(Lda, Immediate, Byte((size / 256 % 256) as u8)),
            Do(Sta, ZeroPage, Zero(PTR3 + 1)),
            Do(Tya, Implied, Nothing),
        ],
    )?;
    run(draft, Routine::CopyTos)
}
