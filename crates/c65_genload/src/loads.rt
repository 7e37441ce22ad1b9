// Values taken from where they are kept (C90 6.2.2.1).
ghost use Rattle.std.specs.Prelude.{◌≡◌, OnOk, OnErr};
ghost use Rattle.c65_genwide.specs.Lines.{with_lines, Keeps};
ghost use Rattle.c65_genload.specs.declared.places.Extent.TheVariants.{Three};
ghost use Rattle.c65_genload.specs.Loads.{hold_code, bank_code, near_code, data_code, far_code, bytes_code, field_load, load_code};

use crate::address::put_offset;
use crate::fields::{byte_value, extract, is_in_byte};
use crate::places::{Access, Extent, Field, Place, extent_of, onward};
use crate::zero_page::{PTR1, REGBANK, SP, SREG};
use c65_code::Line::Do;
use c65_code::Operand::{At, Byte, Nothing, Zero};
use c65_code::{Draft, Routine, Sym};
use c65_genwide::{narrow, put, run};
use c65_mach::Mode::{Absolute, Immediate, Implied, IndirectY, ZeroPage};
use c65_mach::Op::{Dey, Lda, Ldx, Ldy, Sta, Stx, Tax};
use std::alloc::AllocError;

/// The address of a place that is anywhere goes onto the software stack, and stays in AX. Before, AX is
/// the address from which the place tells how far.
pub fn hold(place: Place, draft: &mut Draft) -> Result<(), AllocError>
    ensures lines { OnOk result (draft.new ≡ with_lines draft.old (hold_code place)) }
    ensures kept { OnErr result (Keeps draft.old draft.new) }
{
    match place {
        Place::Far(at) => {
            put_offset(at as u32, draft)?;
            run(draft, Routine::PushAx)
        }
        Place::Bank(_) | Place::Near(_) | Place::Data(_, _) => put(draft, &[]),
    }
}

// Of regbank at most two bytes.
fn load_bank(at: u8, extent: Extent, draft: &mut Draft) -> Result<(), AllocError>
    ensures lines { OnOk result (draft.new ≡ with_lines draft.old (bank_code at extent)) }
    ensures kept { OnErr result (Keeps draft.old draft.new) }
{
    let byte = REGBANK.wrapping_add(at);
    match extent {
        Extent::One => put(draft, &[Do(Lda, ZeroPage, Zero(byte))]),
        Extent::Two | Extent::Three | Extent::Four => put(
            draft,
            &[
                Do(Lda, ZeroPage, Zero(byte)),
                Do(Ldx, ZeroPage, Zero(byte.wrapping_add(1))),
            ],
        ),
    }
}

fn load_near(at: u8, extent: Extent, draft: &mut Draft) -> Result<(), AllocError>
    ensures lines { OnOk result (draft.new ≡ with_lines draft.old (near_code at extent)) }
    ensures kept { OnErr result (Keeps draft.old draft.new) }
{
    match extent {
        Extent::One => put(
            draft,
            &[Do(Ldy, Immediate, Byte(at)), Do(Lda, IndirectY, Zero(SP))],
        ),
        Extent::Two => {
            put(draft, &[Do(Ldy, Immediate, Byte(at.wrapping_add(1)))])?;
            run(draft, Routine::LdAxYSp)
        }
        Extent::Three => {
            put(
                draft,
                &[
                    Do(Ldy, Immediate, Byte(at.wrapping_add(2))),
                    Do(Lda, IndirectY, Zero(SP)),
                    Do(Sta, ZeroPage, Zero(SREG)),
                    Do(Dey, Implied, Nothing),
                ],
            )?;
            run(draft, Routine::LdAxYSp)
        }
        Extent::Four => {
            put(draft, &[Do(Ldy, Immediate, Byte(at.wrapping_add(3)))])?;
            run(draft, Routine::LdEaxYSp)
        }
    }
}

fn load_data(sym: Sym, at: u16, extent: Extent, draft: &mut Draft) -> Result<(), AllocError>
    ensures lines { OnOk result (draft.new ≡ with_lines draft.old (data_code sym at extent)) }
    ensures kept { OnErr result (Keeps draft.old draft.new) }
{
    match extent {
        Extent::One => put(draft, &[Do(Lda, Absolute, At(sym, at))]),
        Extent::Two => put(
            draft,
            &[
                Do(Lda, Absolute, At(sym, at)),
                Do(Ldx, Absolute, At(sym, at.wrapping_add(1))),
            ],
        ),
        Extent::Three => put(
            draft,
            &[
                Do(Lda, Absolute, At(sym, at.wrapping_add(2))),
                Do(Sta, ZeroPage, Zero(SREG)),
                Do(Lda, Absolute, At(sym, at)),
                Do(Ldx, Absolute, At(sym, at.wrapping_add(1))),
            ],
        ),
        Extent::Four => put(
            draft,
            &[
                Do(Lda, Absolute, At(sym, at.wrapping_add(2))),
                Do(Sta, ZeroPage, Zero(SREG)),
                Do(Lda, Absolute, At(sym, at.wrapping_add(3))),
                Do(Sta, ZeroPage, Zero(SREG + 1)),
                Do(Lda, Absolute, At(sym, at)),
                Do(Ldx, Absolute, At(sym, at.wrapping_add(1))),
            ],
        ),
    }
}

// No byte behind the third one is read.
fn load_three(at: u8, draft: &mut Draft) -> Result<(), AllocError>
    ensures lines { OnOk result (draft.new ≡ with_lines draft.old (far_code at Three)) }
    ensures kept { OnErr result (Keeps draft.old draft.new) }
{
    let third = at.wrapping_add(2);
    put(
        draft,
        &[
            Do(Sta, ZeroPage, Zero(PTR1)),
            Do(Stx, ZeroPage, Zero(PTR1 + 1)),
            Do(Ldy, Immediate, Byte(third)),
            Do(Lda, IndirectY, Zero(PTR1)),
            Do(Sta, ZeroPage, Zero(SREG)),
            Do(Dey, Implied, Nothing),
            Do(Lda, IndirectY, Zero(PTR1)),
            Do(Tax, Implied, Nothing),
            Do(Dey, Implied, Nothing),
            Do(Lda, IndirectY, Zero(PTR1)),
        ],
    )
}

fn load_far(at: u8, extent: Extent, draft: &mut Draft) -> Result<(), AllocError>
    ensures lines { OnOk result (draft.new ≡ with_lines draft.old (far_code at extent)) }
    ensures kept { OnErr result (Keeps draft.old draft.new) }
{
    match extent {
        Extent::One => put(
            draft,
            &[
                Do(Sta, ZeroPage, Zero(PTR1)),
                Do(Stx, ZeroPage, Zero(PTR1 + 1)),
                Do(Ldy, Immediate, Byte(at)),
                Do(Lda, IndirectY, Zero(PTR1)),
            ],
        ),
        Extent::Two => put(
            draft,
            &[
                Do(Sta, ZeroPage, Zero(PTR1)),
                Do(Stx, ZeroPage, Zero(PTR1 + 1)),
                Do(Ldy, Immediate, Byte(at.wrapping_add(1))),
                Do(Lda, IndirectY, Zero(PTR1)),
                Do(Tax, Implied, Nothing),
                Do(Dey, Implied, Nothing),
                Do(Lda, IndirectY, Zero(PTR1)),
            ],
        ),
        Extent::Three => load_three(at, draft),
        Extent::Four => {
            put_offset(at as u32, draft)?;
            run(draft, Routine::LdEaxi)
        }
    }
}

/// The bytes at a place come into A, into A and X, or into A, X and sreg; three of them leave the high
/// byte of sreg. Before, AX is the address from which a place that is anywhere tells how far.
pub fn load_bytes(place: Place, extent: Extent, draft: &mut Draft) -> Result<(), AllocError>
    ensures lines { OnOk result (draft.new ≡ with_lines draft.old (bytes_code place extent)) }
    ensures kept { OnErr result (Keeps draft.old draft.new) }
{
    match place {
        Place::Bank(at) => load_bank(at, extent, draft),
        Place::Near(at) => load_near(at, extent, draft),
        Place::Data(sym, at) => load_data(sym, at, extent, draft),
        Place::Far(at) => load_far(at, extent, draft),
    }
}

// Of a field in one byte that byte alone is read.
fn load_field(place: Place, field: Field, draft: &mut Draft) -> Result<(), AllocError>
    ensures lines { OnOk result (draft.new ≡ with_lines draft.old (field_load place field)) }
    ensures kept { OnErr result (Keeps draft.old draft.new) }
{
    if is_in_byte(field) {
        load_bytes(onward(place, field.low / 8), Extent::One, draft)?;
        byte_value(field, draft)
    } else {
        load_bytes(place, Extent::Two, draft)?;
        extract(field, draft)
    }
}

/// The value that is kept at a place comes into the primary register. Before, AX is the
/// address from which a place that is anywhere tells how far.
pub fn load(place: Place, access: Access, draft: &mut Draft) -> Result<(), AllocError>
    ensures lines { OnOk result (draft.new ≡ with_lines draft.old (load_code place access)) }
    ensures kept { OnErr result (Keeps draft.old draft.new) }
{
    match access {
        Access::Whole(kind) => {
            load_bytes(place, extent_of(kind), draft)?;
            narrow(kind, draft)
        }
        Access::Part(field) => load_field(place, field, draft),
    }
}
