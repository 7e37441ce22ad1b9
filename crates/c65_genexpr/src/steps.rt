// Values that are changed where they are kept (C90 6.3.2.4, 6.3.3.1, 6.3.16.2).
ghost use Rattle.std.specs.Prelude.{◌≡◌, OnOk, OnErr};
ghost use Rattle.c65_ctype.specs.Views.{ty_of};
ghost use Rattle.c65_genwide.specs.Lines.{with_lines, Keeps};
ghost use Rattle.c65_genexpr.specs.Steps.{is_up, amount_of, back_code, after_code, long_step_code, step_code, open_code, close_code};

use crate::constants::negative;
use crate::operands::{Operands, computes, put_behind};
use crate::types::target_bytes;
use c65_base::{BinaryOp, StepKind};
use c65_code::Draft;
use c65_code::Line::Label;
use c65_ctype::CType;
use c65_genchange::{is_post, put_stepped, target_of};
use c65_genframe::Frame;
use c65_genload::{
    Access, Place, add, convert, hold, in_field, load, push, settled, store, value_type,
};
use c65_genwide::{put, width_of};
use c65_ints::IntType;
use std::alloc::AllocError;

fn is_up(how: StepKind) -> bool
    ensures { result ≡ is_up how }
{
    match how {
        StepKind::PreInc | StepKind::PostInc => true,
        StepKind::PreDec | StepKind::PostDec => false,
    }
}

/// What a step adds, modulo 2 to the 32: one, or the bytes of an element.
pub fn amount_of(frame: &Frame<'_>, how: StepKind, ty: &CType) -> u32
    ensures { result ≡ amount_of frame.now how (ty_of ty.now) }
{
    let size = target_bytes(frame, ty);
    if is_up(how) { size } else { negative(size) }
}

// The value before, from the one behind the step.
fn put_back(access: Access, amount: u32, draft: &mut Draft) -> Result<(), AllocError>
    ensures lines { OnOk result (draft.new ≡ with_lines draft.old (back_code access amount)) }
    ensures kept { OnErr result (Keeps draft.old draft.new) }
{
    match access {
        Access::Whole(kind) => add(kind, negative(amount), draft),
        Access::Part(field) => {
            add(field.kind, negative(amount), draft)?;
            in_field(field, draft)
        }
    }
}

fn put_after(
    how: StepKind,
    access: Access,
    amount: u32,
    draft: &mut Draft,
) -> Result<(), AllocError>
    ensures lines { OnOk result (draft.new ≡ with_lines draft.old (after_code how access amount)) }
    ensures kept { OnErr result (Keeps draft.old draft.new) }
{
    if is_post(how) {
        put_back(access, amount, draft)
    } else {
        put(draft, &[])
    }
}

// Of bit-fields, and of numbers of four bytes. The value behind the step is the one before it and an amount, modulo 2
// to the width, so either is had from the other.
fn put_long_step(
    how: StepKind,
    place: Place,
    access: Access,
    amount: u32,
    draft: &mut Draft,
) -> Result<(), AllocError>
    ensures lines { OnOk result (draft.new ≡ with_lines draft.old (long_step_code how place access amount)) }
    ensures kept { OnErr result (Keeps draft.old draft.new) }
{
    hold(place, draft)?;
    load(settled(place), access, draft)?;
    add(value_type(access), amount, draft)?;
    store(place, access, draft)?;
    put_after(how, access, amount, draft)
}

/// `++` and `--` by so many bytes, which add this amount, behind the base of a place. The label is placed.
pub fn put_step(
    how: StepKind,
    size: u32,
    amount: u32,
    place: Place,
    access: Access,
    label: u32,
    draft: &mut Draft,
) -> Result<(), AllocError>
    ensures lines { OnOk result (draft.new ≡ with_lines draft.old (step_code how size amount place access label)) }
    ensures kept { OnErr result (Keeps draft.old draft.new) }
{
    match target_of(place, access) {
        Some(target) => { put_stepped(how, size, place, value_type(access), target, label, draft) }
        None => {
            put_long_step(how, place, access, amount, draft)?;
            put(draft, &[Label(label)])
        }
    }
}

/// Behind the address of the left side of a compound assignment: its value waits, in the type in
/// which the operator computes, above an address that waits.
pub fn put_open(
    place: Place,
    access: Access,
    kind: IntType,
    draft: &mut Draft,
) -> Result<(), AllocError>
    ensures lines { OnOk result (draft.new ≡ with_lines draft.old (open_code place access kind)) }
    ensures kept { OnErr result (Keeps draft.old draft.new) }
{
    hold(place, draft)?;
    load(settled(place), access, draft)?;
    convert(value_type(access), kind, draft)?;
    push(width_of(kind), draft)
}

/// Behind the right side of a compound assignment, which is of this type.
pub fn put_close(
    op: BinaryOp,
    operands: Operands,
    right: IntType,
    place: Place,
    access: Access,
    draft: &mut Draft,
) -> Result<(), AllocError>
    ensures lines { OnOk result (draft.new ≡ with_lines draft.old (close_code op operands right place access)) }
    ensures kept { OnErr result (Keeps draft.old draft.new) }
{
    put_behind(op, operands, right, draft)?;
    convert(computes(operands), value_type(access), draft)?;
    store(place, access, draft)
}
