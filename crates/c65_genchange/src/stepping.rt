// `++` and `--` whose value is used (C90 6.3.2.4, 6.3.3.1), of numbers that are changed where they lie.
ghost use Rattle.std.specs.Prelude.{◌≡◌, ◌∷◌, [], ◌++◌, if◌then◌else◌, OnOk, OnErr};
ghost use Rattle.c65_genwide.specs.Lines.{with_lines, Keeps};
ghost use Rattle.c65_mach.specs.declared.rows.Op.TheVariants.{Pla};
ghost use Rattle.c65_genload.specs.Words.{implied};
ghost use Rattle.c65_genload.specs.Loads.{load_code, bytes_code};
ghost use Rattle.c65_genload.specs.Places.{extent_of};
ghost use Rattle.c65_genload.specs.declared.places.Access.TheVariants.{Whole};
ghost use Rattle.c65_genchange.specs.Spots.{point_code};
ghost use Rattle.c65_genchange.specs.Stepping.{is_post, step_op, down_behind_code, counted_code, front_code, behind_code, summed_code, stepped_code};

use crate::changes::{
    instruction, put_carry, put_down, put_first, put_label, put_next, put_over, put_up,
};
use crate::spots::{Target, all_counted, put_point, put_reach};
use c65_base::{BinaryOp, StepKind};
use c65_code::Draft;
use c65_code::Line::Do;
use c65_code::Operand::{Byte, Nothing};
use c65_genload::{Access, Place, extent_of, first, load, load_bytes, second};
use c65_genwide::{narrow, put};
use c65_ints::IntType;
use c65_mach::Mode::{Immediate, Implied};
use c65_mach::Op::{Dec, Pha, Pla, Sta, Tax, Tay, Txa};
use std::alloc::AllocError;

/// Whether the value is that before the step.
pub fn is_post(how: StepKind) -> bool
    ensures { result ≡ is_post how }
{
    match how {
        StepKind::PostInc | StepKind::PostDec => true,
        StepKind::PreInc | StepKind::PreDec => false,
    }
}

/// The operator by which a step changes a number.
pub fn step_op(how: StepKind) -> BinaryOp
    ensures { result ≡ step_op how }
{
    match how {
        StepKind::PreInc | StepKind::PostInc => BinaryOp::Add,
        StepKind::PreDec | StepKind::PostDec => BinaryOp::Sub,
    }
}

// One less than what is in AX: the high byte goes down where the low one is 0.
fn put_down_behind(target: Target, label: u32, draft: &mut Draft) -> Result<(), AllocError>
    ensures lines { OnOk result (draft.new ≡ with_lines draft.old (down_behind_code target label)) }
    ensures kept { OnErr result (Keeps draft.old draft.new) }
{
    match target {
        Target::Byte(_) => put_down(target, label, draft),
        Target::Word(low, high) => {
            put(draft, &[Do(Tay, Implied, Nothing)])?;
            put_over(label, draft)?;
            put_reach(Dec, high, draft)?;
            put_label(label, draft)?;
            put_reach(Dec, low, draft)
        }
    }
}

// By one, where instructions count.
fn put_counted(
    how: StepKind,
    place: Place,
    kind: IntType,
    target: Target,
    label: u32,
    draft: &mut Draft,
) -> Result<(), AllocError>
    ensures lines { OnOk result (draft.new ≡ with_lines draft.old (counted_code how target label (load_code place (Whole kind)))) }
    ensures kept { OnErr result (Keeps draft.old draft.new) }
{
    match how {
        StepKind::PreInc => {
            put_up(target, label, draft)?;
            load(place, Access::Whole(kind), draft)
        }
        StepKind::PreDec => {
            put_down(target, label, draft)?;
            load(place, Access::Whole(kind), draft)
        }
        StepKind::PostInc => {
            load(place, Access::Whole(kind), draft)?;
            put_up(target, label, draft)
        }
        StepKind::PostDec => {
            load(place, Access::Whole(kind), draft)?;
            put_down_behind(target, label, draft)
        }
    }
}

// The value behind a step by so many bytes comes to AX, and of a byte to A.
fn put_front(op: BinaryOp, size: u32, target: Target, draft: &mut Draft) -> Result<(), AllocError>
    ensures lines { OnOk result (draft.new ≡ with_lines draft.old (front_code op size target)) }
    ensures kept { OnErr result (Keeps draft.old draft.new) }
{
    match target {
        Target::Byte(low) => put_first(op, first(size), low, draft),
        Target::Word(low, high) => {
            put_first(op, first(size), low, draft)?;
            put(draft, &[Do(Pha, Implied, Nothing)])?;
            put_next(op, second(size), high, draft)?;
            put(
                draft,
                &[Do(Tax, Implied, Nothing), Do(Pla, Implied, Nothing)],
            )
        }
    }
}

fn put_pull(draft: &mut Draft) -> Result<(), AllocError>
    ensures lines { OnOk result (draft.new ≡ with_lines draft.old (implied Pla ∷ [])) }
    ensures kept { OnErr result (Keeps draft.old draft.new) }
{
    put(draft, &[Do(Pla, Implied, Nothing)])
}

// From the value before the step, which is there and stays.
fn put_behind(op: BinaryOp, size: u32, target: Target, draft: &mut Draft) -> Result<(), AllocError>
    ensures lines { OnOk result (draft.new ≡ with_lines draft.old (behind_code op size target)) }
    ensures kept { OnErr result (Keeps draft.old draft.new) }
{
    put(draft, &[Do(Pha, Implied, Nothing)])?;
    put_carry(op, draft)?;
    put(draft, &[Do(instruction(op), Immediate, Byte(first(size)))])?;
    match target {
        Target::Byte(low) => {
            put_reach(Sta, low, draft)?;
            put_pull(draft)
        }
        Target::Word(low, high) => {
            put_reach(Sta, low, draft)?;
            put(
                draft,
                &[
                    Do(Txa, Implied, Nothing),
                    Do(instruction(op), Immediate, Byte(second(size))),
                ],
            )?;
            put_reach(Sta, high, draft)?;
            put_pull(draft)
        }
    }
}

// By so many bytes. The address of a place that is anywhere goes from AX to ptr1.
fn put_sum(
    how: StepKind,
    size: u32,
    place: Place,
    kind: IntType,
    target: Target,
    draft: &mut Draft,
) -> Result<(), AllocError>
    ensures lines { OnOk result (draft.new ≡ with_lines draft.old (if is_post how then bytes_code place (extent_of kind) ++ behind_code (step_op how) size target else point_code place ++ front_code (step_op how) size target)) }
    ensures kept { OnErr result (Keeps draft.old draft.new) }
{
    if is_post(how) {
        load_bytes(place, extent_of(kind), draft)?;
        put_behind(step_op(how), size, target, draft)
    } else {
        put_point(place, draft)?;
        put_front(step_op(how), size, target, draft)
    }
}

fn put_summed(
    how: StepKind,
    size: u32,
    place: Place,
    kind: IntType,
    target: Target,
    draft: &mut Draft,
) -> Result<(), AllocError>
    ensures lines { OnOk result (draft.new ≡ with_lines draft.old (summed_code how size place kind target)) }
    ensures kept { OnErr result (Keeps draft.old draft.new) }
{
    put_sum(how, size, place, kind, target, draft)?;
    narrow(kind, draft)
}

/// Puts a step by so many bytes of a number of this type, behind the base of the place at which it lies. Its
/// value comes to AX, as before the step or as behind it. The label is placed.
pub fn put_stepped(
    how: StepKind,
    size: u32,
    place: Place,
    kind: IntType,
    target: Target,
    label: u32,
    draft: &mut Draft,
) -> Result<(), AllocError>
    ensures lines { OnOk result (draft.new ≡ with_lines draft.old (stepped_code how size place kind target label)) }
    ensures kept { OnErr result (Keeps draft.old draft.new) }
{
    if size == 1 && all_counted(target) {
        put_counted(how, place, kind, target, label, draft)
    } else {
        put_summed(how, size, place, kind, target, draft)?;
        put_label(label, draft)
    }
}
