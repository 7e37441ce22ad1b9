// Expressions whose value is not used (C90 6.3.2.4, 6.3.3.1, 6.3.16, 6.3.17, 6.6.3).
ghost use Rattle.std.specs.Prelude.{◌≡◌, ◌+◌, None, OnOk, OnErr};
ghost use Rattle.c65_csem.specs.Views.{typed_of};
ghost use Rattle.c65_ctype.specs.Views.{types_of};
ghost use Rattle.c65_genwide.specs.Lines.{grown, Keeps};
ghost use Rattle.c65_genexpr.specs.declared.destination.Destination.TheVariants.{Registers};
ghost use Rattle.c65_genexpr.specs.declared.wanted.Wanted.TheVariants.{Value};
ghost use Rattle.c65_genexpr.specs.Code.{expr_code, base_code};
ghost use Rattle.c65_genexpr.specs.Places.{place_of};
ghost use Rattle.c65_genexpr.specs.Types.{access_of};
ghost use Rattle.c65_genexpr.specs.Uses.{uses};
ghost use Rattle.c65_geneffect.specs.Changing.{filling_of};
ghost use Rattle.c65_geneffect.specs.Placing.{placing_of};
ghost use Rattle.c65_geneffect.specs.Effects.{changed_code, placed_code, filled_or, set_code, step_effect, effect_code, effect_uses};

use crate::changing::{Changing, changing_of, filling_of, in_front, stepping_of};
use crate::placing::{
    Placing, placing_of, put_behind_value, put_held_value, put_index_waits, put_later_value,
    put_read, put_value_waits,
};
use crate::setting::{Setting, setting_of};
use c65_base::{BinaryOp, StepKind};
use c65_code::Draft;
use c65_code::Line::Label;
use c65_csem::{TExpr, TKind};
use c65_genchange::{put_change, put_fill};
use c65_genexpr::{
    Destination, Operands, PTR2, Wanted, access_of, amount_of, computes, leave_out, leave_sum,
    more, place_of, put_base, put_expr, put_form, put_index, put_keep, put_step, target_bytes,
};
use c65_genfield::{put_behind, put_set, put_set_number};
use c65_genframe::Frame;
use c65_genload::{convert, held, hold, load, store, value_type};
use c65_genwide::{next_label, put};
use std::alloc::AllocError;

/// Puts the lines of an expression whose value is not used, where so many bytes wait.
#[tactic(auto, using(c65_genwide::proofs::Kept::kept_then, c65_genwide::proofs::Kept::kept_last, c65_genwide::proofs::Kept::grown_then, c65_genwide::proofs::Kept::grown_last, c65_genwide::proofs::Kept::label_then, c65_genwide::proofs::Kept::label_last, c65_genwide::proofs::Kept::refused_then))]
pub fn put_effect(
    e: &TExpr,
    frame: &Frame<'_>,
    pushed: u16,
    draft: &mut Draft,
) -> Result<(), AllocError>
    ensures lines { OnOk result (draft.new ≡ grown draft.old (effect_code frame.now pushed draft.old.labels (typed_of e.now)) (effect_uses (typed_of e.now))) }
    ensures kept { OnErr result (Keeps draft.old draft.new) }
{
    match &e.kind {
        TKind::Convert(a) => put_effect(a, frame, pushed, draft),
        TKind::Comma(a, b) => {
            put_effect(a, frame, pushed, draft)?;
            put_effect(b, frame, pushed, draft)
        }
        TKind::Assign(a, b) => put_placed(e, a, b, frame, pushed, draft),
        TKind::AssignOp(op, kind, a, b) => {
            let operands = Operands::Numbers(*kind);
            put_changed(e, a, b, *op, operands, 1, frame, pushed, draft)
        }
        TKind::AssignStep(op, a, b) => {
            let size = target_bytes(frame, &a.ty.ty);
            let operands = Operands::PointerFirst(size);
            put_changed(e, a, b, *op, operands, size, frame, pushed, draft)
        }
        TKind::Step(how, a) => put_stepped(*how, a, frame, pushed, draft),
        TKind::Const(_)
        | TKind::Null
        | TKind::Literal(_)
        | TKind::Object(_)
        | TKind::Func(_)
        | TKind::Deref(_) => put_expr(e, frame, pushed, draft),
        TKind::Member(_, _) | TKind::Load(_) | TKind::Address(_) | TKind::Decay(_) => {
            put_expr(e, frame, pushed, draft)
        }
        TKind::Unary(_, _) | TKind::Binary(_, _, _) | TKind::And(_, _) | TKind::Or(_, _) => {
            put_expr(e, frame, pushed, draft)
        }
        TKind::Cond(_, _, _) | TKind::Copy(_, _) | TKind::Call(_, _) => {
            put_expr(e, frame, pushed, draft)
        }
        TKind::Pack(_) | TKind::Spill(_, _) | TKind::Rest => put_expr(e, frame, pushed, draft),
    }
}

// `=` on an element of a small array, or else on scalars
#[tactic(auto, using(c65_genwide::proofs::Kept::kept_then, c65_genwide::proofs::Kept::kept_last, c65_genwide::proofs::Kept::grown_then, c65_genwide::proofs::Kept::grown_last, c65_genwide::proofs::Kept::label_then, c65_genwide::proofs::Kept::label_last, c65_genwide::proofs::Kept::refused_then))]
fn put_placed(
    e: &TExpr,
    a: &TExpr,
    b: &TExpr,
    frame: &Frame<'_>,
    pushed: u16,
    draft: &mut Draft,
) -> Result<(), AllocError>
    requires { uses None (typed_of e.now) ≡ uses None (typed_of a.now) + uses None (typed_of b.now) }
    ensures lines { OnOk result (draft.new ≡ grown draft.old (placed_code frame.now pushed draft.old.labels (placing_of frame.now pushed (typed_of a.now) (typed_of b.now)) (typed_of a.now) (typed_of b.now) (filled_or (filling_of (place_of frame.now pushed (typed_of a.now)) (access_of (types_of frame.now.parts.types) (typed_of a.now)) (typed_of b.now)) (base_code frame.now pushed draft.old.labels Registers (typed_of a.now)) (set_code frame.now pushed draft.old.labels (typed_of a.now) (typed_of b.now) (expr_code frame.now pushed draft.old.labels Value (typed_of e.now))))) (uses None (typed_of e.now))) }
    ensures kept { OnErr result (Keeps draft.old draft.new) }
{
    match placing_of(frame, pushed, a, b) {
        Placing::Read(element, low, high) => {
            put_index(a, frame, pushed, draft)?;
            leave_out(b, Wanted::Value, draft)?;
            put_read(element, low, high, draft)
        }
        Placing::Behind(element, extent, index) => {
            leave_sum(draft)?;
            put_expr(b, frame, pushed, draft)?;
            put_behind_value(element, extent, index, draft)
        }
        Placing::Held(element, extent) => {
            put_index(a, frame, pushed, draft)?;
            put_index_waits(element, draft)?;
            put_expr(b, frame, pushed, draft)?;
            put_held_value(element, extent, draft)
        }
        Placing::Later(element, extent) => {
            put_expr(b, frame, pushed, draft)?;
            put_value_waits(extent, draft)?;
            put_index(a, frame, pushed, draft)?;
            put_later_value(element, extent, draft)
        }
        Placing::Otherwise => put_filled(e, a, b, frame, pushed, draft),
    }
}

// `=` on scalars
#[tactic(auto, using(c65_genwide::proofs::Kept::kept_then, c65_genwide::proofs::Kept::kept_last, c65_genwide::proofs::Kept::grown_then, c65_genwide::proofs::Kept::grown_last, c65_genwide::proofs::Kept::label_then, c65_genwide::proofs::Kept::label_last, c65_genwide::proofs::Kept::refused_then))]
fn put_filled(
    e: &TExpr,
    a: &TExpr,
    b: &TExpr,
    frame: &Frame<'_>,
    pushed: u16,
    draft: &mut Draft,
) -> Result<(), AllocError>
    requires { uses None (typed_of e.now) ≡ uses None (typed_of a.now) + uses None (typed_of b.now) }
    ensures lines { OnOk result (draft.new ≡ grown draft.old (filled_or (filling_of (place_of frame.now pushed (typed_of a.now)) (access_of (types_of frame.now.parts.types) (typed_of a.now)) (typed_of b.now)) (base_code frame.now pushed draft.old.labels Registers (typed_of a.now)) (set_code frame.now pushed draft.old.labels (typed_of a.now) (typed_of b.now) (expr_code frame.now pushed draft.old.labels Value (typed_of e.now)))) (uses None (typed_of e.now))) }
    ensures kept { OnErr result (Keeps draft.old draft.new) }
{
    let access = access_of(&frame.parts().types, a);
    match filling_of(frame, pushed, access, a, b) {
        Some(fill) => {
            put_base(a, Destination::Registers, frame, pushed, draft)?;
            leave_out(b, Wanted::Value, draft)?;
            put_fill(fill.byte, fill.low, fill.high, draft)
        }
        None => put_field_set(e, a, b, frame, pushed, draft),
    }
}

// `=` on a bit-field, or else for its value
#[tactic(auto, using(c65_genwide::proofs::Kept::kept_then, c65_genwide::proofs::Kept::kept_last, c65_genwide::proofs::Kept::grown_then, c65_genwide::proofs::Kept::grown_last, c65_genwide::proofs::Kept::label_then, c65_genwide::proofs::Kept::label_last, c65_genwide::proofs::Kept::refused_then))]
fn put_field_set(
    e: &TExpr,
    a: &TExpr,
    b: &TExpr,
    frame: &Frame<'_>,
    pushed: u16,
    draft: &mut Draft,
) -> Result<(), AllocError>
    requires { uses None (typed_of e.now) ≡ uses None (typed_of a.now) + uses None (typed_of b.now) }
    ensures lines { OnOk result (draft.new ≡ grown draft.old (set_code frame.now pushed draft.old.labels (typed_of a.now) (typed_of b.now) (expr_code frame.now pushed draft.old.labels Value (typed_of e.now))) (uses None (typed_of e.now))) }
    ensures kept { OnErr result (Keeps draft.old draft.new) }
{
    let place = place_of(frame, pushed, a);
    let access = access_of(&frame.parts().types, a);
    match setting_of(frame, pushed, access, a, b) {
        Setting::Number(field, number) => {
            put_base(a, Destination::Pointer, frame, pushed, draft)?;
            leave_out(b, Wanted::Value, draft)?;
            put_set_number(place, field, number, draft)
        }
        Setting::Held(field, at) => {
            put_base(a, Destination::Registers, frame, pushed, draft)?;
            put_keep(draft)?;
            put_expr(b, frame, pushed, draft)?;
            put_behind(PTR2, at, field, draft)
        }
        Setting::Loaded(field) => {
            put_base(a, Destination::Registers, frame, pushed, draft)?;
            hold(place, draft)?;
            put_expr(b, frame, more(pushed, held(place)), draft)?;
            put_set(place, field, draft)
        }
        Setting::Otherwise => put_expr(e, frame, pushed, draft),
    }
}

// An assignment with an operator; elements have so many bytes.
#[tactic(auto, using(c65_genwide::proofs::Kept::kept_then, c65_genwide::proofs::Kept::kept_last, c65_genwide::proofs::Kept::grown_then, c65_genwide::proofs::Kept::grown_last, c65_genwide::proofs::Kept::label_then, c65_genwide::proofs::Kept::label_last, c65_genwide::proofs::Kept::refused_then))]
fn put_changed(
    e: &TExpr,
    a: &TExpr,
    b: &TExpr,
    op: BinaryOp,
    operands: Operands,
    size: u32,
    frame: &Frame<'_>,
    pushed: u16,
    draft: &mut Draft,
) -> Result<(), AllocError>
    requires { uses None (typed_of e.now) ≡ uses None (typed_of a.now) + uses None (typed_of b.now) }
    ensures lines { OnOk result (draft.new ≡ grown draft.old (changed_code frame.now pushed draft.old.labels op operands size (typed_of a.now) (typed_of b.now) (expr_code frame.now pushed (draft.old.labels + 1) Value (typed_of e.now))) (1 + (uses None (typed_of a.now) + uses None (typed_of b.now)))) }
    ensures kept { OnErr result (Keeps draft.old draft.new) }
{
    let label = next_label(draft)?;
    let place = place_of(frame, pushed, a);
    let access = access_of(&frame.parts().types, a);
    match changing_of(op, operands, size, frame, pushed, access, a, b) {
        Changing::Fixed(change) => {
            put_base(a, Destination::Pointer, frame, pushed, draft)?;
            leave_out(b, Wanted::Value, draft)?;
            put_change(change, label, draft)
        }
        Changing::Loaded(change) => {
            put_base(a, Destination::Pointer, frame, pushed, draft)?;
            put_expr(b, frame, pushed, draft)?;
            put_change(change, label, draft)
        }
        Changing::Computed(form) => {
            let kind = computes(operands);
            put_base(a, Destination::Registers, frame, pushed, draft)?;
            leave_out(b, Wanted::Value, draft)?;
            load(place, access, draft)?;
            convert(value_type(access), kind, draft)?;
            put_form(Destination::Registers, form, label, draft)?;
            convert(kind, value_type(access), draft)?;
            store(place, access, draft)
        }
        Changing::Otherwise => {
            put_expr(e, frame, pushed, draft)?;
            put(draft, &[Label(label)])
        }
    }
}

// `++` and `--`
#[tactic(auto, using(c65_genwide::proofs::Kept::kept_then, c65_genwide::proofs::Kept::kept_last, c65_genwide::proofs::Kept::grown_then, c65_genwide::proofs::Kept::grown_last, c65_genwide::proofs::Kept::label_then, c65_genwide::proofs::Kept::label_last, c65_genwide::proofs::Kept::refused_then))]
fn put_stepped(
    how: StepKind,
    a: &TExpr,
    frame: &Frame<'_>,
    pushed: u16,
    draft: &mut Draft,
) -> Result<(), AllocError>
    ensures lines { OnOk result (draft.new ≡ grown draft.old (step_effect frame.now pushed draft.old.labels how (typed_of a.now)) (1 + uses None (typed_of a.now))) }
    ensures kept { OnErr result (Keeps draft.old draft.new) }
{
    let label = next_label(draft)?;
    let place = place_of(frame, pushed, a);
    let access = access_of(&frame.parts().types, a);
    let size = target_bytes(frame, &a.ty.ty);
    match stepping_of(how, size, place, access) {
        Some(change) => {
            put_base(a, Destination::Pointer, frame, pushed, draft)?;
            put_change(change, label, draft)
        }
        None => {
            let front = in_front(how);
            put_base(a, Destination::Registers, frame, pushed, draft)?;
            let amount = amount_of(frame, front, &a.ty.ty);
            put_step(front, size, amount, place, access, label, draft)
        }
    }
}
