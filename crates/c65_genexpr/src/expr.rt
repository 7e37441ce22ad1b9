// Expressions (C90 6.3).
ghost use Rattle.std.specs.Prelude.{◌≡◌, [], ◌+◌, true, false, not, Some, None, OnOk, IfOk, OnErr};
ghost use Rattle.c65_csem.specs.Views.{typed_of, nodes_of};
ghost use Rattle.c65_genwide.specs.Lines.{grown, Keeps};
ghost use Rattle.c65_genexpr.specs.Arguments.{passed_of};
ghost use Rattle.c65_genexpr.specs.Wanted.{sense_of, is_straight, way_labels};
ghost use Rattle.c65_genexpr.specs.declared.wanted.Wanted.TheVariants.{Value, Test};
ghost use Rattle.c65_genexpr.specs.Comparing.{on, low_code, relation_by};
ghost use Rattle.c65_genexpr.specs.Leaving.{IsFree};
ghost use Rattle.c65_genexpr.specs.Lows.{byte_in};
ghost use Rattle.c65_genexpr.specs.Uses.{uses, index_uses, sum_index_uses, head_uses, args_uses, unary_uses, comparison_uses};
ghost use Rattle.c65_genexpr.specs.Code.{expr_code, base_code, base_lines, part_base_code, pointer_base_code, pointer_lines, pointer_labels, load_code, kept_test_code, low_load_code, low_value_code, low_lines, index_code, sum_index_code, plain_test_code, unary_value_code, operator_code, comparison_code, joint_code, choice_code, assign_code, step_value_code, compound_code, call_code, args_code};

use crate::arguments::Passed;
use crate::arguments::argument_bytes;
use crate::arguments::is_counted;
use crate::arguments::is_fast;
use crate::arguments::joined;
use crate::arguments::passed_size;
use crate::arguments::put_argument;
use crate::arguments::stays;
use crate::calls::named;
use crate::calls::put_direct;
use crate::calls::put_named;
use crate::calls::put_pointer;
use crate::comparing::Comparing;
use crate::comparing::Side;
use crate::comparing::comparing_of;
use crate::comparing::relation_by;
use crate::comparing::tested_by;
use crate::constants::residue_of;
use crate::destination::Destination;
use crate::destination::behind_pointer;
use crate::destination::destination_of;
use crate::destination::put_arrived;
use crate::destination::put_fetch;
use crate::direct::kept_at;
use crate::direct::put_own_test;
use crate::elements::byte_in;
use crate::elements::element_at;
use crate::elements::is_number;
use crate::elements::low_operand;
use crate::elements::put_element_byte;
use crate::elements::put_element_test;
use crate::elements::put_element_value;
use crate::elements::put_low_operator;
use crate::fields::put_loaded_test;
use crate::held::held_low;
use crate::held::held_word;
use crate::held::put_byte_behind;
use crate::held::put_keep;
use crate::held::put_keep_byte;
use crate::held::put_word_behind;
use crate::leaving;
use crate::operands::Operands;
use crate::operands::computes;
use crate::operands::operands_of;
use crate::operands::put_behind;
use crate::operands::put_between;
use crate::operands::put_conversion;
use crate::operands::put_unary;
use crate::operands::same_truth;
use crate::operating::Operating;
use crate::operating::operating_of;
use crate::operating::put_form;
use crate::operating::put_stacked;
use crate::operating::put_waiting;
use crate::places::has_base;
use crate::places::is_told;
use crate::places::more;
use crate::places::place_of;
use crate::places::put_object;
use crate::places::put_rest;
use crate::places::put_unless_known;
use crate::spills::put_spill;
use crate::steps;
use crate::storing::Storing;
use crate::storing::storing_of;
use crate::types::Outcome;
use crate::types::access_of;
use crate::types::kind_of;
use crate::types::offset_at;
use crate::types::outcome_of;
use crate::types::target_bytes;
use crate::wanted::Wanted;
use crate::wanted::is_straight;
use crate::wanted::put_decided;
use crate::wanted::put_outcome_test;
use crate::wanted::put_value_test;
use crate::wanted::truth_labels;
use crate::wanted::wanted_by;
use c65_base::BinaryOp;
use c65_base::StepKind;
use c65_base::UnaryOp;
use c65_code::Draft;
use c65_code::Line::Do;
use c65_code::Line::Label;
use c65_code::Operand::To;
use c65_code::Width;
use c65_csem::TExpr;
use c65_csem::TKind;
use c65_gendirect::Relation;
use c65_gendirect::put_behind_pointer;
use c65_gendirect::put_byte_through;
use c65_gendirect::put_compare;
use c65_gendirect::put_compare_byte;
use c65_gendirect::put_op;
use c65_gendirect::put_read_bytes;
use c65_gendirect::put_truth;
use c65_gendirect::put_word_through;
use c65_gendirect::relation_of;
use c65_genframe::Frame;
use c65_genload::Extent;
use c65_genload::copy;
use c65_genload::extent_by;
use c65_genload::held;
use c65_genload::hold;
use c65_genload::load_bytes;
use c65_genload::number;
use c65_genload::push;
use c65_genload::put_offset;
use c65_genload::put_symbol;
use c65_genload::store;
use c65_genload::value_type;
use c65_genload::waiting;
use c65_genwide::narrow;
use c65_genwide::next_label;
use c65_genwide::put;
use c65_genwide::width_of;
use c65_mach::Mode::Absolute;
use c65_mach::Op::Jmp;
use c65_mach::Op::Lda;
use std::alloc::AllocError;

/// Puts the lines of the value of an expression, where so many bytes wait, for callers that only lack memory.
#[cycle(expression)]
pub fn put_expr(
    e: &TExpr,
    frame: &Frame<'_>,
    pushed: u16,
    draft: &mut Draft,
) -> Result<(), AllocError>
    ensures lines { OnOk result (draft.new ≡ grown draft.old (expr_code frame.now pushed draft.old.labels Value (typed_of e.now)) (uses None (typed_of e.now))) }
    ensures kept { OnErr result (Keeps draft.old draft.new) }
{
    match &e.kind {
        TKind::Const(z) => number(width_of(kind_of(&e.ty.ty)), residue_of(*z), draft),
        TKind::Null => number(Width::Ax, 0, draft),
        TKind::Literal(literal) => put_symbol(frame.numbers().literal(*literal), 0, draft),
        TKind::Object(object) => put_object(frame, pushed, *object, draft),
        TKind::Func(function) => put_symbol(frame.numbers().function(*function), 0, draft),
        TKind::Deref(a) | TKind::Address(a) | TKind::Decay(a) => put_expr(a, frame, pushed, draft),
        TKind::Member(a, member) => {
            put_expr(a, frame, pushed, draft)?;
            put_offset(offset_at(&frame.parts().types, &a.ty.ty, *member), draft)
        }
        TKind::Load(a) => put_load_value(a, frame, pushed, draft),
        TKind::Convert(a) => {
            put_expr(a, frame, pushed, draft)?;
            put_conversion(&e.ty.ty, kind_of(&a.ty.ty), draft)
        }
        TKind::Unary(op, a) => put_unary_value(a, *op, frame, pushed, draft),
        TKind::Binary(op, a, b) => match relation_of(*op) {
            Some(relation) => {
                let truth = truth_labels(draft)?;
                put_comparison(a, b, *op, relation, frame, pushed, truth.no, false, draft)?;
                put_truth(truth.no, truth.end, draft)
            }
            None => put_operator(a, b, *op, Destination::Registers, frame, pushed, draft),
        },
        TKind::And(a, b) => {
            let truth = truth_labels(draft)?;
            put_joint(a, b, false, frame, pushed, truth.no, false, draft)?;
            put_truth(truth.no, truth.end, draft)
        }
        TKind::Or(a, b) => {
            let truth = truth_labels(draft)?;
            put_joint(a, b, true, frame, pushed, truth.no, false, draft)?;
            put_truth(truth.no, truth.end, draft)
        }
        TKind::Cond(c, a, b) => put_choice(c, a, b, frame, pushed, draft),
        TKind::Comma(a, b) => {
            put_expr(a, frame, pushed, draft)?;
            put_expr(b, frame, pushed, draft)
        }
        TKind::Assign(a, b) => put_assign(a, b, frame, pushed, draft),
        TKind::AssignOp(op, kind, a, b) => {
            put_compound(a, b, *op, Operands::Numbers(*kind), frame, pushed, draft)
        }
        TKind::AssignStep(op, a, b) => {
            let size = target_bytes(frame, &a.ty.ty);
            put_compound(
                a,
                b,
                *op,
                Operands::PointerFirst(size),
                frame,
                pushed,
                draft,
            )
        }
        TKind::Step(how, a) => put_step_value(a, *how, frame, pushed, draft),
        TKind::Copy(a, b) => {
            put_expr(a, frame, pushed, draft)?;
            push(Width::Ax, draft)?;
            put_expr(b, frame, more(pushed, 2), draft)?;
            copy(frame.bytes(&e.ty.ty), draft)
        }
        TKind::Call(callee, args) => {
            let given = outcome_of(frame, &e.ty.ty);
            put_call(callee, args, given, frame, pushed, draft)
        }
        TKind::Pack(a) => {
            let place = place_of(frame, pushed, a);
            put_base(a, Destination::Registers, frame, pushed, draft)?;
            load_bytes(place, extent_by(frame.bytes(&e.ty.ty)), draft)
        }
        TKind::Spill(object, a) => {
            let extent = extent_by(frame.bytes(&e.ty.ty));
            put_expr(a, frame, pushed, draft)?;
            put_spill(frame, pushed, *object, extent, draft)
        }
        TKind::Rest => put_rest(frame, pushed, draft),
    }
}

/// A test of an expression, where so many bytes wait: the lines lead to a label where its truth is this,
/// and go on else.
#[cycle(expression)]
pub fn put_test(
    e: &TExpr,
    frame: &Frame<'_>,
    pushed: u16,
    to: u32,
    sense: bool,
    draft: &mut Draft,
) -> Result<(), AllocError>
    ensures lines { OnOk result (draft.new ≡ grown draft.old (expr_code frame.now pushed draft.old.labels (Test to sense) (typed_of e.now)) (uses (Some sense) (typed_of e.now))) }
    ensures kept { OnErr result (Keeps draft.old draft.new) }
{
    match &e.kind {
        TKind::Const(z) => put_decided(residue_of(*z) != 0, sense, to, draft),
        TKind::Null => put_decided(false, sense, to, draft),
        TKind::Load(a) => put_load_test(a, frame, pushed, to, sense, draft),
        TKind::Convert(a) => {
            if same_truth(&e.ty.ty, &a.ty.ty) {
                put_test(a, frame, pushed, to, sense, draft)
            } else {
                put_plain_test(e, frame, pushed, to, sense, draft)
            }
        }
        TKind::Unary(op, a) => match op {
            UnaryOp::Not => put_test(a, frame, pushed, to, !sense, draft),
            _ => put_plain_test(e, frame, pushed, to, sense, draft),
        },
        TKind::Binary(op, a, b) => match relation_of(*op) {
            Some(relation) => {
                put_comparison(a, b, *op, relation, frame, pushed, to, sense, draft)
            }
            None => put_plain_test(e, frame, pushed, to, sense, draft),
        },
        TKind::And(a, b) => put_joint(a, b, false, frame, pushed, to, sense, draft),
        TKind::Or(a, b) => put_joint(a, b, true, frame, pushed, to, sense, draft),
        TKind::Comma(a, b) => {
            put_expr(a, frame, pushed, draft)?;
            put_test(b, frame, pushed, to, sense, draft)
        }
        // addresses, and the value of one of two
        TKind::Literal(_)
        | TKind::Object(_)
        | TKind::Func(_)
        | TKind::Deref(_)
        | TKind::Member(_, _)
        | TKind::Address(_)
        | TKind::Decay(_)
        | TKind::Cond(_, _, _) => put_plain_test(e, frame, pushed, to, sense, draft),
        // what is changed
        TKind::Assign(_, _)
        | TKind::AssignOp(_, _, _, _)
        | TKind::AssignStep(_, _, _)
        | TKind::Step(_, _) => put_plain_test(e, frame, pushed, to, sense, draft),
        // what is copied, called for or passed
        TKind::Copy(_, _) | TKind::Call(_, _) | TKind::Pack(_) | TKind::Spill(_, _) | TKind::Rest =>
            put_plain_test(e, frame, pushed, to, sense, draft),
    }
}

// A test of the value.
#[cycle(expression)]
fn put_plain_test(
    e: &TExpr,
    frame: &Frame<'_>,
    pushed: u16,
    to: u32,
    sense: bool,
    draft: &mut Draft,
) -> Result<(), AllocError>
    ensures lines { OnOk result (draft.new ≡ grown draft.old (plain_test_code frame.now pushed draft.old.labels to sense (typed_of e.now)) (uses None (typed_of e.now))) }
    ensures kept { OnErr result (Keeps draft.old draft.new) }
{
    put_expr(e, frame, pushed, draft)?;
    put_value_test(width_of(kind_of(&e.ty.ty)), sense, to, draft)
}

/// The value or a test.
#[cycle(expression)]
fn put_wanted(
    e: &TExpr,
    wanted: Wanted,
    frame: &Frame<'_>,
    pushed: u16,
    draft: &mut Draft,
) -> Result<(), AllocError>
    ensures lines { OnOk result (draft.new ≡ grown draft.old (expr_code frame.now pushed draft.old.labels wanted (typed_of e.now)) (uses (sense_of wanted) (typed_of e.now))) }
    ensures kept { OnErr result (Keeps draft.old draft.new) }
{
    match wanted {
        Wanted::Value => put_expr(e, frame, pushed, draft),
        Wanted::Test(to, sense) => put_test(e, frame, pushed, to, sense, draft),
    }
}

/// Puts the address behind which a place lies, as far as it tells, where it is wanted; so many bytes wait. Of one that is
/// known only the labels of the sums that tell it are put.
#[cycle(expression)]
pub fn put_base(
    a: &TExpr,
    destination: Destination,
    frame: &Frame<'_>,
    pushed: u16,
    draft: &mut Draft,
) -> Result<(), AllocError>
    ensures lines { OnOk result (draft.new ≡ grown draft.old (base_code frame.now pushed draft.old.labels destination (typed_of a.now)) (uses None (typed_of a.now))) }
    ensures kept { OnErr result (Keeps draft.old draft.new) }
{
    put_base_by(a, destination, frame, pushed, draft)
}

// The same by what the place is.
#[cycle(expression)]
fn put_base_by(
    a: &TExpr,
    destination: Destination,
    frame: &Frame<'_>,
    pushed: u16,
    draft: &mut Draft,
) -> Result<(), AllocError>
    ensures lines { OnOk result (draft.new ≡ grown draft.old (base_lines frame.now pushed draft.old.labels destination (typed_of a.now)) (uses None (typed_of a.now))) }
    ensures kept { OnErr result (Keeps draft.old draft.new) }
{
    match &a.kind {
        TKind::Literal(_) => put(draft, &[]),
        TKind::Object(object) => put_unless_known(frame, pushed, *object, destination, draft),
        TKind::Deref(pointer) => put_pointer_base(pointer, destination, frame, pushed, draft),
        TKind::Member(e, member) => {
            let offset = offset_at(&frame.parts().types, &e.ty.ty, *member);
            put_part_base(e, offset, destination, frame, pushed, draft)
        }
        TKind::Const(_)
        | TKind::Null
        | TKind::Func(_)
        | TKind::Load(_)
        | TKind::Address(_)
        | TKind::Decay(_) => {
            put_expr(a, frame, pushed, draft)?;
            put_arrived(destination, draft)
        }
        TKind::Convert(_) | TKind::Unary(_, _) | TKind::Binary(_, _, _) => {
            put_expr(a, frame, pushed, draft)?;
            put_arrived(destination, draft)
        }
        TKind::And(_, _) | TKind::Or(_, _) | TKind::Cond(_, _, _) | TKind::Comma(_, _) => {
            put_expr(a, frame, pushed, draft)?;
            put_arrived(destination, draft)
        }
        TKind::Assign(_, _)
        | TKind::AssignOp(_, _, _, _)
        | TKind::AssignStep(_, _, _)
        | TKind::Step(_, _) => {
            put_expr(a, frame, pushed, draft)?;
            put_arrived(destination, draft)
        }
        TKind::Copy(_, _) | TKind::Call(_, _) | TKind::Pack(_) | TKind::Spill(_, _) | TKind::Rest =>
            {
                put_expr(a, frame, pushed, draft)?;
                put_arrived(destination, draft)
            }
    }
}

// The same of a part, so far behind the beginning.
#[cycle(expression)]
fn put_part_base(
    e: &TExpr,
    offset: u32,
    destination: Destination,
    frame: &Frame<'_>,
    pushed: u16,
    draft: &mut Draft,
) -> Result<(), AllocError>
    ensures lines { OnOk result (draft.new ≡ grown draft.old (part_base_code frame.now pushed draft.old.labels destination offset (typed_of e.now)) (uses None (typed_of e.now))) }
    ensures kept { OnErr result (Keeps draft.old draft.new) }
{
    if has_base(place_of(frame, pushed, e), offset) {
        put_base(e, destination, frame, pushed, draft)
    } else {
        put_expr(e, frame, pushed, draft)?;
        put_offset(offset, draft)?;
        put_arrived(destination, draft)
    }
}

// The same of a pointer. A sum that is left out has its label all the same.
#[cycle(expression)]
fn put_pointer_base(
    e: &TExpr,
    destination: Destination,
    frame: &Frame<'_>,
    pushed: u16,
    draft: &mut Draft,
) -> Result<(), AllocError>
    ensures lines { OnOk result (draft.new ≡ grown draft.old (pointer_base_code frame.now pushed draft.old.labels destination (typed_of e.now)) (uses None (typed_of e.now))) }
    ensures kept { OnErr result (Keeps draft.old draft.new) }
{
    put_pointer_by(e, destination, frame, pushed, draft)
}

// The same by what the pointer is.
#[cycle(expression)]
fn put_pointer_by(
    e: &TExpr,
    destination: Destination,
    frame: &Frame<'_>,
    pushed: u16,
    draft: &mut Draft,
) -> Result<(), AllocError>
    ensures lines { OnOk result (draft.new ≡ grown draft.old (pointer_lines frame.now pushed draft.old.labels destination (typed_of e.now)) (pointer_labels frame.now pushed (typed_of e.now))) }
    ensures kept { OnErr result (Keeps draft.old draft.new) }
{
    match &e.kind {
        TKind::Binary(op, pointer, number) => {
            if is_told(frame, pushed, *op, pointer, number) {
                leaving::leave_sum(draft)?;
                put_pointer_base(pointer, destination, frame, pushed, draft)
            } else {
                match relation_of(*op) {
                    Some(_) => {
                        put_expr(e, frame, pushed, draft)?;
                        put_arrived(destination, draft)
                    }
                    None => put_operator(pointer, number, *op, destination, frame, pushed, draft),
                }
            }
        }
        TKind::Address(place) | TKind::Decay(place) => {
            put_base(place, destination, frame, pushed, draft)
        }
        TKind::Const(_) | TKind::Null | TKind::Literal(_) | TKind::Object(_) | TKind::Func(_) => {
            put_expr(e, frame, pushed, draft)?;
            put_arrived(destination, draft)
        }
        TKind::Load(_)
        | TKind::Deref(_)
        | TKind::Member(_, _)
        | TKind::Convert(_)
        | TKind::Unary(_, _) => {
            put_expr(e, frame, pushed, draft)?;
            put_arrived(destination, draft)
        }
        TKind::And(_, _) | TKind::Or(_, _) | TKind::Cond(_, _, _) | TKind::Comma(_, _) => {
            put_expr(e, frame, pushed, draft)?;
            put_arrived(destination, draft)
        }
        TKind::Assign(_, _)
        | TKind::AssignOp(_, _, _, _)
        | TKind::AssignStep(_, _, _)
        | TKind::Step(_, _) => {
            put_expr(e, frame, pushed, draft)?;
            put_arrived(destination, draft)
        }
        TKind::Copy(_, _) | TKind::Call(_, _) | TKind::Pack(_) | TKind::Spill(_, _) | TKind::Rest =>
            {
                put_expr(e, frame, pushed, draft)?;
                put_arrived(destination, draft)
            }
    }
}

/// Puts the lines that bring the low byte of a value to A, where so many bytes wait; X is anything.
#[cycle(expression)]
pub fn put_low(
    e: &TExpr,
    frame: &Frame<'_>,
    pushed: u16,
    draft: &mut Draft,
) -> Result<(), AllocError>
    ensures lines { OnOk result (draft.new ≡ grown draft.old (low_value_code frame.now pushed draft.old.labels (typed_of e.now)) (uses None (typed_of e.now))) }
    ensures kept { OnErr result (Keeps draft.old draft.new) }
{
    put_low_read(e, frame, pushed, draft)
}

// Of a number that is read where it lies only that byte.
#[cycle(expression)]
fn put_low_read(
    e: &TExpr,
    frame: &Frame<'_>,
    pushed: u16,
    draft: &mut Draft,
) -> Result<(), AllocError>
    ensures lines { OnOk result (draft.new ≡ grown draft.old (low_code (byte_in frame.now pushed (typed_of e.now)) (low_lines frame.now pushed draft.old.labels (typed_of e.now))) (uses None (typed_of e.now))) }
    ensures kept { OnErr result (Keeps draft.old draft.new) }
{
    match byte_in(frame, pushed, e) {
        Some(byte) => {
            leaving::leave_out(e, Wanted::Value, draft)?;
            put_op(Lda, byte, draft)
        }
        None => put_low_by(e, frame, pushed, draft),
    }
}

// Of what is computed, the low byte of what its low byte depends on.
#[cycle(expression)]
fn put_low_by(
    e: &TExpr,
    frame: &Frame<'_>,
    pushed: u16,
    draft: &mut Draft,
) -> Result<(), AllocError>
    ensures lines { OnOk result (draft.new ≡ grown draft.old (low_lines frame.now pushed draft.old.labels (typed_of e.now)) (uses None (typed_of e.now))) }
    ensures kept { OnErr result (Keeps draft.old draft.new) }
{
    match &e.kind {
        TKind::Convert(a) => {
            if is_number(&e.ty.ty) && is_number(&a.ty.ty) {
                put_low(a, frame, pushed, draft)
            } else {
                put_expr(e, frame, pushed, draft)
            }
        }
        TKind::Binary(op, a, b) => match low_operand(frame, pushed, *op, a, b) {
            Some(byte) => {
                leaving::leave_sum(draft)?;
                put_low(a, frame, pushed, draft)?;
                leaving::leave_out(b, Wanted::Value, draft)?;
                put_low_operator(*op, byte, draft)
            }
            None => put_expr(e, frame, pushed, draft),
        },
        TKind::Load(a) => put_low_load(a, frame, pushed, draft),
        TKind::Const(_) | TKind::Null | TKind::Literal(_) | TKind::Object(_) | TKind::Func(_) =>
            put_expr(e, frame, pushed, draft),
        TKind::Deref(_)
        | TKind::Member(_, _)
        | TKind::Address(_)
        | TKind::Decay(_)
        | TKind::Unary(_, _) => put_expr(e, frame, pushed, draft),
        TKind::And(_, _) | TKind::Or(_, _) | TKind::Cond(_, _, _) | TKind::Comma(_, _) => put_expr(
            e, frame, pushed, draft,
        ),
        TKind::Assign(_, _)
        | TKind::AssignOp(_, _, _, _)
        | TKind::AssignStep(_, _, _)
        | TKind::Step(_, _) => put_expr(e, frame, pushed, draft),
        TKind::Copy(_, _) | TKind::Call(_, _) | TKind::Pack(_) | TKind::Spill(_, _) | TKind::Rest =>
            put_expr(e, frame, pushed, draft),
    }
}

// Of a number that is kept anywhere its low byte alone.
#[cycle(expression)]
fn put_low_load(
    a: &TExpr,
    frame: &Frame<'_>,
    pushed: u16,
    draft: &mut Draft,
) -> Result<(), AllocError>
    ensures lines { OnOk result (draft.new ≡ grown draft.old (low_load_code frame.now pushed draft.old.labels (typed_of a.now)) (uses None (typed_of a.now))) }
    ensures kept { OnErr result (Keeps draft.old draft.new) }
{
    match element_at(frame, a) {
        Some((element, _)) => {
            put_index(a, frame, pushed, draft)?;
            put_element_byte(element, draft)
        }
        None => {
            let place = place_of(frame, pushed, a);
            let access = access_of(&frame.parts().types, a);
            match behind_pointer(place, access) {
                Some(at) => {
                    put_base(a, Destination::Pointer, frame, pushed, draft)?;
                    put_behind_pointer(at, Extent::One, draft)
                }
                None => put_load_value(a, frame, pushed, draft),
            }
        }
    }
}

// The index of an element of a small array: the low byte of it comes to A.
#[cycle(expression)]
pub fn put_index(
    e: &TExpr,
    frame: &Frame<'_>,
    pushed: u16,
    draft: &mut Draft,
) -> Result<(), AllocError>
    ensures lines { OnOk result (draft.new ≡ grown draft.old (index_code frame.now pushed draft.old.labels (typed_of e.now)) (index_uses (typed_of e.now))) }
    ensures kept { OnErr result (Keeps draft.old draft.new) }
{
    match &e.kind {
        TKind::Deref(sum) => put_sum_index(sum, frame, pushed, draft),
        TKind::Member(base, _) => put_index(base, frame, pushed, draft),
        _ => put(draft, &[]),
    }
}

#[cycle(expression)]
fn put_sum_index(
    e: &TExpr,
    frame: &Frame<'_>,
    pushed: u16,
    draft: &mut Draft,
) -> Result<(), AllocError>
    ensures lines { OnOk result (draft.new ≡ grown draft.old (sum_index_code frame.now pushed draft.old.labels (typed_of e.now)) (sum_index_uses (typed_of e.now))) }
    ensures kept { OnErr result (Keeps draft.old draft.new) }
{
    match &e.kind {
        TKind::Binary(_, _, index) => {
            leaving::leave_sum(draft)?;
            put_low(index, frame, pushed, draft)
        }
        _ => put(draft, &[]),
    }
}

#[cycle(expression)]
fn put_load_value(
    a: &TExpr,
    frame: &Frame<'_>,
    pushed: u16,
    draft: &mut Draft,
) -> Result<(), AllocError>
    ensures lines { OnOk result (draft.new ≡ grown draft.old (load_code frame.now pushed draft.old.labels Value (typed_of a.now)) (uses None (typed_of a.now))) }
    ensures kept { OnErr result (Keeps draft.old draft.new) }
{
    match element_at(frame, a) {
        Some((element, kind)) => {
            put_index(a, frame, pushed, draft)?;
            put_element_value(element, kind, draft)
        }
        None => {
            let place = place_of(frame, pushed, a);
            let access = access_of(&frame.parts().types, a);
            put_base(a, destination_of(access), frame, pushed, draft)?;
            put_fetch(place, access, draft)
        }
    }
}

// A number that is kept at a known place is tested where it lies.
#[cycle(expression)]
fn put_load_test(
    a: &TExpr,
    frame: &Frame<'_>,
    pushed: u16,
    to: u32,
    sense: bool,
    draft: &mut Draft,
) -> Result<(), AllocError>
    ensures lines { OnOk result (draft.new ≡ grown draft.old (load_code frame.now pushed draft.old.labels (Test to sense) (typed_of a.now)) (uses None (typed_of a.now))) }
    ensures kept { OnErr result (Keeps draft.old draft.new) }
{
    match element_at(frame, a) {
        Some((element, kind)) => {
            put_index(a, frame, pushed, draft)?;
            put_element_test(element, kind, sense, to, draft)
        }
        None => put_kept_test(a, frame, pushed, to, sense, draft),
    }
}

// The same of any other number.
#[cycle(expression)]
fn put_kept_test(
    a: &TExpr,
    frame: &Frame<'_>,
    pushed: u16,
    to: u32,
    sense: bool,
    draft: &mut Draft,
) -> Result<(), AllocError>
    ensures lines { OnOk result (draft.new ≡ grown draft.old (kept_test_code frame.now pushed draft.old.labels to sense (typed_of a.now)) (uses None (typed_of a.now))) }
    ensures kept { OnErr result (Keeps draft.old draft.new) }
{
    let place = place_of(frame, pushed, a);
    let access = access_of(&frame.parts().types, a);
    match kept_at(place, access) {
        Some(direct) => {
            put_base(a, destination_of(access), frame, pushed, draft)?;
            put_own_test(direct, value_type(access), sense, to, draft)
        }
        None => {
            put_base(a, destination_of(access), frame, pushed, draft)?;
            put_loaded_test(place, access, sense, to, draft)
        }
    }
}

#[cycle(expression)]
fn put_unary_value(
    a: &TExpr,
    op: UnaryOp,
    frame: &Frame<'_>,
    pushed: u16,
    draft: &mut Draft,
) -> Result<(), AllocError>
    ensures lines { OnOk result (draft.new ≡ grown draft.old (unary_value_code frame.now pushed draft.old.labels op (typed_of a.now)) (unary_uses op (typed_of a.now))) }
    ensures kept { OnErr result (Keeps draft.old draft.new) }
{
    match op {
        UnaryOp::Not => {
            let truth = truth_labels(draft)?;
            put_test(a, frame, pushed, truth.no, true, draft)?;
            put_truth(truth.no, truth.end, draft)
        }
        _ => {
            put_expr(a, frame, pushed, draft)?;
            put_unary(op, width_of(kind_of(&a.ty.ty)), draft)
        }
    }
}

#[cycle(expression)]
fn put_operator(
    a: &TExpr,
    b: &TExpr,
    op: BinaryOp,
    destination: Destination,
    frame: &Frame<'_>,
    pushed: u16,
    draft: &mut Draft,
) -> Result<(), AllocError>
    ensures lines { OnOk result (draft.new ≡ grown draft.old (operator_code frame.now pushed draft.old.labels destination op (typed_of a.now) (typed_of b.now)) (1 + (uses None (typed_of a.now) + uses None (typed_of b.now)))) }
    ensures kept { OnErr result (Keeps draft.old draft.new) }
{
    let label = next_label(draft)?;
    let operands = operands_of(frame, &a.ty.ty, &b.ty.ty);
    match operating_of(frame, pushed, op, operands, a, b) {
        Operating::Left(form) => {
            put_expr(a, frame, pushed, draft)?;
            leaving::leave_out(b, Wanted::Value, draft)?;
            put_form(destination, form, label, draft)
        }
        Operating::Right(form) => {
            leaving::leave_out(a, Wanted::Value, draft)?;
            put_expr(b, frame, pushed, draft)?;
            put_form(destination, form, label, draft)
        }
        Operating::Held(form) => {
            put_expr(a, frame, pushed, draft)?;
            put_keep(draft)?;
            put_expr(b, frame, pushed, draft)?;
            put_form(destination, form, label, draft)
        }
        Operating::Stacked => {
            let wait = waiting(width_of(computes(operands)));
            put_expr(a, frame, pushed, draft)?;
            put_waiting(operands, draft)?;
            put_expr(b, frame, more(pushed, wait), draft)?;
            put_stacked(op, operands, kind_of(&b.ty.ty), draft)?;
            put(draft, &[Label(label)])?;
            put_arrived(destination, draft)
        }
    }
}

// A comparison leads to a label where its truth is this.
#[cycle(expression)]
fn put_comparison(
    a: &TExpr,
    b: &TExpr,
    op: BinaryOp,
    relation: Relation,
    frame: &Frame<'_>,
    pushed: u16,
    to: u32,
    sense: bool,
    draft: &mut Draft,
) -> Result<(), AllocError>
    ensures lines { OnOk result (draft.new ≡ grown draft.old (comparison_code frame.now pushed draft.old.labels to sense op relation (typed_of a.now) (typed_of b.now)) (comparison_uses (relation_by sense relation) (typed_of a.now) (typed_of b.now))) }
    ensures kept { OnErr result (Keeps draft.old draft.new) }
{
    let own = next_label(draft)?;
    let operands = operands_of(frame, &a.ty.ty, &b.ty.ty);
    let held = relation_by(sense, relation);
    let left = wanted_by(tested_by(held, b), to);
    let right = wanted_by(tested_by(held, a), to);
    match comparing_of(frame, pushed, held, computes(operands), a, b) {
        Comparing::Truth(side) => {
            put_side(side, a, left, b, right, frame, pushed, draft)?;
            put(draft, &[Label(own)])
        }
        Comparing::Byte(side, None, relation, byte) => {
            put_low_side(side, a, b, frame, pushed, draft)?;
            put_compare_byte(relation, byte, to, draft)?;
            put(draft, &[Label(own)])
        }
        Comparing::Byte(_, Some(low), relation, byte) => {
            leaving::leave_out(a, left, draft)?;
            leaving::leave_out(b, right, draft)?;
            put_op(Lda, low, draft)?;
            put_compare_byte(relation, byte, to, draft)?;
            put(draft, &[Label(own)])
        }
        Comparing::Whole(side, relation, is_signed, sides) => {
            put_side(side, a, left, b, right, frame, pushed, draft)?;
            put_compare(relation, is_signed, sides, own, to, draft)
        }
        Comparing::Held(relation, is_signed) => {
            put_wanted(a, left, frame, pushed, draft)?;
            put_keep(draft)?;
            put_wanted(b, right, frame, pushed, draft)?;
            put_compare(relation, is_signed, held_word(), own, to, draft)
        }
        Comparing::HeldByte(relation) => {
            put_low(a, frame, pushed, draft)?;
            put_keep_byte(draft)?;
            put_low(b, frame, pushed, draft)?;
            put_compare_byte(relation, held_low(), to, draft)?;
            put(draft, &[Label(own)])
        }
        Comparing::Stacked => {
            let wait = waiting(width_of(computes(operands)));
            put_wanted(a, left, frame, pushed, draft)?;
            put_between(operands, draft)?;
            put_wanted(b, right, frame, more(pushed, wait), draft)?;
            put_behind(op, operands, kind_of(&b.ty.ty), draft)?;
            put_outcome_test(sense, to, draft)?;
            put(draft, &[Label(own)])
        }
    }
}

// One of two sides; the other one is read where it lies.
#[cycle(expression)]
fn put_side(
    side: Side,
    a: &TExpr,
    left: Wanted,
    b: &TExpr,
    right: Wanted,
    frame: &Frame<'_>,
    pushed: u16,
    draft: &mut Draft,
) -> Result<(), AllocError>
    requires { IsFree side (sense_of left) (typed_of a.now) (sense_of right) (typed_of b.now) }
    ensures lines { OnOk result (draft.new ≡ grown draft.old (on side (expr_code frame.now pushed draft.old.labels left (typed_of a.now)) (expr_code frame.now pushed (draft.old.labels + uses (sense_of left) (typed_of a.now)) right (typed_of b.now))) (uses (sense_of left) (typed_of a.now) + uses (sense_of right) (typed_of b.now))) }
    ensures kept { OnErr result (Keeps draft.old draft.new) }
{
    match side {
        Side::Left => {
            put_wanted(a, left, frame, pushed, draft)?;
            leaving::leave_out(b, right, draft)
        }
        Side::Right => {
            leaving::leave_out(a, left, draft)?;
            put_wanted(b, right, frame, pushed, draft)
        }
    }
}

// The low byte of one of two sides; the other one is read where it lies.
#[cycle(expression)]
fn put_low_side(
    side: Side,
    a: &TExpr,
    b: &TExpr,
    frame: &Frame<'_>,
    pushed: u16,
    draft: &mut Draft,
) -> Result<(), AllocError>
    requires { IsFree side None (typed_of a.now) None (typed_of b.now) }
    ensures lines { OnOk result (draft.new ≡ grown draft.old (on side (low_value_code frame.now pushed draft.old.labels (typed_of a.now)) (low_value_code frame.now pushed (draft.old.labels + uses None (typed_of a.now)) (typed_of b.now))) (uses None (typed_of a.now) + uses None (typed_of b.now))) }
    ensures kept { OnErr result (Keeps draft.old draft.new) }
{
    match side {
        Side::Left => {
            put_low(a, frame, pushed, draft)?;
            leaving::leave_out(b, Wanted::Value, draft)
        }
        Side::Right => {
            leaving::leave_out(a, Wanted::Value, draft)?;
            put_low(b, frame, pushed, draft)
        }
    }
}

// `&&` and `||`, which a left side of this truth decides.
#[cycle(expression)]
fn put_joint(
    a: &TExpr,
    b: &TExpr,
    stop: bool,
    frame: &Frame<'_>,
    pushed: u16,
    to: u32,
    sense: bool,
    draft: &mut Draft,
) -> Result<(), AllocError>
    ensures lines { OnOk result (draft.new ≡ grown draft.old (joint_code frame.now pushed draft.old.labels to sense stop (typed_of a.now) (typed_of b.now)) (way_labels (is_straight stop sense) + (uses (Some stop) (typed_of a.now) + uses (Some sense) (typed_of b.now)))) }
    ensures kept { OnErr result (Keeps draft.old draft.new) }
{
    if is_straight(stop, sense) {
        put_test(a, frame, pushed, to, stop, draft)?;
        put_test(b, frame, pushed, to, sense, draft)
    } else {
        let own = next_label(draft)?;
        put_test(a, frame, pushed, own, stop, draft)?;
        put_test(b, frame, pushed, to, sense, draft)?;
        put(draft, &[Label(own)])
    }
}

// `?:`
#[cycle(expression)]
fn put_choice(
    c: &TExpr,
    a: &TExpr,
    b: &TExpr,
    frame: &Frame<'_>,
    pushed: u16,
    draft: &mut Draft,
) -> Result<(), AllocError>
    ensures lines { OnOk result (draft.new ≡ grown draft.old (choice_code frame.now pushed draft.old.labels (typed_of c.now) (typed_of a.now) (typed_of b.now)) (2 + (uses (Some false) (typed_of c.now) + (uses None (typed_of a.now) + uses None (typed_of b.now))))) }
    ensures kept { OnErr result (Keeps draft.old draft.new) }
{
    let other = next_label(draft)?;
    let end = next_label(draft)?;
    put_test(c, frame, pushed, other, false, draft)?;
    put_expr(a, frame, pushed, draft)?;
    put(draft, &[Do(Jmp, Absolute, To(end)), Label(other)])?;
    put_expr(b, frame, pushed, draft)?;
    put(draft, &[Label(end)])
}

// `=` on scalars
#[cycle(expression)]
fn put_assign(
    a: &TExpr,
    b: &TExpr,
    frame: &Frame<'_>,
    pushed: u16,
    draft: &mut Draft,
) -> Result<(), AllocError>
    ensures lines { OnOk result (draft.new ≡ grown draft.old (assign_code frame.now pushed draft.old.labels (typed_of a.now) (typed_of b.now)) (uses None (typed_of a.now) + uses None (typed_of b.now))) }
    ensures kept { OnErr result (Keeps draft.old draft.new) }
{
    let place = place_of(frame, pushed, a);
    let access = access_of(&frame.parts().types, a);
    match storing_of(frame, pushed, a, b) {
        Storing::Left(at, stored) => {
            put_base(a, Destination::Pointer, frame, pushed, draft)?;
            leaving::leave_out(b, Wanted::Value, draft)?;
            put_read_bytes(at, stored, draft)?;
            narrow(value_type(access), draft)
        }
        Storing::RightByte(at, low, high) => {
            leaving::leave_out(a, Wanted::Value, draft)?;
            put_expr(b, frame, pushed, draft)?;
            put_byte_through(at, low, high, draft)?;
            narrow(value_type(access), draft)
        }
        Storing::RightWord(at, low, high) => {
            leaving::leave_out(a, Wanted::Value, draft)?;
            put_expr(b, frame, pushed, draft)?;
            put_word_through(at, low, high, draft)
        }
        Storing::HeldByte(at) => {
            put_base(a, Destination::Registers, frame, pushed, draft)?;
            put_keep(draft)?;
            put_expr(b, frame, pushed, draft)?;
            put_byte_behind(at, draft)?;
            narrow(value_type(access), draft)
        }
        Storing::HeldWord(at) => {
            put_base(a, Destination::Registers, frame, pushed, draft)?;
            put_keep(draft)?;
            put_expr(b, frame, pushed, draft)?;
            put_word_behind(at, draft)
        }
        Storing::Stacked => {
            put_base(a, Destination::Registers, frame, pushed, draft)?;
            hold(place, draft)?;
            put_expr(b, frame, more(pushed, held(place)), draft)?;
            store(place, access, draft)
        }
    }
}

// The other assignments to scalars: the address of the left side is had once.
#[cycle(expression)]
fn put_compound(
    a: &TExpr,
    b: &TExpr,
    op: BinaryOp,
    operands: Operands,
    frame: &Frame<'_>,
    pushed: u16,
    draft: &mut Draft,
) -> Result<(), AllocError>
    ensures lines { OnOk result (draft.new ≡ grown draft.old (compound_code frame.now pushed draft.old.labels op operands (typed_of a.now) (typed_of b.now)) (uses None (typed_of a.now) + uses None (typed_of b.now))) }
    ensures kept { OnErr result (Keeps draft.old draft.new) }
{
    let place = place_of(frame, pushed, a);
    let access = access_of(&frame.parts().types, a);
    let kind = computes(operands);
    let wait = more(held(place), waiting(width_of(kind)));
    put_base(a, Destination::Registers, frame, pushed, draft)?;
    steps::put_open(place, access, kind, draft)?;
    put_expr(b, frame, more(pushed, wait), draft)?;
    steps::put_close(op, operands, kind_of(&b.ty.ty), place, access, draft)
}

// `++` and `--`
#[cycle(expression)]
fn put_step_value(
    a: &TExpr,
    how: StepKind,
    frame: &Frame<'_>,
    pushed: u16,
    draft: &mut Draft,
) -> Result<(), AllocError>
    ensures lines { OnOk result (draft.new ≡ grown draft.old (step_value_code frame.now pushed draft.old.labels how (typed_of a.now)) (1 + uses None (typed_of a.now))) }
    ensures kept { OnErr result (Keeps draft.old draft.new) }
{
    let label = next_label(draft)?;
    let place = place_of(frame, pushed, a);
    let access = access_of(&frame.parts().types, a);
    let size = target_bytes(frame, &a.ty.ty);
    let amount = steps::amount_of(frame, how, &a.ty.ty);
    put_base(a, Destination::Registers, frame, pushed, draft)?;
    steps::put_step(how, size, amount, place, access, label, draft)
}

#[cycle(expression)]
fn put_call(
    callee: &TExpr,
    args: &[TExpr],
    given: Outcome,
    frame: &Frame<'_>,
    pushed: u16,
    draft: &mut Draft,
) -> Result<(), AllocError>
    ensures lines { OnOk result (draft.new ≡ grown draft.old (call_code frame.now pushed draft.old.labels given (typed_of callee.now) (nodes_of args.now)) (head_uses (typed_of callee.now) + args_uses (nodes_of args.now))) }
    ensures kept { OnErr result (Keeps draft.old draft.new) }
{
    let fast = is_fast(&callee.ty.ty);
    let counted = is_counted(&callee.ty.ty);
    match named(callee) {
        Some(function) => {
            let passed = put_args(args, fast, frame, pushed, draft)?;
            put_named(frame, function, counted, passed, given, draft)
        }
        None => {
            put_expr(callee, frame, pushed, draft)?;
            match args {
                [] => put_direct(counted, Passed::nothing(), given, draft),
                [_first, _rest @ ..] => {
                    push(Width::Ax, draft)?;
                    let passed = put_args(args, fast, frame, more(pushed, 2), draft)?;
                    put_pointer(counted, passed, given, draft)
                }
            }
        }
    }
}

// Arguments from left to right.
#[cycle(expression)]
fn put_args(
    args: &[TExpr],
    fast: bool,
    frame: &Frame<'_>,
    pushed: u16,
    draft: &mut Draft,
) -> Result<Passed, AllocError>
    ensures passed { IfOk result (λ p. p ≡ passed_of frame.now fast (nodes_of args.now)) }
    ensures lines { OnOk result (draft.new ≡ grown draft.old (args_code frame.now pushed draft.old.labels fast (nodes_of args.now)) (args_uses (nodes_of args.now))) }
    ensures kept { OnErr result (Keeps draft.old draft.new) }
{
    match args {
        [] => Ok(Passed::nothing()),
        [first, rest @ ..] => {
            let kept = stays(fast, rest);
            let bytes = passed_size(frame, first);
            put_expr(first, frame, pushed, draft)?;
            put_argument(kept, bytes, draft)?;
            let waiting_now = more(pushed, argument_bytes(kept, bytes));
            let passed = put_args(rest, fast, frame, waiting_now, draft)?;
            Ok(joined(kept, bytes, passed))
        }
    }
}
