// The form of an operator that gives a number or a pointer (C90 6.3.5 to 6.3.7, 6.3.10 to 6.3.12).
ghost use Rattle.std.specs.Prelude.{◌≡◌, OnOk, OnErr};
ghost use Rattle.c65_csem.specs.Views.{typed_of};
ghost use Rattle.c65_genwide.specs.Lines.{with_lines, Keeps};
ghost use Rattle.c65_genexpr.specs.Leaving.{OperatesFree};
ghost use Rattle.c65_genexpr.specs.Operating.{sum_by, mask_by, number_form, offset_form, constant_form, word_in, takes_bytes, word_if, element_form, right_form, under_if, left_form, constant_right, direct_right, direct_left, reading_of, held_elements, held_form, operating_of, placed, value_form, pointed_word, pointed_form, form_code, waiting_code, stacked_code};

use crate::constants::{constant_in, negative, residue_of};
use crate::destination::Destination;
use crate::direct::{direct_of, is_fixed, is_pure};
use crate::held::{held_high, held_low};
use crate::light::is_light;
use crate::operands::{Operands, put_behind, put_between};
use c65_base::BinaryOp;
use c65_code::Line::Label;
use c65_code::{Draft, Width};
use c65_csem::TExpr;
use c65_gendirect::{
    Direct, OperandByte, byte_of, put_add_number, put_long_mask, put_pointed_sum, put_pointer,
    put_taken_from, put_word,
};
use c65_genframe::Frame;
use c65_genload::{add, divide, push};
use c65_genshift::{Quick, put_elements, put_quick, quick_of};
use c65_genwide::{put, put_wide, width_of};
use c65_ints::IntType;
use std::alloc::AllocError;

/// What is done to the operand in the primary register.
#[derive(Clone, Copy)]
pub enum Form {
    /// A number is added to AX.
    Sum(u32),
    /// A number is added to EAX.
    LongSum(u32),
    /// `&`, `|` or `^` of EAX and a number.
    Mask(BinaryOp, u32),
    /// A shift or a mask, for an operator with a constant.
    Constant(IntType, Quick),
    /// `+`, `-`, `&`, `|` or `^` of AX and the bytes of a word.
    Word(BinaryOp, OperandByte, OperandByte),
    /// AX is subtracted from the bytes of a word.
    Under(OperandByte, OperandByte),
    /// AX is a number of elements of so many bytes, which are added to the bytes of a pointer.
    Indexed(u32, OperandByte, OperandByte),
    /// The elements from the bytes of a pointer up to AX.
    Distance(u32, OperandByte, OperandByte),
    /// The elements from AX up to the bytes of a pointer.
    DistanceUnder(u32, OperandByte, OperandByte),
}

/// How an operator is computed.
#[derive(Clone, Copy)]
pub enum Operating {
    /// The left operand, and what is done to it.
    Left(Form),
    /// The right operand, and what is done to it.
    Right(Form),
    /// The left operand waits in ptr2, and what is done to the right one.
    Held(Form),
    /// The left operand waits on the software stack.
    Stacked,
}

// A number is added.
fn sum_by(width: Width, number: u32) -> Form
    ensures { result ≡ sum_by width number }
{
    match width {
        Width::Ax => Form::Sum(number),
        Width::Eax => Form::LongSum(number),
    }
}

fn mask_by(op: BinaryOp, width: Width, number: u32) -> Option<Form>
    ensures { result ≡ mask_by op width number }
{
    match width {
        Width::Ax => None,
        Width::Eax => Some(Form::Mask(op, number)),
    }
}

fn number_form(op: BinaryOp, kind: IntType, number: u32) -> Option<Form>
    ensures { result ≡ number_form op kind number }
{
    let width = width_of(kind);
    match op {
        BinaryOp::Add => Some(sum_by(width, number)),
        BinaryOp::Sub => Some(sum_by(width, negative(number))),
        BinaryOp::BitAnd | BinaryOp::BitXor | BinaryOp::BitOr => mask_by(op, width, number),
        _ => {
            let quick = quick_of(op, kind, number)?;
            Some(Form::Constant(kind, quick))
        }
    }
}

// So many bytes are added to a pointer.
fn offset_form(op: BinaryOp, bytes: u32) -> Option<Form>
    ensures { result ≡ offset_form op bytes }
{
    match op {
        BinaryOp::Add => Some(Form::Sum(bytes)),
        BinaryOp::Sub => Some(Form::Sum(negative(bytes))),
        _ => None,
    }
}

fn constant_form(op: BinaryOp, operands: Operands, number: u32) -> Option<Form>
    ensures { result ≡ constant_form op operands number }
{
    match operands {
        Operands::Numbers(kind) => number_form(op, kind, number),
        Operands::PointerFirst(size) => {
            let bytes = number as u64 * size as u64 % 0x1_0000_0000;
            offset_form(op, bytes as u32)
        }
        Operands::PointerLast(_) | Operands::Pointers(_) => None,
    }
}

/// The two bytes of a word that is read where it lies.
pub fn word_in(direct: Direct) -> Option<(OperandByte, OperandByte)>
    ensures { result ≡ word_in direct }
{
    Some((byte_of(direct, 0)?, byte_of(direct, 1)?))
}

fn word_if(op: BinaryOp, width: Width, low: OperandByte, high: OperandByte) -> Option<Form>
    ensures { result ≡ word_if (takes_bytes op) op width low high }
{
    match (op, width) {
        (
            BinaryOp::Add | BinaryOp::Sub | BinaryOp::BitAnd | BinaryOp::BitXor | BinaryOp::BitOr,
            Width::Ax,
        ) => Some(Form::Word(op, low, high)),
        (_, _) => None,
    }
}

// A number of elements of one byte behind a pointer.
fn element_form(op: BinaryOp, size: u32, low: OperandByte, high: OperandByte) -> Option<Form>
    ensures { result ≡ element_form op size low high }
{
    match op {
        BinaryOp::Add | BinaryOp::Sub if size == 1 => Some(Form::Word(op, low, high)),
        _ => None,
    }
}

// The right operand is read: the left one is in AX.
fn right_form(op: BinaryOp, operands: Operands, low: OperandByte, high: OperandByte) -> Option<Form>
    ensures { result ≡ right_form op operands low high }
{
    match operands {
        Operands::Numbers(kind) => word_if(op, width_of(kind), low, high),
        Operands::PointerFirst(size) => element_form(op, size, low, high),
        Operands::PointerLast(size) => match op {
            BinaryOp::Add => Some(Form::Indexed(size, low, high)),
            _ => None,
        },
        Operands::Pointers(size) => match op {
            BinaryOp::Sub => Some(Form::Distance(size, low, high)),
            _ => None,
        },
    }
}

fn under_if(width: Width, low: OperandByte, high: OperandByte) -> Option<Form>
    ensures { result ≡ under_if width low high }
{
    match width {
        Width::Ax => Some(Form::Under(low, high)),
        Width::Eax => None,
    }
}

// The left operand is read: the right one is in AX.
fn left_form(op: BinaryOp, operands: Operands, low: OperandByte, high: OperandByte) -> Option<Form>
    ensures { result ≡ left_form op operands low high }
{
    match operands {
        Operands::Numbers(kind) => match op {
            BinaryOp::Sub => under_if(width_of(kind), low, high),
            _ => word_if(op, width_of(kind), low, high),
        },
        Operands::PointerFirst(size) => match op {
            BinaryOp::Add => Some(Form::Indexed(size, low, high)),
            _ => None,
        },
        Operands::PointerLast(_) => None,
        Operands::Pointers(size) => match op {
            BinaryOp::Sub => Some(Form::DistanceUnder(size, low, high)),
            _ => None,
        },
    }
}

/// A constant on the right.
pub fn constant_right(op: BinaryOp, operands: Operands, b: &TExpr) -> Option<Form>
    ensures { result ≡ constant_right op operands (typed_of b.now) }
{
    let z = constant_in(b)?;
    constant_form(op, operands, residue_of(z))
}

fn direct_right(op: BinaryOp, operands: Operands, b: Option<Direct>) -> Option<Form>
    ensures { result ≡ direct_right op operands b }
{
    let (low, high) = word_in(b?)?;
    right_form(op, operands, low, high)
}

fn direct_left(op: BinaryOp, operands: Operands, a: Option<Direct>) -> Option<Form>
    ensures { result ≡ direct_left op operands a }
{
    let (low, high) = word_in(a?)?;
    left_form(op, operands, low, high)
}

/// How an operator is computed on two operands, if one of them is read where it lies: the left one behind
/// the right one only where that leaves it as it is.
pub fn reading_of(
    frame: &Frame<'_>,
    pushed: u16,
    op: BinaryOp,
    operands: Operands,
    a: &TExpr,
    b: &TExpr,
) -> Operating
    ensures { result ≡ reading_of frame.now pushed op operands (typed_of a.now) (typed_of b.now) }
{
    if let Some(form) = constant_right(op, operands, b) {
        return Operating::Left(form);
    }
    if let Some(form) = direct_right(op, operands, direct_of(frame, pushed, b)) {
        return Operating::Left(form);
    }
    let left = direct_of(frame, pushed, a);
    match direct_left(op, operands, left) {
        Some(form) if is_fixed(left) || is_pure(b) => Operating::Right(form),
        _ => Operating::Stacked,
    }
}

// A number of elements of one byte behind a pointer that waits in ptr2.
fn held_elements(op: BinaryOp) -> Option<Form>
    ensures { result ≡ held_elements op }
{
    match op {
        BinaryOp::Add => Some(Form::Word(op, held_low(), held_high())),
        BinaryOp::Sub => Some(Form::Under(held_low(), held_high())),
        _ => None,
    }
}

// The left operand waits in ptr2: the right one is in AX.
fn held_form(op: BinaryOp, operands: Operands) -> Option<Form>
    ensures { result ≡ held_form op operands }
{
    match operands {
        Operands::Numbers(_) => left_form(op, operands, held_low(), held_high()),
        Operands::PointerFirst(size) if size == 1 => held_elements(op),
        Operands::PointerFirst(_) | Operands::PointerLast(_) => None,
        Operands::Pointers(size) => match op {
            BinaryOp::Sub => Some(Form::DistanceUnder(size, held_low(), held_high())),
            _ => None,
        },
    }
}

fn form_of(
    frame: &Frame<'_>,
    pushed: u16,
    op: BinaryOp,
    operands: Operands,
    a: &TExpr,
    b: &TExpr,
) -> Operating
    ensures { result ≡ operating_of frame.now pushed op operands (typed_of a.now) (typed_of b.now) }
{
    match reading_of(frame, pushed, op, operands, a, b) {
        Operating::Stacked => match held_form(op, operands) {
            Some(form) if is_light(frame, pushed, b) => Operating::Held(form),
            _ => Operating::Stacked,
        },
        how => how,
    }
}

/// How an operator is computed on two operands. One that is left out has no labels.
pub fn operating_of(
    frame: &Frame<'_>,
    pushed: u16,
    op: BinaryOp,
    operands: Operands,
    a: &TExpr,
    b: &TExpr,
) -> Operating
    ensures exact { result ≡ operating_of frame.now pushed op operands (typed_of a.now) (typed_of b.now) }
    ensures free { OperatesFree result (typed_of a.now) (typed_of b.now) }
{
    form_of(frame, pushed, op, operands, a, b)
}

// Behind the operand in the primary register.
fn put_value_form(form: Form, label: u32, draft: &mut Draft) -> Result<(), AllocError>
    ensures lines { OnOk result (draft.new ≡ with_lines draft.old (value_form form label)) }
    ensures kept { OnErr result (Keeps draft.old draft.new) }
{
    match form {
        Form::Sum(number) => put_add_number(number, label, draft),
        Form::LongSum(number) => {
            add(IntType::ULong, number, draft)?;
            put(draft, &[Label(label)])
        }
        Form::Mask(op, number) => {
            put_long_mask(op, number, draft)?;
            put(draft, &[Label(label)])
        }
        Form::Constant(kind, quick) => put_quick(kind, quick, label, draft),
        Form::Word(op, low, high) => {
            put_word(op, low, high, label, draft)?;
            place(op, label, draft)
        }
        Form::Under(low, high) => {
            put_taken_from(low, high, draft)?;
            put(draft, &[Label(label)])
        }
        Form::Indexed(size, low, high) => {
            put_elements(size, draft)?;
            put_word(BinaryOp::Add, low, high, label, draft)
        }
        Form::Distance(size, low, high) => {
            put_word(BinaryOp::Sub, low, high, label, draft)?;
            divide(size, draft)
        }
        Form::DistanceUnder(size, low, high) => {
            put_taken_from(low, high, draft)?;
            divide(size, draft)?;
            put(draft, &[Label(label)])
        }
    }
}

// The label of an operator on the bytes of a word, where those lines do not place it.
fn place(op: BinaryOp, label: u32, draft: &mut Draft) -> Result<(), AllocError>
    ensures lines { OnOk result (draft.new ≡ with_lines draft.old (placed op label)) }
    ensures kept { OnErr result (Keeps draft.old draft.new) }
{
    match op {
        BinaryOp::Add | BinaryOp::Sub => put(draft, &[]),
        _ => put(draft, &[Label(label)]),
    }
}

fn put_pointed_word(
    op: BinaryOp,
    low: OperandByte,
    high: OperandByte,
    label: u32,
    draft: &mut Draft,
) -> Result<(), AllocError>
    ensures lines { OnOk result (draft.new ≡ with_lines draft.old (pointed_word op low high label)) }
    ensures kept { OnErr result (Keeps draft.old draft.new) }
{
    match op {
        BinaryOp::Add => {
            put_pointed_sum(low, high, draft)?;
            put(draft, &[Label(label)])
        }
        _ => {
            put_word(op, low, high, label, draft)?;
            place(op, label, draft)?;
            put_pointer(draft)
        }
    }
}

// The same where ptr1 is to have the result.
fn put_pointed_form(form: Form, label: u32, draft: &mut Draft) -> Result<(), AllocError>
    ensures lines { OnOk result (draft.new ≡ with_lines draft.old (pointed_form form label)) }
    ensures kept { OnErr result (Keeps draft.old draft.new) }
{
    match form {
        Form::Word(op, low, high) => put_pointed_word(op, low, high, label, draft),
        Form::Indexed(size, low, high) => {
            put_elements(size, draft)?;
            put_pointed_word(BinaryOp::Add, low, high, label, draft)
        }
        Form::Sum(_)
        | Form::LongSum(_)
        | Form::Mask(_, _)
        | Form::Constant(_, _)
        | Form::Under(_, _)
        | Form::Distance(_, _, _)
        | Form::DistanceUnder(_, _, _) => {
            put_value_form(form, label, draft)?;
            put_pointer(draft)
        }
    }
}

/// Behind the operand in the primary register, to where the result is wanted. The label is the operator's own.
pub fn put_form(
    destination: Destination,
    form: Form,
    label: u32,
    draft: &mut Draft,
) -> Result<(), AllocError>
    ensures lines { OnOk result (draft.new ≡ with_lines draft.old (form_code destination form label)) }
    ensures kept { OnErr result (Keeps draft.old draft.new) }
{
    match destination {
        Destination::Registers => put_value_form(form, label, draft),
        Destination::Pointer => put_pointed_form(form, label, draft),
    }
}

/// Behind the left operand, which then waits: a number of elements becomes one of bytes.
pub fn put_waiting(operands: Operands, draft: &mut Draft) -> Result<(), AllocError>
    ensures lines { OnOk result (draft.new ≡ with_lines draft.old (waiting_code operands)) }
    ensures kept { OnErr result (Keeps draft.old draft.new) }
{
    match operands {
        Operands::PointerLast(size) => {
            put_elements(size, draft)?;
            push(Width::Ax, draft)
        }
        _ => put_between(operands, draft),
    }
}

/// Behind the right operand then, which is of this type.
pub fn put_stacked(
    op: BinaryOp,
    operands: Operands,
    right: IntType,
    draft: &mut Draft,
) -> Result<(), AllocError>
    ensures lines { OnOk result (draft.new ≡ with_lines draft.old (stacked_code op operands right)) }
    ensures kept { OnErr result (Keeps draft.old draft.new) }
{
    match operands {
        Operands::PointerFirst(size) => {
            put_elements(size, draft)?;
            put_wide(op, IntType::UInt, draft)
        }
        _ => put_behind(op, operands, right, draft),
    }
}
