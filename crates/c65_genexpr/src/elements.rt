// Elements of small arrays, which are read by Y behind the array's symbol (C90 6.3.2.1).
ghost use Rattle.std.specs.Prelude.{◌≡◌, ◌∷◌, [], OnOk, OnErr};
ghost use Rattle.c65_csem.specs.Views.{typed_of};
ghost use Rattle.c65_genwide.specs.Lines.{with_lines, Keeps};
ghost use Rattle.c65_ctype.specs.Views.{ty_of};
ghost use Rattle.c65_gendirect.specs.Words.{first_byte_code};
ghost use Rattle.c65_genexpr.specs.Elements.{small_array, array_of, sum_by, sum_element, element_of, element_at, doublings, doubled_code, scaled_code, element_bytes_code, element_value_code, element_byte_code, either_byte_code, element_test_code};
ghost use Rattle.c65_genexpr.specs.Leaving.{ReadFree, OperandFree, ElementFree};
ghost use Rattle.c65_genexpr.specs.Lows.{is_number, byte_in, low_operand};

use crate::constants::constant_in;
use crate::direct::direct_of;
use crate::operands::{Operands, operands_of};
use crate::places::more;
use crate::types::{access_of, offset_at};
use crate::wanted::put_branch;
use c65_base::BinaryOp;
use c65_code::Line::Do;
use c65_code::Operand::{At, Nothing};
use c65_code::{Draft, Sym};
use c65_csem::{TExpr, TKind};
use c65_ctype::CType;
use c65_genchange::{instruction, put_carry};
use c65_gendirect::{OperandByte, byte_of, put_op};
use c65_genframe::Frame;
use c65_genload::{Access, Extent, extent_of};
use c65_genshift::put_elements;
use c65_genwide::{narrow, put};
use c65_ints::IntType;
use c65_mach::Mode::{AbsoluteY, Accumulator, Implied};
use c65_mach::Op::{Asl, Lda, Ldx, Ora, Tay};
use std::alloc::AllocError;

/// What lies so far behind the beginning of an element of an array in data of at most 256 bytes. Elements have so many
/// bytes.
#[derive(Clone, Copy, Debug, PartialEq, Eq)]
pub struct Element {
    pub sym: Sym,
    pub at: u16,
    pub size: u32,
}

// The symbol of a whole object in data, or of a literal, of 1 to 256 bytes.
fn small_array(frame: &Frame<'_>, e: &TExpr) -> Option<Sym>
    ensures { result ≡ small_array frame.now (typed_of e.now) }
{
    let bytes = frame.bytes(&e.ty.ty);
    if bytes == 0 || bytes > 256 {
        return None;
    }
    match &e.kind {
        TKind::Literal(literal) => Some(frame.numbers().literal(*literal)),
        TKind::Object(object) => match frame.home(*object) {
            None => Some(frame.numbers().object(*object)),
            Some(_) => None,
        },
        _ => None,
    }
}

fn array_of(frame: &Frame<'_>, e: &TExpr) -> Option<Sym>
    ensures { result ≡ array_of frame.now (typed_of e.now) }
{
    match &e.kind {
        TKind::Decay(a) => small_array(frame, a),
        _ => None,
    }
}

fn sum_by(op: BinaryOp, operands: Operands, index: Option<i64>, sym: Option<Sym>) -> Option<Element>
    ensures { result ≡ sum_by op operands index sym }
{
    match op {
        BinaryOp::Add => match operands {
            Operands::PointerFirst(size) => match index {
                None => Some(Element {
                    sym: sym?,
                    at: 0,
                    size,
                }),
                Some(_) => None,
            },
            Operands::Numbers(_) | Operands::PointerLast(_) | Operands::Pointers(_) => None,
        },
        _ => None,
    }
}

// What the sum of such an array and an index that is no constant names.
fn sum_element(frame: &Frame<'_>, e: &TExpr) -> Option<Element>
    ensures { result ≡ sum_element frame.now (typed_of e.now) }
{
    match &e.kind {
        TKind::Binary(op, a, b) => {
            let operands = operands_of(frame, &a.ty.ty, &b.ty.ty);
            sum_by(*op, operands, constant_in(b), array_of(frame, a))
        }
        TKind::Const(_)
        | TKind::Null
        | TKind::Literal(_)
        | TKind::Object(_)
        | TKind::Func(_)
        | TKind::Deref(_)
        | TKind::Member(_, _)
        | TKind::Load(_)
        | TKind::Address(_)
        | TKind::Decay(_)
        | TKind::Convert(_)
        | TKind::Unary(_, _)
        | TKind::And(_, _)
        | TKind::Or(_, _)
        | TKind::Cond(_, _, _)
        | TKind::Comma(_, _)
        | TKind::Assign(_, _)
        | TKind::AssignOp(_, _, _, _)
        | TKind::AssignStep(_, _, _)
        | TKind::Step(_, _)
        | TKind::Copy(_, _)
        | TKind::Call(_, _)
        | TKind::Pack(_)
        | TKind::Spill(_, _)
        | TKind::Rest => None,
    }
}

/// The element of a small array that a place is, or that it is a part of.
fn element_of(frame: &Frame<'_>, e: &TExpr) -> Option<Element>
    ensures { result ≡ element_of frame.now (typed_of e.now) }
{
    match &e.kind {
        TKind::Deref(a) => sum_element(frame, a),
        TKind::Member(base, member) => {
            let element = element_of(frame, base)?;
            let offset = offset_at(&frame.parts().types, &base.ty.ty, *member);
            let at = more(element.at, (offset % 65_536) as u16);
            Some(Element { at, ..element })
        }
        TKind::Const(_)
        | TKind::Null
        | TKind::Literal(_)
        | TKind::Object(_)
        | TKind::Func(_)
        | TKind::Load(_)
        | TKind::Address(_)
        | TKind::Decay(_)
        | TKind::Convert(_)
        | TKind::Unary(_, _)
        | TKind::Binary(_, _, _)
        | TKind::And(_, _)
        | TKind::Or(_, _)
        | TKind::Cond(_, _, _)
        | TKind::Comma(_, _)
        | TKind::Assign(_, _)
        | TKind::AssignOp(_, _, _, _)
        | TKind::AssignStep(_, _, _)
        | TKind::Step(_, _)
        | TKind::Copy(_, _)
        | TKind::Call(_, _)
        | TKind::Pack(_)
        | TKind::Spill(_, _)
        | TKind::Rest => None,
    }
}

fn kept_element(frame: &Frame<'_>, e: &TExpr) -> Option<(Element, IntType)>
    ensures { result ≡ element_at frame.now (typed_of e.now) }
{
    match access_of(&frame.parts().types, e) {
        Access::Whole(kind) => match extent_of(kind) {
            Extent::One | Extent::Two => {
                let element = element_of(frame, e)?;
                Some((element, kind))
            }
            Extent::Three | Extent::Four => None,
        },
        Access::Part(_) => None,
    }
}

/// The same where one byte or two are kept there, which are no bit-field, and their type. It has the labels of its index
/// and of its sum.
pub fn element_at(frame: &Frame<'_>, e: &TExpr) -> Option<(Element, IntType)>
    ensures exact { result ≡ element_at frame.now (typed_of e.now) }
    ensures free { ElementFree result (typed_of e.now) }
{
    kept_element(frame, e)
}

// ---- the low byte of an index

pub fn is_number(ty: &CType) -> bool
    ensures { result ≡ is_number (ty_of ty.now) }
{
    matches!(ty, CType::Int(_))
}

fn read_byte(frame: &Frame<'_>, pushed: u16, e: &TExpr) -> Option<OperandByte>
    ensures { result ≡ byte_in frame.now pushed (typed_of e.now) }
{
    byte_of(direct_of(frame, pushed, e)?, 0)
}

/// The low byte of a value that is read where it lies, and so has no labels.
pub fn byte_in(frame: &Frame<'_>, pushed: u16, e: &TExpr) -> Option<OperandByte>
    ensures exact { result ≡ byte_in frame.now pushed (typed_of e.now) }
    ensures free { ReadFree result (typed_of e.now) }
{
    read_byte(frame, pushed, e)
}

fn right_byte(
    frame: &Frame<'_>,
    pushed: u16,
    op: BinaryOp,
    a: &TExpr,
    b: &TExpr,
) -> Option<OperandByte>
    ensures { result ≡ low_operand frame.now pushed op (typed_of a.now) (typed_of b.now) }
{
    match op {
        BinaryOp::Add | BinaryOp::Sub | BinaryOp::BitAnd | BinaryOp::BitXor | BinaryOp::BitOr => {
            if is_number(&a.ty.ty) && is_number(&b.ty.ty) {
                byte_in(frame, pushed, b)
            } else {
                None
            }
        }
        _ => None,
    }
}

/// Of an operator whose low byte is that of the operands' low bytes, the right one, where both are numbers. It has no
/// labels, and the operator is no relation.
pub fn low_operand(
    frame: &Frame<'_>,
    pushed: u16,
    op: BinaryOp,
    a: &TExpr,
    b: &TExpr,
) -> Option<OperandByte>
    ensures exact { result ≡ low_operand frame.now pushed op (typed_of a.now) (typed_of b.now) }
    ensures free { OperandFree result op (typed_of b.now) }
{
    right_byte(frame, pushed, op, a, b)
}

// ---- lines

/// The low byte in A by such an operator and a byte.
pub fn put_low_operator(
    op: BinaryOp,
    byte: OperandByte,
    draft: &mut Draft,
) -> Result<(), AllocError>
    ensures lines { OnOk result (draft.new ≡ with_lines draft.old (first_byte_code op byte)) }
    ensures kept { OnErr result (Keeps draft.old draft.new) }
{
    put_carry(op, draft)?;
    put_op(instruction(op), byte, draft)
}

/// How often one byte is doubled to make elements of so many bytes from a number of them.
pub fn doublings(size: u32) -> Option<u8>
    ensures { result ≡ doublings size }
{
    match size {
        1 => Some(0),
        2 => Some(1),
        4 => Some(2),
        8 => Some(3),
        _ => None,
    }
}

fn put_doubled(count: u8, draft: &mut Draft) -> Result<(), AllocError>
    ensures lines { OnOk result (draft.new ≡ with_lines draft.old (doubled_code count)) }
    ensures kept { OnErr result (Keeps draft.old draft.new) }
{
    let double = Do(Asl, Accumulator, Nothing);
    match count {
        0 => put(draft, &[]),
        1 => put(draft, &[double]),
        2 => put(draft, &[double, double]),
        _ => put(draft, &[double, double, double]),
    }
}

/// The low byte of a number of elements, in A, becomes that of a number of bytes.
pub fn put_scaled(size: u32, draft: &mut Draft) -> Result<(), AllocError>
    ensures lines { OnOk result (draft.new ≡ with_lines draft.old (scaled_code size)) }
    ensures kept { OnErr result (Keeps draft.old draft.new) }
{
    match doublings(size) {
        Some(count) => put_doubled(count, draft),
        None => put_elements(size, draft),
    }
}

fn put_element_bytes(element: Element, extent: Extent, draft: &mut Draft) -> Result<(), AllocError>
    ensures lines { OnOk result (draft.new ≡ with_lines draft.old (element_bytes_code element extent)) }
    ensures kept { OnErr result (Keeps draft.old draft.new) }
{
    let Element { sym, at, .. } = element;
    match extent {
        Extent::One => put(draft, &[Do(Lda, AbsoluteY, At(sym, at))]),
        Extent::Two | Extent::Three | Extent::Four => put(
            draft,
            &[
                Do(Ldx, AbsoluteY, At(sym, more(at, 1))),
                Do(Lda, AbsoluteY, At(sym, at)),
            ],
        ),
    }
}

/// What is kept in an element, behind the low byte of its index.
pub fn put_element_value(
    element: Element,
    kind: IntType,
    draft: &mut Draft,
) -> Result<(), AllocError>
    ensures lines { OnOk result (draft.new ≡ with_lines draft.old (element_value_code element kind)) }
    ensures kept { OnErr result (Keeps draft.old draft.new) }
{
    put_scaled(element.size, draft)?;
    put(draft, &[Do(Tay, Implied, Nothing)])?;
    put_element_bytes(element, extent_of(kind), draft)?;
    narrow(kind, draft)
}

/// Its low byte comes to A.
pub fn put_element_byte(element: Element, draft: &mut Draft) -> Result<(), AllocError>
    ensures lines { OnOk result (draft.new ≡ with_lines draft.old (element_byte_code element)) }
    ensures kept { OnErr result (Keeps draft.old draft.new) }
{
    put_scaled(element.size, draft)?;
    put(
        draft,
        &[
            Do(Tay, Implied, Nothing),
            Do(Lda, AbsoluteY, At(element.sym, element.at)),
        ],
    )
}

fn put_either_byte(element: Element, extent: Extent, draft: &mut Draft) -> Result<(), AllocError>
    ensures lines { OnOk result (draft.new ≡ with_lines draft.old (either_byte_code element extent)) }
    ensures kept { OnErr result (Keeps draft.old draft.new) }
{
    let Element { sym, at, .. } = element;
    match extent {
        Extent::One => put(draft, &[Do(Lda, AbsoluteY, At(sym, at))]),
        Extent::Two | Extent::Three | Extent::Four => put(
            draft,
            &[
                Do(Lda, AbsoluteY, At(sym, at)),
                Do(Ora, AbsoluteY, At(sym, more(at, 1))),
            ],
        ),
    }
}

/// A test of it.
pub fn put_element_test(
    element: Element,
    kind: IntType,
    sense: bool,
    to: u32,
    draft: &mut Draft,
) -> Result<(), AllocError>
    ensures lines { OnOk result (draft.new ≡ with_lines draft.old (element_test_code element kind sense to)) }
    ensures kept { OnErr result (Keeps draft.old draft.new) }
{
    put_scaled(element.size, draft)?;
    put(draft, &[Do(Tay, Implied, Nothing)])?;
    put_either_byte(element, extent_of(kind), draft)?;
    put_branch(sense, to, draft)
}
