// Tests on the types of operands (C90 6.3.3 to 6.3.16).
ghost use Rattle.std.specs.Prelude.{◌≡◌};
ghost use Rattle.c65_ctype.specs.Views.{qty_of, types_of};
ghost use Rattle.c65_csem_check.specs.Expressions;

use crate::same::same;
use crate::types::{
    int_of, is_int, is_int_of, is_moved, is_plain_pointer, is_plain_scalar, is_promoted,
    is_promoted_int,
};
use c65_base::{BinaryOp, UnaryOp};
use c65_ctype::{QType, Types};
use c65_ints::IntType;

fn numbers_by(kind: Option<IntType>, a: &QType, b: &QType) -> bool
    ensures { result ≡ Expressions.numbers_by kind (qty_of a.now) (qty_of b.now) }
{
    match kind {
        Some(kind) => is_promoted(kind) && is_int_of(a, kind) && is_int_of(b, kind),
        None => false,
    }
}

fn are_numbers(ty: &QType, a: &QType, b: &QType) -> bool
    ensures { result ≡ Expressions.are_numbers (qty_of ty.now) (qty_of a.now) (qty_of b.now) }
{
    numbers_by(int_of(ty), a, b)
}

fn are_shifted(ty: &QType, a: &QType, b: &QType) -> bool
    ensures { result ≡ Expressions.are_shifted (qty_of ty.now) (qty_of a.now) (qty_of b.now) }
{
    is_promoted_int(a) && is_promoted_int(b) && same(ty, a)
}

fn are_compared(ty: &QType, a: &QType, b: &QType) -> bool
    ensures { result ≡ Expressions.are_compared (qty_of ty.now) (qty_of a.now) (qty_of b.now) }
{
    is_int_of(ty, IntType::Int)
        && (numbers_by(int_of(a), a, b) || (is_plain_pointer(a) && is_plain_pointer(b)))
}

fn are_added(types: &Types, ty: &QType, a: &QType, b: &QType) -> bool
    ensures { result ≡ Expressions.are_added (types_of types.now) (qty_of ty.now) (qty_of a.now) (qty_of b.now) }
{
    are_numbers(ty, a, b)
        || (is_moved(types, a) && is_int(b) && same(ty, a))
        || (is_int(a) && is_moved(types, b) && same(ty, b))
}

fn are_subtracted(types: &Types, ty: &QType, a: &QType, b: &QType) -> bool
    ensures { result ≡ Expressions.are_subtracted (types_of types.now) (qty_of ty.now) (qty_of a.now) (qty_of b.now) }
{
    are_numbers(ty, a, b)
        || (is_moved(types, a) && is_int(b) && same(ty, a))
        || (is_moved(types, a) && is_moved(types, b) && is_int_of(ty, IntType::Int))
}

/// Whether an operator takes operands of these types and gives this one.
pub fn operands(types: &Types, op: BinaryOp, ty: &QType, a: &QType, b: &QType) -> bool
    ensures { result ≡ Expressions.operands (types_of types.now) op (qty_of ty.now) (qty_of a.now) (qty_of b.now) }
{
    match op {
        BinaryOp::Mul
        | BinaryOp::Div
        | BinaryOp::Rem
        | BinaryOp::BitAnd
        | BinaryOp::BitXor
        | BinaryOp::BitOr => are_numbers(ty, a, b),
        BinaryOp::Add => are_added(types, ty, a, b),
        BinaryOp::Sub => are_subtracted(types, ty, a, b),
        BinaryOp::Shl | BinaryOp::Shr => are_shifted(ty, a, b),
        BinaryOp::Lt | BinaryOp::Gt | BinaryOp::Le | BinaryOp::Ge | BinaryOp::Eq | BinaryOp::Ne =>
            are_compared(ty, a, b),
    }
}

/// Whether an operator takes an operand of this type and gives this one.
pub fn operand(op: UnaryOp, ty: &QType, a: &QType) -> bool
    ensures { result ≡ Expressions.operand op (qty_of ty.now) (qty_of a.now) }
{
    match op {
        UnaryOp::Neg | UnaryOp::BitNot => is_promoted_int(a) && same(ty, a),
        UnaryOp::Not => is_int_of(ty, IntType::Int) && is_plain_scalar(a),
        _ => false,
    }
}

/// Whether a compound assignment computes in a type with a right operand of this type.
pub fn computes(op: BinaryOp, kind: IntType, b: &QType) -> bool
    ensures { result ≡ Expressions.computes op kind (qty_of b.now) }
{
    match op {
        BinaryOp::Mul
        | BinaryOp::Div
        | BinaryOp::Rem
        | BinaryOp::Add
        | BinaryOp::Sub
        | BinaryOp::BitAnd
        | BinaryOp::BitXor
        | BinaryOp::BitOr => is_int_of(b, kind),
        BinaryOp::Shl | BinaryOp::Shr => is_promoted_int(b),
        _ => false,
    }
}

/// Whether an operator moves a pointer.
pub fn steps(op: BinaryOp) -> bool
    ensures { result ≡ Expressions.steps op }
{
    match op {
        BinaryOp::Add | BinaryOp::Sub => true,
        _ => false,
    }
}
