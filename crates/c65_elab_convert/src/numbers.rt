// Operators on two integers (C90 6.3.5 to 6.3.12).
ghost use Rattle.std.specs.Prelude.{◌≡◌, IfOk};
ghost use Rattle.c65_ctype.specs.Views.{qty_of};
ghost use Rattle.c65_csem.specs.Views.{typed_of};
ghost use Rattle.c65_elab_convert.specs.Numbers as numbers;

use crate::values::{as_int, common};
use crate::waiting::beside;
use c65_base::{BinaryOp, boxed_pair};
use c65_csem::{TExpr, TKind, int_type};
use c65_ctype::QType;
use c65_ints::IntType;
use std::alloc::{AllocError, Global};

/// What operators of two operands ask of their operands.
#[derive(Clone, Copy)]
pub(crate) enum Group {
    /// Numbers of a common type.
    Arithmetic,
    Add,
    Subtract,
    Shift,
    Order,
    Equality,
}

pub(crate) fn group_for(op: BinaryOp) -> Group
    ensures { result ≡ numbers.group_of op }
{
    match op {
        BinaryOp::Mul
        | BinaryOp::Div
        | BinaryOp::Rem
        | BinaryOp::BitAnd
        | BinaryOp::BitXor
        | BinaryOp::BitOr => Group::Arithmetic,
        BinaryOp::Add => Group::Add,
        BinaryOp::Sub => Group::Subtract,
        BinaryOp::Shl | BinaryOp::Shr => Group::Shift,
        BinaryOp::Lt | BinaryOp::Gt | BinaryOp::Le | BinaryOp::Ge => Group::Order,
        BinaryOp::Eq | BinaryOp::Ne => Group::Equality,
    }
}

/// An operator with its operands.
pub(crate) fn joined(
    alloc: Global,
    op: BinaryOp,
    ty: QType,
    a: TExpr,
    b: TExpr,
) -> Result<TExpr, AllocError>
    ensures { IfOk result (λ t. typed_of t ≡ numbers.joined op (qty_of ty) (typed_of a) (typed_of b)) }
{
    let ((a, b), ty) = beside(boxed_pair(alloc, a, b), ty)?;
    let kind = TKind::Binary(op, a, b);
    Ok(TExpr { ty, kind })
}

/// An operator on two operands that are converted to these types.
fn converted(
    alloc: Global,
    op: BinaryOp,
    ty: IntType,
    j: IntType,
    k: IntType,
    a: TExpr,
    b: TExpr,
) -> Result<TExpr, AllocError>
    ensures { IfOk result (λ t. typed_of t ≡ numbers.converted op ty j k (typed_of a) (typed_of b)) }
{
    let (a, b) = beside(as_int(alloc, j, a), b)?;
    let (b, a) = beside(as_int(alloc, k, b), a)?;
    joined(alloc, op, int_type(ty), a, b)
}

/// An operator on two integers whose promoted types are these.
pub(crate) fn on_numbers(
    alloc: Global,
    op: BinaryOp,
    j: IntType,
    k: IntType,
    a: TExpr,
    b: TExpr,
) -> Result<TExpr, AllocError>
    ensures { IfOk result (λ t. typed_of t ≡ numbers.on_numbers op j k (typed_of a) (typed_of b)) }
{
    let both = common(j, k);
    match group_for(op) {
        Group::Shift => converted(alloc, op, j, j, k, a, b),
        Group::Order | Group::Equality => converted(alloc, op, IntType::Int, both, both, a, b),
        Group::Arithmetic | Group::Add | Group::Subtract => {
            converted(alloc, op, both, both, both, a, b)
        }
    }
}
