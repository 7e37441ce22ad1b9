// Operators between their two operands (C90 6.3.3 to 6.3.12).
ghost use Rattle.std.specs.Prelude.{◌≡◌, OnOk, OnErr};
ghost use Rattle.c65_ctype.specs.Views.{ty_of};
ghost use Rattle.c65_genwide.specs.Lines.{with_lines, Keeps};
ghost use Rattle.c65_genexpr.specs.Operands.{operands_of, computes, between_code, behind_code, unary_code, conversion_code, same_truth};

use crate::types::{kind_of, target_bytes};
use c65_base::{BinaryOp, UnaryOp};
use c65_code::{Draft, Routine, UnaryRoutine, Width};
use c65_csem::is_scalar;
use c65_ctype::CType;
use c65_genframe::Frame;
use c65_genload::{bytes_of, convert, divide, push, scale};
use c65_genwide::{put, put_wide, run, width_of};
use c65_ints::IntType;
use std::alloc::AllocError;

/// What an operator works on: two numbers of a type, a pointer and a number of elements, a number of
/// elements and a pointer, or two pointers. Elements have so many bytes.
#[derive(Clone, Copy, Debug, PartialEq, Eq)]
pub enum Operands {
    Numbers(IntType),
    PointerFirst(u32),
    PointerLast(u32),
    Pointers(u32),
}

pub fn operands_of(frame: &Frame<'_>, left: &CType, right: &CType) -> Operands
    ensures { result ≡ operands_of frame.now (ty_of left.now) (ty_of right.now) }
{
    match (left, right) {
        (CType::Pointer(_), CType::Pointer(_)) => Operands::Pointers(target_bytes(frame, left)),
        (CType::Pointer(_), _) => Operands::PointerFirst(target_bytes(frame, left)),
        (_, CType::Pointer(_)) => Operands::PointerLast(target_bytes(frame, right)),
        (_, _) => Operands::Numbers(kind_of(left)),
    }
}

/// The type in which an operator computes; pointers are unsigned ints.
pub fn computes(operands: Operands) -> IntType
    ensures { result ≡ computes operands }
{
    match operands {
        Operands::Numbers(kind) => kind,
        Operands::PointerFirst(_) | Operands::PointerLast(_) | Operands::Pointers(_) => {
            IntType::UInt
        }
    }
}

/// Behind the left operand, which then waits.
pub fn put_between(operands: Operands, draft: &mut Draft) -> Result<(), AllocError>
    ensures lines { OnOk result (draft.new ≡ with_lines draft.old (between_code operands)) }
    ensures kept { OnErr result (Keeps draft.old draft.new) }
{
    match operands {
        Operands::PointerLast(size) => {
            scale(size, draft)?;
            push(Width::Ax, draft)
        }
        Operands::Numbers(_) | Operands::PointerFirst(_) | Operands::Pointers(_) => {
            push(width_of(computes(operands)), draft)
        }
    }
}

/// Behind the right operand, which is of this type.
pub fn put_behind(
    op: BinaryOp,
    operands: Operands,
    right: IntType,
    draft: &mut Draft,
) -> Result<(), AllocError>
    ensures lines { OnOk result (draft.new ≡ with_lines draft.old (behind_code op operands right)) }
    ensures kept { OnErr result (Keeps draft.old draft.new) }
{
    match operands {
        Operands::Numbers(kind) => {
            convert(right, kind, draft)?;
            put_wide(op, kind, draft)
        }
        Operands::PointerFirst(size) => {
            scale(size, draft)?;
            put_wide(op, IntType::UInt, draft)
        }
        Operands::PointerLast(_) => put_wide(op, IntType::UInt, draft),
        Operands::Pointers(size) => {
            put_wide(op, IntType::UInt, draft)?;
            match op {
                BinaryOp::Sub => divide(size, draft),
                _ => put(draft, &[]),
            }
        }
    }
}

/// `-` and `~`.
pub fn put_unary(op: UnaryOp, width: Width, draft: &mut Draft) -> Result<(), AllocError>
    ensures lines { OnOk result (draft.new ≡ with_lines draft.old (unary_code op width)) }
    ensures kept { OnErr result (Keeps draft.old draft.new) }
{
    match op {
        UnaryOp::Neg => run(draft, Routine::Unary(UnaryRoutine::Neg, width)),
        UnaryOp::BitNot => run(draft, Routine::Unary(UnaryRoutine::Compl, width)),
        _ => put(draft, &[]),
    }
}

/// Whether a converted value is zero just where the value is.
pub fn same_truth(to: &CType, from: &CType) -> bool
    ensures { result ≡ same_truth (ty_of to.now) (ty_of from.now) }
{
    is_scalar(to) && is_scalar(from) && bytes_of(kind_of(from)) <= bytes_of(kind_of(to))
}

/// A conversion, also to void (C90 6.3.4).
pub fn put_conversion(to: &CType, from: IntType, draft: &mut Draft) -> Result<(), AllocError>
    ensures lines { OnOk result (draft.new ≡ with_lines draft.old (conversion_code (ty_of to.now) from)) }
    ensures kept { OnErr result (Keeps draft.old draft.new) }
{
    match to {
        CType::Void => put(draft, &[]),
        _ => convert(from, kind_of(to), draft),
    }
}
