// Operators of one operand (C90 6.3.3).
ghost use Rattle.std.specs.Prelude.{◌≡◌, IfOk, option_map};
ghost use Rattle.c65_base.specs.Answers.{Gives};
ghost use Rattle.c65_ctype.specs.Views.{ty_of, qty_of, types_of};
ghost use Rattle.c65_csem.specs.Views.{typed_of};
ghost use Rattle.c65_elab_convert.specs.Unaries as unaries;

use crate::classes::{
    Category, classify, is_bit_field, is_lvalue, is_spilled, is_void, unfit_operand,
};
use crate::values::{as_int, promotion, value};
use crate::waiting::beside;
use c65_base::{Code, Pos, Refusal, UnaryOp, boxed_beside};
use c65_csem::{TExpr, TKind, int_type, pointer_to};
use c65_ctype::{CType, QType, Types};
use c65_ints::IntType;
use std::alloc::{AllocError, Global};

/// An operator with its operand.
fn single(alloc: Global, op: UnaryOp, kind: IntType, e: TExpr) -> Result<TExpr, AllocError>
    ensures { IfOk result (λ t. typed_of t ≡ unaries.single op kind (typed_of e)) }
{
    Ok(TExpr {
        ty: int_type(kind),
        kind: TKind::Unary(op, Box::new(alloc, e)?),
    })
}

/// `-` or `~` of an integer.
fn changed(alloc: Global, op: UnaryOp, kind: IntType, e: TExpr) -> Result<TExpr, AllocError>
    ensures { IfOk result (λ t. typed_of t ≡ unaries.changed op kind (typed_of e)) }
{
    let e = as_int(alloc, kind, e)?;
    single(alloc, op, kind, e)
}

/// An operator on a value, where it is none of `*` and `&`.
fn on_value(alloc: Global, types: &Types, pos: Pos, op: UnaryOp, e: TExpr) -> Result<TExpr, Refusal>
    ensures { Gives typed_of result (unaries.on_value (types_of types.now) pos op (typed_of e)) }
{
    match (op, classify(&e.ty.ty)) {
        (UnaryOp::Neg | UnaryOp::BitNot, Category::Int(kind)) => {
            let kind = promotion(types, &e, kind);
            Ok(changed(alloc, op, kind, e)?)
        }
        (UnaryOp::Plus, Category::Int(kind)) => {
            let kind = promotion(types, &e, kind);
            Ok(as_int(alloc, kind, e)?)
        }
        (UnaryOp::Not, Category::Int(_) | Category::Pointer) => {
            Ok(single(alloc, op, IntType::Int, e)?)
        }
        _ => Err(unfit_operand(Code::Operands, pos, e)),
    }
}

/// What a pointer points to.
fn target(alloc: Global, ty: &CType) -> Result<Option<QType>, AllocError>
    ensures { IfOk result (λ o. option_map qty_of o ≡ unaries.target_of (ty_of ty.now)) }
{
    match ty {
        CType::Pointer(target) => Ok(Some(target.copy(alloc)?)),
        _ => Ok(None),
    }
}

/// What a value points to.
fn pointed(alloc: Global, pos: Pos, e: TExpr) -> Result<TExpr, Refusal>
    ensures { Gives typed_of result (unaries.pointed pos (typed_of e)) }
{
    let (ty, e) = beside(target(alloc, &e.ty.ty), e)?;
    match ty {
        Some(ty) => {
            let (e, ty) = boxed_beside(alloc, e, ty)?;
            let kind = TKind::Deref(e);
            Ok(TExpr { ty, kind })
        }
        None => Err(unfit_operand(Code::Operands, pos, e)),
    }
}

/// What a pointer names (C90 6.3.3.2). Refuses `Operands` where the operand is no pointer.
pub fn deref(alloc: Global, pos: Pos, e: TExpr) -> Result<TExpr, Refusal>
    ensures { Gives typed_of result (unaries.deref_of pos (typed_of e)) }
{
    let e = value(alloc, e)?;
    pointed(alloc, pos, e)
}

/// Whether an expression has an address, if it is no bit-field and not in a register.
fn has_address(e: &TExpr) -> bool
    ensures { result ≡ unaries.has_address (typed_of e.now) }
{
    match &e.kind {
        TKind::Func(_) => true,
        _ => is_lvalue(e) && !is_void(&e.ty.ty),
    }
}

fn pointer_from(alloc: Global, e: TExpr) -> Result<TExpr, AllocError>
    ensures { IfOk result (λ t. typed_of t ≡ unaries.pointer_from (typed_of e)) }
{
    let (ty, e) = beside(e.ty.copy(alloc), e)?;
    let (ty, e) = beside(pointer_to(alloc, ty), e)?;
    let (e, ty) = boxed_beside(alloc, e, ty)?;
    let kind = TKind::Address(e);
    Ok(TExpr { ty, kind })
}

/// The address of an expression (C90 6.3.3.2). `register` says that it names an object of class
/// `register` or a part of one. Refuses `Operands` where the operand is what a call gave or a part
/// of it, `NotModifiable` where it is neither an lvalue nor a function, `BitField` and
/// `RegisterAddress`.
pub fn address(
    alloc: Global,
    types: &Types,
    pos: Pos,
    register: bool,
    e: TExpr,
) -> Result<TExpr, Refusal>
    ensures { Gives typed_of result (unaries.address_of (types_of types.now) pos register (typed_of e)) }
{
    if is_spilled(&e) {
        drop(e);
        return Err(Refusal::fault(Code::Operands, pos));
    }
    if !has_address(&e) {
        drop(e);
        return Err(Refusal::fault(Code::NotModifiable, pos));
    }
    if is_bit_field(types, &e) {
        drop(e);
        return Err(Refusal::fault(Code::BitField, pos));
    }
    if register {
        drop(e);
        return Err(Refusal::fault(Code::RegisterAddress, pos));
    }
    Ok(pointer_from(alloc, e)?)
}

/// An operator of one operand (C90 6.3.3). `register` says that the operand names an object of
/// class `register` or a part of one, which matters for `&`. Refuses `Operands`, `VoidValue`, and
/// what `address` refuses.
pub fn unary(
    alloc: Global,
    types: &Types,
    pos: Pos,
    op: UnaryOp,
    register: bool,
    e: TExpr,
) -> Result<TExpr, Refusal>
    ensures { Gives typed_of result (unaries.unary_of (types_of types.now) pos op register (typed_of e)) }
{
    match op {
        UnaryOp::Deref => deref(alloc, pos, e),
        UnaryOp::Address => address(alloc, types, pos, register, e),
        UnaryOp::Neg | UnaryOp::Plus | UnaryOp::BitNot | UnaryOp::Not => {
            let e = value(alloc, e)?;
            on_value(alloc, types, pos, op, e)
        }
    }
}
