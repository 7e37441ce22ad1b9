// Assignment and steps (C90 6.3.2.4, 6.3.3.1, 6.3.16).
ghost use Rattle.std.specs.Prelude.{◌≡◌, IfOk};
ghost use Rattle.c65_base.specs.Answers.{Gives};
ghost use Rattle.c65_ctype.specs.Views.{ty_of, qty_of, types_of};
ghost use Rattle.c65_csem.specs.Views.{typed_of};
ghost use Rattle.c65_elab_convert.specs.Changes as changes;

use crate::classes::{Category, classify, unfit_operand, unfit_operands};
use crate::constness::is_modifiable;
use crate::numbers::{Group, group_for};
use crate::pointers::{agree, has_qualifiers, is_null, meet_in_void, target_size};
use crate::values::{as_int, as_plain, common, place_promotion, promotion, value};
use crate::waiting::beside;
use c65_base::{BinaryOp, Code, Pos, Refusal, StepKind, boxed_beside, boxed_pair};
use c65_csem::{TExpr, TKind, is_tag, unqualified};
use c65_ctype::{CType, QType, Types};
use c65_ints::IntType;
use std::alloc::{AllocError, Global};

/// Whether a pointer to `r` is assigned without a cast to one to `q` (C90 6.3.16.1).
fn takes_target(alloc: Global, types: &Types, q: &QType, r: &QType) -> Result<bool, AllocError>
    ensures { IfOk result (λ b. b ≡ changes.takes_target (types_of types.now) (qty_of q.now) (qty_of r.now)) }
{
    if !has_qualifiers(q, r) {
        Ok(false)
    } else if meet_in_void(q, r) {
        Ok(true)
    } else {
        agree(alloc, types, q, r)
    }
}

/// Whether a value is assigned to a type without a cast (C90 6.3.16.1).
fn takes(alloc: Global, types: &Types, ty: &CType, e: &TExpr) -> Result<bool, AllocError>
    ensures { IfOk result (λ b. b ≡ changes.takes (types_of types.now) (ty_of ty.now) (typed_of e.now)) }
{
    match (ty, &e.ty.ty) {
        (CType::Int(_), CType::Int(_)) => Ok(true),
        (CType::Pointer(q), CType::Pointer(r)) => {
            if is_null(e) {
                Ok(true)
            } else {
                takes_target(alloc, types, q, r)
            }
        }
        (CType::Pointer(_), CType::Int(_)) => Ok(is_null(e)),
        (CType::Struct(s), CType::Struct(t)) => Ok(*s == *t),
        _ => Ok(false),
    }
}

fn assigned_value(
    alloc: Global,
    types: &Types,
    pos: Pos,
    ty: &CType,
    e: TExpr,
) -> Result<TExpr, Refusal>
    ensures { Gives typed_of result (changes.assigned_value (types_of types.now) pos (ty_of ty.now) (typed_of e)) }
{
    let (fits, e) = beside(takes(alloc, types, ty, &e), e)?;
    if fits {
        Ok(as_plain(alloc, ty, e)?)
    } else {
        Err(unfit_operand(Code::Assignment, pos, e))
    }
}

/// The value of an expression converted to a type as by assignment (C90 6.3.16.1): for an
/// argument, an initialiser and the value that a function returns, too. A structure or union stays
/// as it is. Refuses `Assignment` and `VoidValue`.
pub fn assigned(
    alloc: Global,
    types: &Types,
    pos: Pos,
    ty: &CType,
    e: TExpr,
) -> Result<TExpr, Refusal>
    ensures { Gives typed_of result (changes.assigned_of (types_of types.now) pos (ty_of ty.now) (typed_of e)) }
{
    let e = value(alloc, e)?;
    assigned_value(alloc, types, pos, ty, e)
}

/// A structure or union, or a value, put into a place.
fn put(alloc: Global, a: TExpr, b: TExpr) -> Result<TExpr, AllocError>
    ensures { IfOk result (λ t. typed_of t ≡ changes.put (typed_of a) (typed_of b)) }
{
    let (ty, (a, b)) = beside(unqualified(alloc, &a.ty), (a, b))?;
    let is_copy = is_tag(&a.ty.ty);
    let ((a, b), ty) = beside(boxed_pair(alloc, a, b), ty)?;
    let kind = if is_copy {
        TKind::Copy(a, b)
    } else {
        TKind::Assign(a, b)
    };
    Ok(TExpr { ty, kind })
}

/// `=` (C90 6.3.16.1). Refuses `NotModifiable`, `Assignment` and `VoidValue`.
pub fn assign(alloc: Global, types: &Types, pos: Pos, a: TExpr, b: TExpr) -> Result<TExpr, Refusal>
    ensures { Gives typed_of result (changes.assign_of (types_of types.now) pos (typed_of a) (typed_of b)) }
{
    let (modifiable, (a, b)) = beside(is_modifiable(alloc, types, &a), (a, b))?;
    if !modifiable {
        drop(a);
        drop(b);
        return Err(Refusal::fault(Code::NotModifiable, pos));
    }
    let (b, a) = beside(assigned(alloc, types, pos, &a.ty.ty, b), a)?;
    Ok(put(alloc, a, b)?)
}

/// A compound assignment to a number.
fn computed(
    alloc: Global,
    op: BinaryOp,
    kind: IntType,
    right: IntType,
    a: TExpr,
    b: TExpr,
) -> Result<TExpr, AllocError>
    ensures { IfOk result (λ t. typed_of t ≡ changes.computed op kind right (typed_of a) (typed_of b)) }
{
    let (b, a) = beside(as_int(alloc, right, b), a)?;
    let (ty, (a, b)) = beside(unqualified(alloc, &a.ty), (a, b))?;
    let ((a, b), ty) = beside(boxed_pair(alloc, a, b), ty)?;
    let kind = TKind::AssignOp(op, kind, a, b);
    Ok(TExpr { ty, kind })
}

/// A compound assignment to a number whose promoted type is `j`, with one of promoted type `k`.
fn on_numbers(
    alloc: Global,
    pos: Pos,
    op: BinaryOp,
    j: IntType,
    k: IntType,
    a: TExpr,
    b: TExpr,
) -> Result<TExpr, Refusal>
    ensures { Gives typed_of result (changes.on_numbers pos op j k (typed_of a) (typed_of b)) }
{
    let both = common(j, k);
    match group_for(op) {
        Group::Shift => Ok(computed(alloc, op, j, k, a, b)?),
        Group::Arithmetic | Group::Add | Group::Subtract => {
            Ok(computed(alloc, op, both, both, a, b)?)
        }
        Group::Order | Group::Equality => Err(unfit_operands(pos, a, b)),
    }
}

/// `+=` and `-=` on a pointer, with an integer of this type.
fn on_pointer(
    alloc: Global,
    types: &Types,
    pos: Pos,
    op: BinaryOp,
    kind: IntType,
    a: TExpr,
    b: TExpr,
) -> Result<TExpr, Refusal>
    ensures { Gives typed_of result (changes.on_pointer (types_of types.now) pos op kind (typed_of a) (typed_of b)) }
{
    match group_for(op) {
        Group::Add | Group::Subtract => {
            let (_, (a, b)) = beside(target_size(types, pos, &a), (a, b))?;
            let kind = promotion(types, &b, kind);
            let (b, a) = beside(as_int(alloc, kind, b), a)?;
            let (ty, (a, b)) = beside(unqualified(alloc, &a.ty), (a, b))?;
            let ((a, b), ty) = beside(boxed_pair(alloc, a, b), ty)?;
            let kind = TKind::AssignStep(op, a, b);
            Ok(TExpr { ty, kind })
        }
        Group::Arithmetic | Group::Shift | Group::Order | Group::Equality => {
            Err(unfit_operands(pos, a, b))
        }
    }
}

/// A compound assignment of a value to a modifiable place.
fn changed(
    alloc: Global,
    types: &Types,
    pos: Pos,
    op: BinaryOp,
    a: TExpr,
    b: TExpr,
) -> Result<TExpr, Refusal>
    ensures { Gives typed_of result (changes.changed (types_of types.now) pos op (typed_of a) (typed_of b)) }
{
    match (classify(&a.ty.ty), classify(&b.ty.ty)) {
        (Category::Int(j), Category::Int(k)) => {
            let j = place_promotion(types, &a, j);
            let k = promotion(types, &b, k);
            on_numbers(alloc, pos, op, j, k, a, b)
        }
        (Category::Pointer, Category::Int(kind)) => {
            on_pointer(alloc, types, pos, op, kind, a, b)
        }
        _ => Err(unfit_operands(pos, a, b)),
    }
}

/// A compound assignment (C90 6.3.16.2), by the operator that it applies. Refuses `NotModifiable`,
/// `Operands`, `VoidValue`, and `IncompleteType` and `Object` where a pointer is moved whose target
/// has no size or too many bytes.
pub fn assign_op(
    alloc: Global,
    types: &Types,
    pos: Pos,
    op: BinaryOp,
    a: TExpr,
    b: TExpr,
) -> Result<TExpr, Refusal>
    ensures { Gives typed_of result (changes.assign_op_of (types_of types.now) pos op (typed_of a) (typed_of b)) }
{
    let (modifiable, (a, b)) = beside(is_modifiable(alloc, types, &a), (a, b))?;
    if !modifiable {
        drop(a);
        drop(b);
        return Err(Refusal::fault(Code::NotModifiable, pos));
    }
    let (b, a) = beside(value(alloc, b), a)?;
    changed(alloc, types, pos, op, a, b)
}

/// A step on a place that may take one.
fn stepped(alloc: Global, how: StepKind, a: TExpr) -> Result<TExpr, AllocError>
    ensures { IfOk result (λ t. typed_of t ≡ changes.stepped how (typed_of a)) }
{
    let (ty, a) = beside(unqualified(alloc, &a.ty), a)?;
    let (a, ty) = boxed_beside(alloc, a, ty)?;
    let kind = TKind::Step(how, a);
    Ok(TExpr { ty, kind })
}

/// `++` and `--`, before or behind (C90 6.3.2.4, 6.3.3.1). Refuses `NotModifiable`, `Operands`, and
/// `IncompleteType` and `Object` where a pointer is moved whose target has no size or too many
/// bytes.
pub fn step(
    alloc: Global,
    types: &Types,
    pos: Pos,
    how: StepKind,
    a: TExpr,
) -> Result<TExpr, Refusal>
    ensures { Gives typed_of result (changes.step_of (types_of types.now) pos how (typed_of a)) }
{
    let (modifiable, a) = beside(is_modifiable(alloc, types, &a), a)?;
    if !modifiable {
        drop(a);
        return Err(Refusal::fault(Code::NotModifiable, pos));
    }
    match classify(&a.ty.ty) {
        Category::Int(_) => Ok(stepped(alloc, how, a)?),
        Category::Pointer => {
            let (_, a) = beside(target_size(types, pos, &a), a)?;
            Ok(stepped(alloc, how, a)?)
        }
        Category::Tag | Category::Void | Category::Other => {
            Err(unfit_operand(Code::Operands, pos, a))
        }
    }
}
