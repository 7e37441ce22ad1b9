// Operators of two operands that are both evaluated (C90 6.3.5 to 6.3.12).
ghost use Rattle.std.specs.Prelude.{◌≡◌, IfOk};
ghost use Rattle.c65_base.specs.Answers.{Gives};
ghost use Rattle.c65_ctype.specs.Views.{ty_of, qty_of, types_of};
ghost use Rattle.c65_csem.specs.Views.{typed_of};
ghost use Rattle.c65_elab_convert.specs.Binaries as binaries;

use crate::classes::{Category, classify, is_function, unfit_operands};
use crate::numbers::{Group, group_for, joined, on_numbers};
use crate::pairs::{Match, match_pair};
use crate::pointers::{agree, target_size};
use crate::values::{as_int, as_plain, promotion, values};
use crate::waiting::beside;
use c65_base::{BinaryOp, Pos, Refusal};
use c65_csem::{TExpr, int_type};
use c65_ctype::{CType, Types};
use c65_ints::IntType;
use std::alloc::{AllocError, Global};

/// A pointer plus or minus an integer of this type.
pub(crate) fn moved(
    alloc: Global,
    types: &Types,
    pos: Pos,
    op: BinaryOp,
    kind: IntType,
    a: TExpr,
    b: TExpr,
) -> Result<TExpr, Refusal>
    ensures { Gives typed_of result (binaries.moved (types_of types.now) pos op kind (typed_of a) (typed_of b)) }
{
    let (_, (a, b)) = beside(target_size(types, pos, &a), (a, b))?;
    let (ty, (a, b)) = beside(a.ty.copy(alloc), (a, b))?;
    let kind = promotion(types, &b, kind);
    let (b, (ty, a)) = beside(as_int(alloc, kind, b), (ty, a))?;
    Ok(joined(alloc, op, ty, a, b)?)
}

/// An integer of this type plus a pointer.
fn moved_by(
    alloc: Global,
    types: &Types,
    pos: Pos,
    kind: IntType,
    a: TExpr,
    b: TExpr,
) -> Result<TExpr, Refusal>
    ensures { Gives typed_of result (binaries.moved_by (types_of types.now) pos kind (typed_of a) (typed_of b)) }
{
    let (_, (a, b)) = beside(target_size(types, pos, &b), (a, b))?;
    let (ty, (a, b)) = beside(b.ty.copy(alloc), (a, b))?;
    let kind = promotion(types, &a, kind);
    let (a, (ty, b)) = beside(as_int(alloc, kind, a), (ty, b))?;
    Ok(joined(alloc, BinaryOp::Add, ty, a, b)?)
}

/// A sum of which at least one operand is no integer (C90 6.3.6).
fn sum(alloc: Global, types: &Types, pos: Pos, a: TExpr, b: TExpr) -> Result<TExpr, Refusal>
    ensures { Gives typed_of result (binaries.sum (types_of types.now) pos (typed_of a) (typed_of b)) }
{
    match (classify(&a.ty.ty), classify(&b.ty.ty)) {
        (Category::Pointer, Category::Int(kind)) => {
            moved(alloc, types, pos, BinaryOp::Add, kind, a, b)
        }
        (Category::Int(kind), Category::Pointer) => moved_by(alloc, types, pos, kind, a, b),
        _ => Err(unfit_operands(pos, a, b)),
    }
}

/// Whether two operands are pointers to compatible types, whatever their qualifiers.
fn point_alike(alloc: Global, types: &Types, a: &CType, b: &CType) -> Result<bool, AllocError>
    ensures { IfOk result (λ same. same ≡ binaries.point_alike (types_of types.now) (ty_of a.now) (ty_of b.now)) }
{
    match (a, b) {
        (CType::Pointer(q), CType::Pointer(r)) => agree(alloc, types, q, r),
        _ => Ok(false),
    }
}

/// The difference of two pointers.
fn apart(alloc: Global, types: &Types, pos: Pos, a: TExpr, b: TExpr) -> Result<TExpr, Refusal>
    ensures { Gives typed_of result (binaries.apart (types_of types.now) pos (typed_of a) (typed_of b)) }
{
    let (alike, (a, b)) = beside(point_alike(alloc, types, &a.ty.ty, &b.ty.ty), (a, b))?;
    if !alike {
        return Err(unfit_operands(pos, a, b));
    }
    let (_, (a, b)) = beside(target_size(types, pos, &a), (a, b))?;
    let (_, (a, b)) = beside(target_size(types, pos, &b), (a, b))?;
    Ok(joined(alloc, BinaryOp::Sub, int_type(IntType::Int), a, b)?)
}

/// A difference of which at least one operand is no integer (C90 6.3.6).
fn difference(alloc: Global, types: &Types, pos: Pos, a: TExpr, b: TExpr) -> Result<TExpr, Refusal>
    ensures { Gives typed_of result (binaries.difference (types_of types.now) pos (typed_of a) (typed_of b)) }
{
    match (classify(&a.ty.ty), classify(&b.ty.ty)) {
        (Category::Pointer, Category::Int(kind)) => {
            moved(alloc, types, pos, BinaryOp::Sub, kind, a, b)
        }
        _ => apart(alloc, types, pos, a, b),
    }
}

fn points_to_function(ty: &CType) -> bool
    ensures { result ≡ binaries.points_to_function (ty_of ty.now) }
{
    match ty {
        CType::Pointer(target) => is_function(&target.ty),
        _ => false,
    }
}

/// An order of which at least one operand is no integer (C90 6.3.8).
fn order(
    alloc: Global,
    types: &Types,
    pos: Pos,
    op: BinaryOp,
    a: TExpr,
    b: TExpr,
) -> Result<TExpr, Refusal>
    ensures { Gives typed_of result (binaries.order (types_of types.now) pos op (typed_of a) (typed_of b)) }
{
    let (alike, (a, b)) = beside(point_alike(alloc, types, &a.ty.ty, &b.ty.ty), (a, b))?;
    if alike && !points_to_function(&a.ty.ty) {
        Ok(joined(alloc, op, int_type(IntType::Int), a, b)?)
    } else {
        Err(unfit_operands(pos, a, b))
    }
}

/// An equality of which at least one operand is no integer (C90 6.3.9).
fn equality(
    alloc: Global,
    types: &Types,
    pos: Pos,
    op: BinaryOp,
    a: TExpr,
    b: TExpr,
) -> Result<TExpr, Refusal>
    ensures { Gives typed_of result (binaries.equality (types_of types.now) pos op (typed_of a) (typed_of b)) }
{
    let (found, (a, b)) = beside(match_pair(alloc, types, &a, &b), (a, b))?;
    match found {
        Match::Both => Ok(joined(alloc, op, int_type(IntType::Int), a, b)?),
        Match::Left => {
            let (a, b) = beside(as_plain(alloc, &b.ty.ty, a), b)?;
            Ok(joined(alloc, op, int_type(IntType::Int), a, b)?)
        }
        Match::Right => {
            let (b, a) = beside(as_plain(alloc, &a.ty.ty, b), a)?;
            Ok(joined(alloc, op, int_type(IntType::Int), a, b)?)
        }
        Match::Neither => Err(unfit_operands(pos, a, b)),
    }
}

/// An operator on two values of which at least one is no integer.
fn on_others(
    alloc: Global,
    types: &Types,
    pos: Pos,
    op: BinaryOp,
    a: TExpr,
    b: TExpr,
) -> Result<TExpr, Refusal>
    ensures { Gives typed_of result (binaries.on_others (types_of types.now) pos op (typed_of a) (typed_of b)) }
{
    match group_for(op) {
        Group::Add => sum(alloc, types, pos, a, b),
        Group::Subtract => difference(alloc, types, pos, a, b),
        Group::Order => order(alloc, types, pos, op, a, b),
        Group::Equality => equality(alloc, types, pos, op, a, b),
        Group::Arithmetic | Group::Shift => Err(unfit_operands(pos, a, b)),
    }
}

/// An operator on two values.
fn on_values(
    alloc: Global,
    types: &Types,
    pos: Pos,
    op: BinaryOp,
    a: TExpr,
    b: TExpr,
) -> Result<TExpr, Refusal>
    ensures { Gives typed_of result (binaries.on_values (types_of types.now) pos op (typed_of a) (typed_of b)) }
{
    match (classify(&a.ty.ty), classify(&b.ty.ty)) {
        (Category::Int(j), Category::Int(k)) => {
            let j = promotion(types, &a, j);
            let k = promotion(types, &b, k);
            Ok(on_numbers(alloc, op, j, k, a, b)?)
        }
        _ => on_others(alloc, types, pos, op, a, b),
    }
}

/// An operator of two operands (C90 6.3.5 to 6.3.12). Refuses `Operands` where they do not fit,
/// `VoidValue` where one is void, and `IncompleteType` and `Object` where a pointer is moved whose
/// target has no size or too many bytes.
pub fn binary(
    alloc: Global,
    types: &Types,
    pos: Pos,
    op: BinaryOp,
    a: TExpr,
    b: TExpr,
) -> Result<TExpr, Refusal>
    ensures { Gives typed_of result (binaries.binary_of (types_of types.now) pos op (typed_of a) (typed_of b)) }
{
    let (a, b) = values(alloc, a, b)?;
    on_values(alloc, types, pos, op, a, b)
}
