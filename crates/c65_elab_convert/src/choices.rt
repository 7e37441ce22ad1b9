// The operator `?:` (C90 6.3.15).
ghost use Rattle.std.specs.Prelude.{◌≡◌, IfOk, option_map};
ghost use Rattle.c65_base.specs.Answers.{Gives};
ghost use Rattle.c65_ctype.specs.Views.{ty_of, qty_of, types_of};
ghost use Rattle.c65_csem.specs.Views.{typed_of};
ghost use Rattle.c65_elab_convert.specs.Choices as choices;

use crate::classes::unfit_operands;
use crate::logic::condition;
use crate::pointers::{agree, is_null, meet_in_void};
use crate::values::{as_plain, common, promotion, values};
use crate::waiting::beside;
use c65_base::{Pos, Refusal, boxed_beside, boxed_pair};
use c65_csem::{TExpr, TKind};
use c65_ctype::{CType, QType, Types};
use std::alloc::{AllocError, Global};

/// A pointer to this type with the qualifiers of two types.
fn pointer_with(alloc: Global, ty: CType, a: &QType, b: &QType) -> Result<CType, AllocError>
    ensures { IfOk result (λ t. ty_of t ≡ choices.pointer_with (ty_of ty) (qty_of a.now) (qty_of b.now)) }
{
    let target = QType {
        ty,
        is_const: a.is_const || b.is_const,
        is_volatile: a.is_volatile || b.is_volatile,
    };
    Ok(CType::Pointer(Box::new(alloc, target)?))
}

fn composite(types: &Types, a: &QType, b: &QType) -> Result<CType, AllocError>
    ensures { IfOk result (λ t. ty_of t ≡ choices.composite (types_of types.now) (qty_of a.now) (qty_of b.now)) }
{
    match types.composite(a, b) {
        Ok(both) => Ok(both.ty),
        Err(_) => Err(AllocError),
    }
}

/// The type of a choice between two pointers, of which the first points to `q` and the second to
/// `r`.
fn between_pointers(
    alloc: Global,
    types: &Types,
    q: &QType,
    r: &QType,
    a: &TExpr,
    b: &TExpr,
) -> Result<Option<CType>, AllocError>
    ensures { IfOk result (λ o. option_map ty_of o ≡ choices.between_pointers (types_of types.now) (qty_of q.now) (qty_of r.now) (typed_of a.now) (typed_of b.now)) }
{
    if agree(alloc, types, q, r)? {
        let both = composite(types, q, r)?;
        Ok(Some(pointer_with(alloc, both, q, r)?))
    } else if is_null(a) {
        Ok(Some(b.ty.ty.copy(alloc)?))
    } else if is_null(b) {
        Ok(Some(a.ty.ty.copy(alloc)?))
    } else if meet_in_void(q, r) {
        Ok(Some(pointer_with(alloc, CType::Void, q, r)?))
    } else {
        Ok(None)
    }
}

/// The type of a choice between two values, none where there is no such choice.
fn chosen_type(
    alloc: Global,
    types: &Types,
    a: &TExpr,
    b: &TExpr,
) -> Result<Option<CType>, AllocError>
    ensures { IfOk result (λ o. option_map ty_of o ≡ choices.chosen_type (types_of types.now) (typed_of a.now) (typed_of b.now)) }
{
    match (&a.ty.ty, &b.ty.ty) {
        (CType::Int(j), CType::Int(k)) => {
            let j = promotion(types, a, *j);
            let k = promotion(types, b, *k);
            Ok(Some(CType::Int(common(j, k))))
        }
        (CType::Pointer(q), CType::Pointer(r)) => between_pointers(alloc, types, q, r, a, b),
        (CType::Pointer(_), CType::Int(_)) => {
            if is_null(b) {
                Ok(Some(a.ty.ty.copy(alloc)?))
            } else {
                Ok(None)
            }
        }
        (CType::Int(_), CType::Pointer(_)) => {
            if is_null(a) {
                Ok(Some(b.ty.ty.copy(alloc)?))
            } else {
                Ok(None)
            }
        }
        (CType::Struct(s), CType::Struct(t)) => {
            if *s == *t {
                Ok(Some(CType::Struct(*s)))
            } else {
                Ok(None)
            }
        }
        (CType::Void, CType::Void) => Ok(Some(CType::Void)),
        _ => Ok(None),
    }
}

/// A choice of this type.
fn made(alloc: Global, ty: CType, x: TExpr, a: TExpr, b: TExpr) -> Result<TExpr, AllocError>
    ensures { IfOk result (λ t. typed_of t ≡ choices.made (ty_of ty) (typed_of x) (typed_of a) (typed_of b)) }
{
    let (a, (ty, x, b)) = beside(as_plain(alloc, &ty, a), (ty, x, b))?;
    let (b, (ty, x, a)) = beside(as_plain(alloc, &ty, b), (ty, x, a))?;
    let (x, (ty, a, b)) = boxed_beside(alloc, x, (ty, a, b))?;
    let ((a, b), (ty, x)) = beside(boxed_pair(alloc, a, b), (ty, x))?;
    Ok(TExpr {
        ty: QType {
            ty,
            is_const: false,
            is_volatile: false,
        },
        kind: TKind::Cond(x, a, b),
    })
}

/// `?:` (C90 6.3.15). Refuses `ConditionType` where the first operand is not scalar, `Operands`
/// where the other two do not fit, and `VoidValue`.
pub fn choice(
    alloc: Global,
    types: &Types,
    pos: Pos,
    x: TExpr,
    a: TExpr,
    b: TExpr,
) -> Result<TExpr, Refusal>
    ensures { Gives typed_of result (choices.choice_of (types_of types.now) pos (typed_of x) (typed_of a) (typed_of b)) }
{
    let (x, (a, b)) = beside(condition(alloc, pos, x), (a, b))?;
    let ((a, b), x) = beside(values(alloc, a, b), x)?;
    let (ty, (x, a, b)) = beside(chosen_type(alloc, types, &a, &b), (x, a, b))?;
    match ty {
        Some(ty) => Ok(made(alloc, ty, x, a, b)?),
        None => {
            drop(x);
            Err(unfit_operands(pos, a, b))
        }
    }
}
