// The value of an expression, promotions, and conversions to a type (C90 6.2).
ghost use Rattle.std.specs.Prelude.{◌≡◌, IfOk, option_map};
ghost use Rattle.c65_ctype.specs.Views.{ty_of, qty_of, types_of};
ghost use Rattle.c65_ctype.specs.Compatible.{same_int};
ghost use Rattle.c65_csem.specs.Typed as typing;
ghost use Rattle.c65_csem.specs.Views.{typed_of};
ghost use Rattle.c65_elab_convert.specs.Values as values;

use crate::classes::is_void;
use crate::waiting::beside;
use c65_base::boxed_beside;
use c65_csem::{TExpr, TKind, int_type, is_scalar, member_at, pointer_to, promoted, unqualified};
use c65_ctype::{CType, QType, Types};
use c65_ints::IntType;
use std::alloc::{AllocError, Global};

/// The pointer that an array or a function turns into (C90 6.2.2.1).
fn decayed(alloc: Global, q: &QType) -> Result<Option<QType>, AllocError>
    ensures { IfOk result (λ o. option_map qty_of o ≡ typing.decayed (qty_of q.now)) }
{
    match &q.ty {
        CType::Array(element, _) => Ok(Some(pointer_to(alloc, element.copy(alloc)?)?)),
        CType::Function(_) => Ok(Some(pointer_to(alloc, unqualified(alloc, q)?)?)),
        CType::Void | CType::Int(_) | CType::Pointer(_) | CType::Struct(_) => Ok(None),
    }
}

/// A value that is loaded from a place.
fn loaded(alloc: Global, e: TExpr) -> Result<TExpr, AllocError>
    ensures { IfOk result (λ t. typed_of t ≡ values.loaded (typed_of e)) }
{
    let (ty, e) = beside(unqualified(alloc, &e.ty), e)?;
    let (e, ty) = boxed_beside(alloc, e, ty)?;
    let kind = TKind::Load(e);
    Ok(TExpr { ty, kind })
}

/// An expression whose value is not taken.
pub(crate) fn voided(alloc: Global, e: TExpr) -> Result<TExpr, AllocError>
    ensures { IfOk result (λ t. typed_of t ≡ values.voided (typed_of e)) }
{
    Ok(TExpr {
        ty: QType {
            ty: CType::Void,
            is_const: false,
            is_volatile: false,
        },
        kind: TKind::Convert(Box::new(alloc, e)?),
    })
}

fn value_of_place(alloc: Global, e: TExpr) -> Result<TExpr, AllocError>
    ensures { IfOk result (λ t. typed_of t ≡ values.value_of_place (typed_of e)) }
{
    if is_scalar(&e.ty.ty) {
        loaded(alloc, e)
    } else if is_void(&e.ty.ty) {
        voided(alloc, e)
    } else {
        Ok(e)
    }
}

/// The value of an expression (C90 6.2.2.1): an array or a function becomes a pointer, and the
/// value of a number or pointer is loaded from its place. A structure or union stays as it is.
pub fn value(alloc: Global, e: TExpr) -> Result<TExpr, AllocError>
    ensures { IfOk result (λ t. typed_of t ≡ values.value_of (typed_of e)) }
{
    let (ty, e) = beside(decayed(alloc, &e.ty), e)?;
    match ty {
        Some(ty) => {
            let (e, ty) = boxed_beside(alloc, e, ty)?;
            let kind = TKind::Decay(e);
            Ok(TExpr { ty, kind })
        }
        None => {
            if e.is_place() {
                value_of_place(alloc, e)
            } else {
                Ok(e)
            }
        }
    }
}

/// The values of two expressions.
pub(crate) fn values(alloc: Global, a: TExpr, b: TExpr) -> Result<(TExpr, TExpr), AllocError>
    ensures a { IfOk result (λ r. typed_of r.0 ≡ values.value_of (typed_of a)) }
    ensures b { IfOk result (λ r. typed_of r.1 ≡ values.value_of (typed_of b)) }
{
    let (a, b) = beside(value(alloc, a), b)?;
    let (b, a) = beside(value(alloc, b), a)?;
    Ok((a, b))
}

pub(crate) fn is_kind(a: IntType, b: IntType) -> bool
    ensures { result ≡ same_int a b }
{
    a.number() == b.number()
}

/// Whether an expression names a bit-field whose values int holds.
fn is_narrow(types: &Types, e: &TExpr) -> bool
    ensures { result ≡ values.is_narrow (types_of types.now) (typed_of e.now) }
{
    match &e.kind {
        TKind::Member(object, index) => match member_at(types, &object.ty.ty, *index) {
            Some(member) => match member.bits {
                Some((_, width)) => width < 16,
                None => false,
            },
            None => false,
        },
        _ => false,
    }
}

/// Whether a value is that of a bit-field whose values int holds.
pub(crate) fn is_narrow_value(types: &Types, e: &TExpr) -> bool
    ensures { result ≡ values.is_narrow_value (types_of types.now) (typed_of e.now) }
{
    match &e.kind {
        TKind::Load(place) => is_narrow(types, place),
        _ => false,
    }
}

/// The integer promotions of what a place of this type holds (C90 6.2.1.1).
pub fn place_promotion(types: &Types, e: &TExpr, kind: IntType) -> IntType
    ensures { result ≡ values.place_promotion (types_of types.now) (typed_of e.now) kind }
{
    if is_narrow(types, e) {
        IntType::Int
    } else {
        promoted(kind)
    }
}

/// The integer promotions of a value of this type (C90 6.2.1.1).
pub fn promotion(types: &Types, e: &TExpr, kind: IntType) -> IntType
    ensures { result ≡ values.promotion (types_of types.now) (typed_of e.now) kind }
{
    if is_narrow_value(types, e) {
        IntType::Int
    } else {
        promoted(kind)
    }
}

fn is_either(kind: IntType, a: IntType, b: IntType) -> bool
    ensures { result ≡ values.is_either kind a b }
{
    is_kind(kind, a) || is_kind(kind, b)
}

/// The usual arithmetic conversions of two promoted types (C90 6.2.1.5).
pub fn common(a: IntType, b: IntType) -> IntType
    ensures { result ≡ values.common_of a b }
{
    if is_either(IntType::ULong, a, b) {
        IntType::ULong
    } else if is_either(IntType::Long, a, b) {
        IntType::Long
    } else if is_either(IntType::UInt, a, b) {
        IntType::UInt
    } else {
        IntType::Int
    }
}

/// Whether two arrays have the same number of elements, or none that is known.
fn equal_count(a: Option<u32>, b: Option<u32>) -> bool
    ensures { result ≡ values.equal_count a b }
{
    match (a, b) {
        (None, None) => true,
        (Some(a), Some(b)) => a == b,
        _ => false,
    }
}

#[cycle(equal)]
fn equal_types(a: &QType, b: &QType) -> bool
    ensures { result ≡ values.equal_types (qty_of a.now) (qty_of b.now) }
{
    a.is_const == b.is_const && a.is_volatile == b.is_volatile && equal_plain(&a.ty, &b.ty)
}

/// Whether two types are the same. Those with functions in them are not looked into.
#[cycle(equal)]
fn equal_plain(a: &CType, b: &CType) -> bool
    ensures { result ≡ values.equal_plain (ty_of a.now) (ty_of b.now) }
{
    match (a, b) {
        (CType::Void, CType::Void) => true,
        (CType::Int(a), CType::Int(b)) => is_kind(*a, *b),
        (CType::Pointer(a), CType::Pointer(b)) => equal_types(a, b),
        (CType::Array(a, m), CType::Array(b, n)) => equal_count(*m, *n) && equal_types(a, b),
        (CType::Struct(s), CType::Struct(t)) => *s == *t,
        _ => false,
    }
}

/// A value converted to an integer type, where it has another one.
pub fn as_int(alloc: Global, kind: IntType, e: TExpr) -> Result<TExpr, AllocError>
    ensures { IfOk result (λ t. typed_of t ≡ values.as_int_of kind (typed_of e)) }
{
    if equal_plain(&CType::Int(kind), &e.ty.ty) {
        Ok(e)
    } else {
        Ok(TExpr {
            ty: int_type(kind),
            kind: TKind::Convert(Box::new(alloc, e)?),
        })
    }
}

/// A value converted to a scalar type without qualifiers, where it has another one.
pub fn as_plain(alloc: Global, ty: &CType, e: TExpr) -> Result<TExpr, AllocError>
    ensures { IfOk result (λ t. typed_of t ≡ values.as_plain_of (ty_of ty.now) (typed_of e)) }
{
    if equal_plain(ty, &e.ty.ty) {
        Ok(e)
    } else {
        let (ty, e) = beside(ty.copy(alloc), e)?;
        let (e, ty) = boxed_beside(alloc, e, ty)?;
        let kind = TKind::Convert(e);
        Ok(TExpr {
            ty: QType {
                ty,
                is_const: false,
                is_volatile: false,
            },
            kind,
        })
    }
}
