// Kinds of types, as operators ask for them (C90 6.1.2.5, 6.2.1, 6.2.2.1).
ghost use Rattle.std.specs.Prelude.{◌≡◌, IfOk, option_map, option_copied};
ghost use Rattle.c65_ctype.specs.Trees.{int, pointer};
ghost use Rattle.c65_ctype.specs.Views.{ty_of, qty_of, member_of, types_of};
ghost use Rattle.c65_csem.specs.Places;

use c65_ctype::{CType, Member, QType, Types};
use c65_ints::IntType;
use std::alloc::{AllocError, Global};

/// The bytes of the greatest structure or union that may be passed and returned.
pub const SMALL: u32 = 4;

/// An integer type without qualifiers.
pub fn int_type(kind: IntType) -> QType
    ensures { qty_of result ≡ Places.plain (int kind) }
{
    QType {
        ty: CType::Int(kind),
        is_const: false,
        is_volatile: false,
    }
}

/// The type of a pointer to this one, without qualifiers of its own.
pub fn pointer_to(alloc: Global, target: QType) -> Result<QType, AllocError>
    ensures { IfOk result (λ q. qty_of q ≡ Places.plain (pointer (qty_of target))) }
{
    let target = Box::new(alloc, target)?;
    Ok(QType {
        ty: CType::Pointer(target),
        is_const: false,
        is_volatile: false,
    })
}

/// The same type without its qualifiers.
pub fn unqualified(alloc: Global, q: &QType) -> Result<QType, AllocError>
    ensures { IfOk result (λ t. qty_of t ≡ Places.plain_of (qty_of q.now)) }
{
    Ok(QType {
        ty: q.ty.copy(alloc)?,
        is_const: false,
        is_volatile: false,
    })
}

/// The integer promotions of a type that is no bit-field (C90 6.2.1.1).
pub fn promoted(kind: IntType) -> IntType
    ensures { result ≡ Places.promoted_of kind }
{
    match kind {
        IntType::SChar | IntType::UChar | IntType::Short | IntType::Int => IntType::Int,
        IntType::UShort | IntType::UInt => IntType::UInt,
        IntType::Long => IntType::Long,
        IntType::ULong => IntType::ULong,
    }
}

/// Whether a type is an integer or pointer type.
pub fn is_scalar(ty: &CType) -> bool
    ensures { result ≡ Places.is_scalar (ty_of ty.now) }
{
    match ty {
        CType::Int(_) | CType::Pointer(_) => true,
        CType::Void | CType::Array(_, _) | CType::Struct(_) | CType::Function(_) => false,
    }
}

/// Whether a type is a structure or union.
pub fn is_tag(ty: &CType) -> bool
    ensures { result ≡ Places.is_tag (ty_of ty.now) }
{
    match ty {
        CType::Struct(_) => true,
        _ => false,
    }
}

/// Whether a type is a structure or union of at most four bytes, which may be passed and returned.
pub fn is_small(types: &Types, ty: &CType) -> bool
    ensures { result ≡ Places.is_small (types_of types.now) (ty_of ty.now) }
{
    match ty {
        CType::Struct(tag) => match types.get(*tag) {
            Some(layout) => 1 <= layout.size && layout.size <= SMALL,
            None => false,
        },
        _ => false,
    }
}

/// Whether a type has a size.
pub fn is_sized(types: &Types, ty: &CType) -> bool
    ensures { result ≡ Places.is_sized (types_of types.now) (ty_of ty.now) }
{
    match ty {
        CType::Void | CType::Function(_) | CType::Array(_, None) => false,
        CType::Int(_) | CType::Pointer(_) => true,
        CType::Array(element, Some(_)) => is_sized(types, &element.ty),
        CType::Struct(tag) => types.get(*tag).is_some(),
    }
}

/// A member of a finished structure or union, by its place among the members.
pub fn member_at<'a>(types: &'a Types, ty: &CType, member: u32) -> Option<&'a Member>
    ensures { option_map member_of (option_copied result) ≡ Places.member_at (types_of types.now) (ty_of ty.now) member }
{
    let CType::Struct(tag) = ty else {
        return None;
    };
    match types.get(*tag) {
        Some(layout) => layout.members.get(member as usize),
        None => None,
    }
}
