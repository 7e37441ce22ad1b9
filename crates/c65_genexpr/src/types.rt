// What the generator reads off types.
ghost use Rattle.std.specs.Prelude.{◌≡◌};
ghost use Rattle.c65_ctype.specs.Views.{ty_of, types_of};
ghost use Rattle.c65_csem.specs.Views.{typed_of};
ghost use Rattle.c65_genexpr.specs.Types.{kind_of, outcome_of, given_bytes, offset_at, bits_at, field_or, access_of, target_bytes};

use c65_csem::{TExpr, TKind, member_at};
use c65_ctype::{CType, Types};
use c65_genframe::Frame;
use c65_genload::{Access, Field, bytes_of};
use c65_ints::IntType;

/// The integer type whose values stand for those of a scalar type: a pointer is an unsigned int.
pub fn kind_of(ty: &CType) -> IntType
    ensures { result ≡ kind_of (ty_of ty.now) }
{
    match ty {
        CType::Int(kind) => *kind,
        _ => IntType::UInt,
    }
}

/// What a call gives: nothing, a number, or so many bytes of a structure or union.
#[derive(Clone, Copy, Debug, PartialEq, Eq)]
pub enum Outcome {
    Nothing,
    Number(IntType),
    Area(u32),
}

/// What a call of a function with this result gives.
pub fn outcome_of(frame: &Frame<'_>, ty: &CType) -> Outcome
    ensures { result ≡ outcome_of frame.now (ty_of ty.now) }
{
    match ty {
        CType::Void => Outcome::Nothing,
        CType::Int(kind) => Outcome::Number(*kind),
        CType::Struct(_) => Outcome::Area(frame.bytes(ty)),
        _ => Outcome::Number(IntType::UInt),
    }
}

/// The bytes that it gives.
pub fn given_bytes(given: Outcome) -> u32
    ensures { result ≡ given_bytes given }
{
    match given {
        Outcome::Nothing => 0,
        Outcome::Number(kind) => bytes_of(kind) as u32,
        Outcome::Area(bytes) => bytes,
    }
}

/// How far behind its beginning a structure or union has a member.
pub fn offset_at(types: &Types, ty: &CType, member: u32) -> u32
    ensures { result ≡ offset_at (types_of types.now) (ty_of ty.now) member }
{
    match member_at(types, ty, member) {
        Some(found) => found.offset,
        None => 0,
    }
}

fn bits_at(types: &Types, ty: &CType, member: u32) -> Option<(u8, u8)>
    ensures { result ≡ bits_at (types_of types.now) (ty_of ty.now) member }
{
    match member_at(types, ty, member) {
        Some(found) => found.bits,
        None => None,
    }
}

fn field_or(kind: IntType, bits: Option<(u8, u8)>) -> Access
    ensures { result ≡ field_or kind bits }
{
    match bits {
        Some((low, width)) => Access::Part(Field { kind, low, width }),
        None => Access::Whole(kind),
    }
}

/// What is kept at a place.
pub fn access_of(types: &Types, place: &TExpr) -> Access
    ensures { result ≡ access_of (types_of types.now) (typed_of place.now) }
{
    let kind = kind_of(&place.ty.ty);
    match &place.kind {
        TKind::Member(base, member) => field_or(kind, bits_at(types, &base.ty.ty, *member)),
        _ => Access::Whole(kind),
    }
}

/// The bytes of what a pointer names.
pub fn target_bytes(frame: &Frame<'_>, ty: &CType) -> u32
    ensures { result ≡ target_bytes frame.now (ty_of ty.now) }
{
    match ty {
        CType::Pointer(target) => frame.bytes(&target.ty),
        _ => 1,
    }
}
