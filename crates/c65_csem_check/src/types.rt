// Tests on types (C90 6.1.2.5, 6.2.1, 6.2.2).
ghost use Rattle.std.specs.Prelude.{◌≡◌, ◌+◌, Some};
ghost use Rattle.c65_ints.specs.declared.types.IntType.TheVariants.{UChar};
ghost use Rattle.c65_ctype.specs.Trees.{void, int, pointer, array, function};
ghost use Rattle.c65_ctype.specs.Views.{ty_of, qty_of, fn_of, types_of};
ghost use Rattle.c65_csem.specs.Places;
ghost use Rattle.c65_csem.specs.Places.{plain};
ghost use Rattle.c65_csem_check.specs.Kinds;

use crate::same::{equal_count, same, same_bit, same_function, same_kind, same_plain};
use c65_csem::{is_scalar, is_sized, is_small, promoted};
use c65_ctype::{CType, FnType, QType, Types};
use c65_ints::IntType;

/// Whether a type has no qualifiers.
pub fn is_bare(q: &QType) -> bool
    ensures { result ≡ Kinds.is_bare (qty_of q.now) }
{
    same_bit(q.is_const, false) && same_bit(q.is_volatile, false)
}

/// The integer type that a type without qualifiers is.
pub fn int_of(q: &QType) -> Option<IntType>
    ensures { result ≡ Kinds.int_of (qty_of q.now) }
{
    match &q.ty {
        CType::Int(kind) => {
            if q.is_const || q.is_volatile {
                None
            } else {
                Some(*kind)
            }
        }
        _ => None,
    }
}

fn is_kind(ty: &CType, kind: IntType) -> bool
    ensures { result ≡ Kinds.same_ty (ty_of ty.now) (int kind) }
{
    match ty {
        CType::Int(other) => same_kind(*other, kind),
        _ => false,
    }
}

pub fn is_int_of(q: &QType, kind: IntType) -> bool
    ensures { result ≡ Kinds.is_int_of (qty_of q.now) kind }
{
    is_bare(q) && is_kind(&q.ty, kind)
}

pub fn is_int(q: &QType) -> bool
    ensures { result ≡ Kinds.is_int (qty_of q.now) }
{
    int_of(q).is_some()
}

/// Whether the promotions leave a type as it is.
pub fn is_promoted(kind: IntType) -> bool
    ensures { result ≡ Places.is_promoted kind }
{
    same_kind(kind, promoted(kind))
}

pub fn is_promoted_int(q: &QType) -> bool
    ensures { result ≡ Kinds.is_promoted_int (qty_of q.now) }
{
    match int_of(q) {
        Some(kind) => is_promoted(kind),
        None => false,
    }
}

pub fn is_void(ty: &CType) -> bool
    ensures { result ≡ Kinds.same_ty (ty_of ty.now) void }
{
    match ty {
        CType::Void => true,
        _ => false,
    }
}

pub fn is_plain_void(q: &QType) -> bool
    ensures { result ≡ Kinds.is_plain_void (qty_of q.now) }
{
    is_bare(q) && is_void(&q.ty)
}

fn is_pointer(ty: &CType) -> bool
    ensures { result ≡ Kinds.is_pointer_ty (ty_of ty.now) }
{
    match ty {
        CType::Pointer(_) => true,
        _ => false,
    }
}

pub fn is_plain_pointer(q: &QType) -> bool
    ensures { result ≡ Kinds.is_plain_pointer (qty_of q.now) }
{
    is_bare(q) && is_pointer(&q.ty)
}

/// Whether a type is another one without its qualifiers.
pub fn is_plain_of(q: &QType, other: &QType) -> bool
    ensures { result ≡ Kinds.is_plain_of (qty_of q.now) (qty_of other.now) }
{
    is_bare(q) && same_plain(&q.ty, &other.ty)
}

pub fn is_plain_scalar(q: &QType) -> bool
    ensures { result ≡ Kinds.is_plain_scalar (qty_of q.now) }
{
    is_bare(q) && is_scalar(&q.ty)
}

fn points_to(ty: &CType, target: &QType) -> bool
    ensures { result ≡ Kinds.same_ty (ty_of ty.now) (pointer (qty_of target.now)) }
{
    match ty {
        CType::Pointer(other) => same(other, target),
        _ => false,
    }
}

/// Whether a type is a pointer to another one.
pub fn is_pointer_to(q: &QType, target: &QType) -> bool
    ensures { result ≡ Kinds.is_pointer_to (qty_of q.now) (qty_of target.now) }
{
    is_bare(q) && points_to(&q.ty, target)
}

fn moves(types: &Types, ty: &CType) -> bool
    ensures { result ≡ Places.moves (types_of types.now) (ty_of ty.now) }
{
    match ty {
        CType::Pointer(target) => is_sized(types, &target.ty),
        _ => false,
    }
}

/// Whether a type is a pointer to something that has a size.
pub fn is_moved(types: &Types, q: &QType) -> bool
    ensures { result ≡ Kinds.is_moved (types_of types.now) (qty_of q.now) }
{
    is_plain_pointer(q) && moves(types, &q.ty)
}

/// Whether a type is a structure or union of at most four bytes, without qualifiers.
pub fn is_plain_small(types: &Types, q: &QType) -> bool
    ensures { result ≡ Kinds.is_plain_small (types_of types.now) (qty_of q.now) }
{
    is_bare(q) && is_small(types, &q.ty)
}

/// Whether a call that stands alone may have this type.
pub fn is_usual(q: &QType) -> bool
    ensures { result ≡ Kinds.is_usual (qty_of q.now) }
{
    is_plain_void(q) || is_plain_scalar(q)
}

/// Whether a call without a prototype passes this type.
pub fn passes(types: &Types, q: &QType) -> bool
    ensures { result ≡ Kinds.passes (types_of types.now) (qty_of q.now) }
{
    is_promoted_int(q) || is_plain_pointer(q) || is_plain_small(types, q)
}

fn points_to_bytes(ty: &CType) -> bool
    ensures { result ≡ Kinds.same_ty (ty_of ty.now) (pointer (plain (int UChar))) }
{
    match ty {
        CType::Pointer(target) => is_int_of(target, IntType::UChar),
        _ => false,
    }
}

/// Whether a type is that of the place behind the further arguments.
pub fn is_rest(q: &QType) -> bool
    ensures { result ≡ Kinds.is_rest (qty_of q.now) }
{
    is_bare(q) && points_to_bytes(&q.ty)
}

/// Whether `++` and `--` work on this type.
pub fn is_stepped(types: &Types, q: &QType) -> bool
    ensures { result ≡ Kinds.is_stepped (types_of types.now) (qty_of q.now) }
{
    is_int(q) || is_moved(types, q)
}

fn is_function(ty: &CType, of: &FnType) -> bool
    ensures { result ≡ Kinds.same_ty (ty_of ty.now) (function (fn_of of.now)) }
{
    match ty {
        CType::Function(other) => same_function(other, of),
        _ => false,
    }
}

fn is_bare_function(q: &QType, of: &FnType) -> bool
    ensures { result ≡ Kinds.same (qty_of q.now) (plain (function (fn_of of.now))) }
{
    is_bare(q) && is_function(&q.ty, of)
}

fn points_to_function(ty: &CType, of: &FnType) -> bool
    ensures { result ≡ Kinds.same_ty (ty_of ty.now) (pointer (plain (function (fn_of of.now)))) }
{
    match ty {
        CType::Pointer(target) => is_bare_function(target, of),
        _ => false,
    }
}

/// Whether a type is what an array or function type becomes.
pub fn is_decayed(q: &QType, from: &QType) -> bool
    ensures { result ≡ Kinds.is_decayed (qty_of q.now) (qty_of from.now) }
{
    match &from.ty {
        CType::Array(element, _) => is_pointer_to(q, element),
        CType::Function(function) => is_bare(q) && points_to_function(&q.ty, function),
        _ => false,
    }
}

fn counts(count: Option<u32>, length: usize) -> bool
    ensures { result ≡ Kinds.equal_count count (Some (length + 1)) }
{
    match count {
        Some(count) => count > 0 && (count - 1) as usize == length,
        None => false,
    }
}

fn is_chars(ty: &CType, kind: IntType, length: usize) -> bool
    ensures { result ≡ Kinds.same_ty (ty_of ty.now) (array (plain (int kind)) (Some (length + 1))) }
{
    match ty {
        CType::Array(element, count) => counts(*count, length) && is_int_of(element, kind),
        _ => false,
    }
}

/// Whether a type is that of a string literal of so many characters.
pub fn is_literal(q: &QType, length: usize) -> bool
    ensures { result ≡ Kinds.is_literal (qty_of q.now) length }
{
    (is_bare(q) && is_chars(&q.ty, IntType::UChar, length))
        || (is_bare(q) && is_chars(&q.ty, IntType::SChar, length))
}

/// Whether two types are the same down to pointers, structures and functions.
#[cycle(alike)]
pub fn are_alike(a: &QType, b: &QType) -> bool
    ensures { result ≡ Places.are_alike (qty_of a.now) (qty_of b.now) }
{
    alike(&a.ty, &b.ty)
}

#[cycle(alike)]
fn alike(a: &CType, b: &CType) -> bool
    ensures { result ≡ Places.alike (ty_of a.now) (ty_of b.now) }
{
    match (a, b) {
        (CType::Void, CType::Void) => true,
        (CType::Int(a), CType::Int(b)) => same_kind(*a, *b),
        (CType::Pointer(_), CType::Pointer(_)) => true,
        (CType::Array(a, _), CType::Array(b, _)) => are_alike(a, b),
        (CType::Struct(_), CType::Struct(_)) => true,
        (CType::Function(_), CType::Function(_)) => true,
        _ => false,
    }
}

fn has_bits(q: &QType, is_const: bool, is_volatile: bool) -> bool
    ensures { result ≡ Kinds.has_bits (qty_of q.now) is_const is_volatile }
{
    same_bit(q.is_const, is_const) && same_bit(q.is_volatile, is_volatile)
}

/// Whether a type is another one with further qualifiers; those of an array are those of its
/// elements (C90 6.5.3).
#[cycle(qualified)]
pub fn is_qualified(q: &QType, is_const: bool, is_volatile: bool, of: &QType) -> bool
    ensures { result ≡ Kinds.is_qualified (qty_of q.now) is_const is_volatile (qty_of of.now) }
{
    match &of.ty {
        CType::Array(element, count) => {
            has_bits(q, of.is_const, of.is_volatile)
                && is_array_of(&q.ty, is_const, is_volatile, element, *count)
        }
        CType::Function(_) => {
            has_bits(q, of.is_const, of.is_volatile) && same_plain(&q.ty, &of.ty)
        }
        CType::Void | CType::Int(_) | CType::Pointer(_) | CType::Struct(_) => {
            has_bits(q, is_const || of.is_const, is_volatile || of.is_volatile)
                && same_plain(&q.ty, &of.ty)
        }
    }
}

#[cycle(qualified)]
fn is_array_of(
    ty: &CType,
    is_const: bool,
    is_volatile: bool,
    of: &QType,
    count: Option<u32>,
) -> bool
    ensures { result ≡ Kinds.same_ty (ty_of ty.now) (array (Places.qualified is_const is_volatile (qty_of of.now)) count) }
{
    match ty {
        CType::Array(element, other) => {
            equal_count(*other, count) && is_qualified(element, is_const, is_volatile, of)
        }
        _ => false,
    }
}
