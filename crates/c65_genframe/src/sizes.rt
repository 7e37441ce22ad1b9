// How many bytes objects and parameters take.
ghost use Rattle.std.specs.Prelude.{◌≡◌, ◌≤◌, IfSome};
ghost use Rattle.c65_ctype.specs.Views.{ty_of, types_of};
ghost use Rattle.c65_ctype.specs.Sizes.{bytes_of};
ghost use Rattle.c65_csem.specs.Places.{is_fixed_object};
ghost use Rattle.c65_genframe.specs.Sizes.{limited, bytes_at, bytes_or, object_bytes, slot_bytes, bank_size, bank_bytes, object_in};

use c65_base::Size;
use c65_csem::{Class, Parts};
use c65_ctype::{CType, Types};
use c65_ints::IntType;

/// The bytes of an integer type.
fn integer_bytes(kind: IntType) -> u32
    ensures exact { result ≡ bytes_of kind }
    ensures small { result ≤ 4 }
{
    match kind {
        IntType::SChar | IntType::UChar => 1,
        IntType::Short | IntType::UShort | IntType::Int | IntType::UInt => 2,
        IntType::Long | IntType::ULong => 4,
    }
}

fn limited(bytes: u64) -> Option<u32>
    ensures exact { result ≡ limited bytes }
    ensures small { IfSome result (λ n. n ≤ 65535) }
{
    if bytes > Size::Object.number() {
        None
    } else {
        Some(bytes as u32)
    }
}

/// The bytes of a type; none where it has no size, or more than 65,535 bytes.
fn bytes_at(types: &Types, ty: &CType) -> Option<u32>
    ensures exact { result ≡ bytes_at (types_of types.now) (ty_of ty.now) }
    ensures small { IfSome result (λ n. n ≤ 65535) }
{
    match ty {
        CType::Void | CType::Function(_) | CType::Array(_, None) => None,
        CType::Int(kind) => Some(integer_bytes(*kind)),
        CType::Pointer(_) => Some(2),
        CType::Array(element, Some(count)) => match bytes_at(types, &element.ty) {
            Some(bytes) => limited(bytes as u64 * *count as u64),
            None => None,
        },
        CType::Struct(tag) => match types.get(*tag) {
            Some(layout) => limited(layout.size as u64),
            None => None,
        },
    }
}

/// The bytes of a type; another number where it has no size, or more than 65,535 bytes. It takes no
/// memory.
pub fn bytes_or(types: &Types, ty: &CType, other: u32) -> u32
    requires { other ≤ 65536 }
    ensures exact { result ≡ bytes_or (types_of types.now) (ty_of ty.now) other }
    ensures small { result ≤ 65536 }
{
    match bytes_at(types, ty) {
        Some(bytes) => bytes,
        None => other,
    }
}

/// The bytes of an object, 65,536 where there are more.
pub fn object_bytes(parts: &Parts, object: usize) -> u32
    ensures exact { result ≡ object_bytes (types_of parts.now.types) (object_in parts.now object) }
    ensures small { result ≤ 65536 }
{
    match parts.objects.get(object) {
        Some(found) => bytes_or(&parts.types, &found.ty.ty, 65_536),
        None => 0,
    }
}

/// The bytes in which an object is passed to a function: without a prototype those of the promoted
/// type (C90 6.3.2.2).
pub fn slot_bytes(parts: &Parts, prototype: bool, object: u32) -> u32
    ensures exact { result ≡ slot_bytes (types_of parts.now.types) prototype (object_in parts.now object) }
    ensures small { result ≤ 65536 }
{
    match parts.objects.get(object as usize) {
        Some(found) => match &found.ty.ty {
            CType::Int(IntType::SChar | IntType::UChar) if !prototype => 2,
            ty => bytes_or(&parts.types, ty, 65_536),
        },
        None => 0,
    }
}

/// The bytes that a type takes in regbank: 1 or 2 for an integer of so many bytes and for a pointer,
/// and 0 for a type that does not stand there.
fn bank_size(ty: &CType) -> u8
    ensures exact { result ≡ bank_size (ty_of ty.now) }
    ensures small { result ≤ 2 }
{
    match ty {
        CType::Int(IntType::SChar | IntType::UChar) => 1,
        CType::Int(IntType::Long | IntType::ULong) => 0,
        CType::Int(_) | CType::Pointer(_) => 2,
        CType::Void | CType::Array(_, _) | CType::Struct(_) | CType::Function(_) => 0,
    }
}

/// Whether an object of a block has one place for the whole run.
pub fn is_fixed(parts: &Parts, object: usize) -> bool
    ensures { result ≡ is_fixed_object (object_in parts.now object) }
{
    match parts.objects.get(object) {
        Some(found) => found.class == Class::Fixed,
        None => false,
    }
}

/// The bytes that an object takes in regbank where it is marked `register` and that is honoured.
pub fn bank_bytes(parts: &Parts, honoured: bool, object: usize) -> u8
    ensures exact { result ≡ bank_bytes honoured (object_in parts.now object) }
    ensures small { result ≤ 2 }
{
    match parts.objects.get(object) {
        Some(found) if honoured && found.class == Class::Register => bank_size(&found.ty.ty),
        _ => 0,
    }
}
