// Sizes within the limit of 65,535 bytes.
ghost use Rattle.std.specs.Prelude.{◌≡◌};
ghost use Rattle.c65_ctype.specs.Sizes.{bytes_of};
ghost use Rattle.c65_ctype.specs.Views.{ty_of, qty_of, types_of};
ghost use Rattle.c65_csem_check.specs.Kinds;
ghost use Rattle.c65_csem_check.specs.Statements;

use c65_base::Size;
use c65_ctype::{CType, QType, Types};
use c65_ints::IntType;

pub fn bytes(kind: IntType) -> u32
    ensures { result ≡ bytes_of kind }
{
    match kind {
        IntType::SChar | IntType::UChar => 1,
        IntType::Short | IntType::UShort | IntType::Int | IntType::UInt => 2,
        IntType::Long | IntType::ULong => 4,
    }
}

fn limited_product(count: u32, size: Option<u32>) -> Option<u32>
    ensures { result ≡ Statements.limited_product count size }
{
    let total = size? as u64 * count as u64;
    if total > Size::Object.number() {
        None
    } else {
        Some(total as u32)
    }
}

/// The bytes of a type, where neither it nor a type that it is an array of has more than 65,535.
pub fn measured(types: &Types, ty: &CType) -> Option<u32>
    ensures { result ≡ Statements.measured (types_of types.now) (ty_of ty.now) }
{
    match ty {
        CType::Void | CType::Function(_) | CType::Array(_, None) => None,
        CType::Int(kind) => Some(bytes(*kind)),
        CType::Pointer(_) => Some(2),
        CType::Array(element, Some(count)) => {
            limited_product(*count, measured(types, &element.ty))
        }
        CType::Struct(tag) => match types.get(*tag) {
            Some(layout) => Some(layout.size),
            None => None,
        },
    }
}

/// The bytes of a scalar type, and of a structure or union that is finished.
pub fn flat_bytes(types: &Types, ty: &CType) -> u32
    ensures { result ≡ Kinds.flat_bytes (types_of types.now) (ty_of ty.now) }
{
    match ty {
        CType::Int(kind) => bytes(*kind),
        CType::Pointer(_) => 2,
        CType::Struct(tag) => match types.get(*tag) {
            Some(layout) => layout.size,
            None => 0,
        },
        _ => 0,
    }
}

/// Whether two types, each a scalar one or a structure or union, have as many bytes.
pub fn same_size(types: &Types, a: &QType, b: &QType) -> bool
    ensures { result ≡ Kinds.same_size (types_of types.now) (qty_of a.now) (qty_of b.now) }
{
    flat_bytes(types, &a.ty) == flat_bytes(types, &b.ty)
}

/// Whether so many bytes at an offset lie inside a whole.
pub fn is_inside(offset: u32, size: u32, whole: Option<u32>) -> bool
    ensures { result ≡ Statements.is_inside offset size whole }
{
    match whole {
        Some(whole) => offset as u64 + size as u64 <= whole as u64,
        None => false,
    }
}
