// Sizes of types, and where members lie (C90 6.3.6, 6.5.2.1).
ghost use Rattle.std.specs.Prelude.{◌≡◌, option_map, option_copied};
ghost use Rattle.c65_ctype.specs.Layouts.{is_bit_type};
ghost use Rattle.c65_ctype.specs.Views.{ty_of, member_of, layout_of, types_of};
ghost use Rattle.c65_csem_plain.specs.Tests;

use c65_base::Size;
use c65_csem_check::measured;
use c65_ctype::{CType, Layout, Member, Types};
use c65_ints::IntType;

fn is_size(size: Option<u32>) -> bool
    ensures { result ≡ Tests.is_size size }
{
    match size {
        Some(size) => 1 <= size && size as u64 <= Size::Object.number(),
        None => false,
    }
}

fn ends_within(offset: u32, size: Option<u32>, whole: u32) -> bool
    ensures { result ≡ Tests.ends_within offset size whole }
{
    match size {
        Some(size) => offset as u64 + size as u64 <= whole as u64,
        None => false,
    }
}

/// Whether a type has a byte, and no more than an object may have.
pub fn has_bytes(types: &Types, ty: &CType) -> bool
    ensures { result ≡ Tests.has_bytes (types_of types.now) (ty_of ty.now) }
{
    is_size(measured(types, ty))
}

/// Whether what a pointer points to has bytes; any other type does.
pub fn has_step(types: &Types, ty: &CType) -> bool
    ensures { result ≡ Tests.has_step (types_of types.now) (ty_of ty.now) }
{
    match ty {
        CType::Pointer(target) => has_bytes(types, &target.ty),
        _ => true,
    }
}

fn is_bit_type(ty: &CType) -> bool
    ensures { result ≡ is_bit_type (ty_of ty.now) }
{
    match ty {
        CType::Int(IntType::Int | IntType::UInt) => true,
        _ => false,
    }
}

fn is_bit_field(size: u32, member: &Member, low: u8, width: u8) -> bool
    ensures { result ≡ Tests.is_bit_field size (member_of member.now) low width }
{
    is_bit_type(&member.ty.ty)
        && 1 <= width
        && low as u32 + width as u32 <= 16
        && member.offset as u64 + 2 <= size as u64
}

fn is_whole_member(types: &Types, size: u32, member: &Member) -> bool
    ensures { result ≡ Tests.is_whole_member (types_of types.now) size (member_of member.now) }
{
    has_bytes(types, &member.ty.ty)
        && ends_within(member.offset, measured(types, &member.ty.ty), size)
}

fn lies(types: &Types, size: u32, member: &Member) -> bool
    ensures { result ≡ Tests.lies (types_of types.now) size (member_of member.now) (member_of member.now).bits }
{
    match member.bits {
        Some((low, width)) => is_bit_field(size, member, low, width),
        None => is_whole_member(types, size, member),
    }
}

fn member_lies(types: &Types, size: u32, member: Option<&Member>) -> bool
    ensures { result ≡ Tests.member_lies (types_of types.now) size (option_map member_of (option_copied member.entry)) }
{
    match member {
        Some(member) => lies(types, size, member),
        None => false,
    }
}

fn lies_in_layout(types: &Types, number: u32, layout: Option<&Layout>) -> bool
    ensures { result ≡ Tests.lies_in_layout (types_of types.now) number (option_map layout_of (option_copied layout.entry)) }
{
    match layout {
        Some(layout) => member_lies(types, layout.size, layout.members.get(number as usize)),
        None => false,
    }
}

/// Whether the member of this number lies in its structure or union.
pub fn lies_in(types: &Types, number: u32, ty: &CType) -> bool
    ensures { result ≡ Tests.lies_in (types_of types.now) number (ty_of ty.now) }
{
    match ty {
        CType::Struct(tag) => lies_in_layout(types, number, types.get(*tag)),
        _ => false,
    }
}
