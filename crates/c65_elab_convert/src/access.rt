// Elements, members and sizes (C90 6.3.2.1, 6.3.2.3, 6.3.3.4).
ghost use Rattle.std.specs.Prelude.{◌≡◌, IfOk, map, option_map, option_copied};
ghost use Rattle.c65_base.specs.Answers.{Gives};
ghost use Rattle.c65_ctype.specs.Views.{ty_of, qty_of, member_of, layout_of, types_of};
ghost use Rattle.c65_csem.specs.Places as places;
ghost use Rattle.c65_csem.specs.Trees.{type_of};
ghost use Rattle.c65_csem.specs.Views.{typed_of};
ghost use Rattle.c65_elab_convert.specs.Access as access;

use crate::binaries::binary;
use crate::classes::{Category, classify, is_array, is_bit_field, is_spilled, unfit_operand};
use crate::unaries::deref;
use crate::waiting::beside;
use c65_base::{BinaryOp, Code, Name, Pos, Refusal, boxed_beside};
use c65_csem::{TExpr, TKind, int_type};
use c65_ctype::{CType, Layout, Member, QType, Types};
use c65_ints::IntType;
use std::alloc::{AllocError, Global};

/// `a[b]` (C90 6.3.2.1): what `a + b` points to. Refuses as these two do.
pub fn index(alloc: Global, types: &Types, pos: Pos, a: TExpr, b: TExpr) -> Result<TExpr, Refusal>
    ensures { Gives typed_of result (access.index_of (types_of types.now) pos (typed_of a) (typed_of b)) }
{
    let sum = binary(alloc, types, pos, BinaryOp::Add, a, b)?;
    deref(alloc, pos, sum)
}

/// A type that has further qualifiers; those of an array are those of its elements.
fn qualified(
    alloc: Global,
    is_const: bool,
    is_volatile: bool,
    q: &QType,
) -> Result<QType, AllocError>
    ensures { IfOk result (λ t. qty_of t ≡ places.qualified is_const is_volatile (qty_of q.now)) }
{
    match &q.ty {
        CType::Array(element, count) => {
            let element = qualified(alloc, is_const, is_volatile, element)?;
            Ok(QType {
                ty: CType::Array(Box::new(alloc, element)?, *count),
                is_const: q.is_const,
                is_volatile: q.is_volatile,
            })
        }
        CType::Function(_) => q.copy(alloc),
        CType::Void | CType::Int(_) | CType::Pointer(_) | CType::Struct(_) => Ok(QType {
            ty: q.ty.copy(alloc)?,
            is_const: is_const || q.is_const,
            is_volatile: is_volatile || q.is_volatile,
        }),
    }
}

/// Whether a member has this name.
fn is_named(member: &Member, name: Name) -> bool
    ensures { result ≡ access.is_named (member_of member.now) name }
{
    match member.name {
        Some(other) => other.0 == name.0,
        None => false,
    }
}

/// The place of a member among the members, by its name.
fn find(members: &[Member], name: Name) -> Option<usize>
    ensures { result ≡ access.find_from 0 (map member_of members.now) name }
{
    for (i, member) in members.iter().enumerate() {
        if is_named(member, name) {
            return Some(i);
        }
    }
    None
}

fn layout_at<'a>(types: &'a Types, ty: &CType) -> Option<&'a Layout>
    ensures { option_map layout_of (option_copied result) ≡ access.layout_in (types_of types.now) (ty_of ty.now) }
{
    match ty {
        CType::Struct(tag) => types.get(*tag),
        _ => None,
    }
}

/// A member's place among the members, and its type as part of an object of this type.
fn member_type(
    alloc: Global,
    types: &Types,
    q: &QType,
    name: Name,
) -> Result<Option<(u32, QType)>, AllocError>
    ensures { IfOk result (λ o. option_map (λ x. (x.0, qty_of x.1)) o ≡ access.member_type (types_of types.now) (qty_of q.now) name) }
{
    let Some(layout) = layout_at(types, &q.ty) else {
        return Ok(None);
    };
    let members = layout.members.as_slice();
    let Some(i) = find(members, name) else {
        return Ok(None);
    };
    if i > 0xffff_ffff {
        return Err(AllocError);
    }
    let Some(member) = members.get(i) else {
        return Ok(None);
    };
    let ty = qualified(alloc, q.is_const, q.is_volatile, &member.ty)?;
    Ok(Some((i as u32, ty)))
}

/// A member of an expression whose type is a structure or union.
fn member_of_tag(
    alloc: Global,
    types: &Types,
    pos: Pos,
    e: TExpr,
    name: Name,
) -> Result<TExpr, Refusal>
    ensures { Gives typed_of result (access.member_found pos (typed_of e) (access.member_type (types_of types.now) (type_of (typed_of e)) name)) }
{
    let (found, e) = beside(member_type(alloc, types, &e.ty, name), e)?;
    match found {
        Some((i, ty)) => {
            if is_spilled(&e) && is_array(&ty.ty) {
                drop(e);
                return Err(Refusal::fault(Code::Operands, pos));
            }
            let (e, ty) = boxed_beside(alloc, e, ty)?;
            let kind = TKind::Member(e, i);
            Ok(TExpr { ty, kind })
        }
        None => {
            drop(e);
            Err(Refusal::fault(Code::MemberUnknown, pos))
        }
    }
}

/// A member of a structure or union.
fn member_in(alloc: Global, types: &Types, pos: Pos, e: TExpr, name: Name) -> Result<TExpr, Refusal>
    ensures { Gives typed_of result (access.member_in (types_of types.now) pos (typed_of e) name) }
{
    match classify(&e.ty.ty) {
        Category::Tag => member_of_tag(alloc, types, pos, e, name),
        Category::Int(_) | Category::Pointer | Category::Void | Category::Other => {
            Err(unfit_operand(Code::Operands, pos, e))
        }
    }
}

/// `e.name`, or `e->name` with the flag `arrow` (C90 6.3.2.3). A member has the qualifiers of its
/// structure or union too. Refuses `Operands`, also for an array within what a call gave, `VoidValue`,
/// and `MemberUnknown`, also where the structure or union is not complete.
pub fn member(
    alloc: Global,
    types: &Types,
    pos: Pos,
    arrow: bool,
    e: TExpr,
    name: Name,
) -> Result<TExpr, Refusal>
    ensures { Gives typed_of result (access.member_of_name (types_of types.now) pos arrow (typed_of e) name) }
{
    if arrow {
        let object = deref(alloc, pos, e)?;
        member_in(alloc, types, pos, object, name)
    } else {
        member_in(alloc, types, pos, e, name)
    }
}

/// The size of a type as a value of type unsigned int (C90 6.3.3.4). Refuses `IncompleteType` and
/// `Object`. It takes no memory.
pub fn size_of_type(types: &Types, pos: Pos, ty: &CType) -> Result<TExpr, Refusal>
    ensures { Gives typed_of result (access.size_of_type (types_of types.now) pos (ty_of ty.now)) }
{
    let size = types.size(ty, pos)?;
    Ok(TExpr {
        ty: int_type(IntType::UInt),
        kind: TKind::Const(size as i64),
    })
}

/// The size of an expression, which is not evaluated (C90 6.3.3.4). Refuses `BitField`,
/// `IncompleteType` and `Object`. It takes no memory.
pub fn size_of_expr(types: &Types, pos: Pos, e: &TExpr) -> Result<TExpr, Refusal>
    ensures { Gives typed_of result (access.size_of_expr (types_of types.now) pos (typed_of e.now)) }
{
    if is_bit_field(types, e) {
        return Err(Refusal::fault(Code::BitField, pos));
    }
    size_of_type(types, pos, &e.ty.ty)
}
