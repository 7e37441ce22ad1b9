// Which expressions may be assigned to (C90 6.2.2.1).
ghost use Rattle.std.specs.Prelude.{◌≡◌, IfOk, OnOk, [], ◌∷◌, map};
ghost use Rattle.c65_ctype.specs.Views.{ty_of, qty_of, member_of, types_of};
ghost use Rattle.c65_csem.specs.Views.{typed_of};
ghost use Rattle.c65_elab_convert.specs.Constness as constness;

use crate::classes::is_lvalue;
use c65_csem::TExpr;
use c65_ctype::{CType, Member, QType, Types};
use std::alloc::{AllocError, Global};

/// How deep structures within structures are looked into for const members.
const LEVELS: u32 = 256;

/// Whether a type, or that of the elements of an array, is const.
fn is_const_type(q: &QType) -> bool
    ensures { result ≡ constness.is_const_type (qty_of q.now) }
{
    match &q.ty {
        CType::Array(element, _) => q.is_const || is_const_type(element),
        _ => q.is_const,
    }
}

/// The tag of a structure or union, or of the elements of an array of them.
fn tag_in(ty: &CType) -> Option<u32>
    ensures { result ≡ constness.tag_in (ty_of ty.now) }
{
    match ty {
        CType::Struct(tag) => Some(*tag),
        CType::Array(element, _) => tag_in(&element.ty),
        _ => None,
    }
}

fn any_const(members: &[Member]) -> bool
    ensures { result ≡ constness.any_const (map member_of members.now) }
{
    for member in members {
        if is_const_type(&member.ty) {
            return true;
        }
    }
    false
}

fn has_number(tags: &[u32], tag: u32) -> bool
    ensures { result ≡ constness.has_number tags.now tag }
{
    for other in tags {
        if *other == tag {
            return true;
        }
    }
    false
}

fn add_tag(tags: &mut Vec<u32>, tag: Option<u32>) -> Result<(), AllocError>
    ensures { OnOk result (tags.new.items ≡ constness.with_tag tags.old.items tag) }
{
    if let Some(tag) = tag {
        if !has_number(tags, tag) {
            tags.push(tag)?;
        }
    }
    Ok(())
}

/// Adds the tags of members.
fn add_tags(tags: &mut Vec<u32>, members: &[Member]) -> Result<(), AllocError>
    ensures { OnOk result (tags.new.items ≡ constness.with_tags tags.old.items (map member_of members.now)) }
{
    for member in members {
        add_tag(tags, tag_in(&member.ty.ty))?;
    }
    Ok(())
}

/// The members of a tag, none where it is not finished.
fn members_at(types: &Types, tag: u32) -> &[Member]
    ensures { map member_of result.now ≡ constness.members_at (types_of types.now) tag }
{
    match types.get(tag) {
        Some(layout) => &layout.members,
        None => &[],
    }
}

/// Whether one of these structures and unions has a const member of its own.
fn any_sealed(types: &Types, tags: &[u32]) -> bool
    ensures { result ≡ constness.any_sealed (types_of types.now) tags.now }
{
    for tag in tags {
        if any_const(members_at(types, *tag)) {
            return true;
        }
    }
    false
}

/// The structures and unions that are members of these.
fn inner_tags(alloc: Global, types: &Types, tags: &[u32]) -> Result<Vec<u32>, AllocError>
    ensures { IfOk result (λ v. v.items ≡ constness.inner_tags (types_of types.now) [] tags.now) }
{
    let mut inner = Vec::new(alloc);
    for tag in tags {
        add_tags(&mut inner, members_at(types, *tag))?;
    }
    Ok(inner)
}

/// Whether a structure or union has a const member, also inside of members.
fn is_sealed(alloc: Global, types: &Types, tag: u32) -> Result<bool, AllocError>
    ensures { IfOk result (λ b. b ≡ constness.is_sealed (types_of types.now) 256 (tag ∷ [])) }
{
    let mut tags = Vec::new(alloc);
    tags.push(tag)?;
    let mut left = LEVELS;
    while left > 0 {
        let level = tags.as_slice();
        if any_sealed(types, level) {
            return Ok(true);
        }
        let inner = inner_tags(alloc, types, level)?;
        tags = inner;
        left -= 1;
    }
    Ok(false)
}

/// Whether objects of a type may be assigned to where they are not const themselves.
fn may_change(alloc: Global, types: &Types, ty: &CType) -> Result<bool, AllocError>
    ensures { IfOk result (λ b. b ≡ constness.may_change (types_of types.now) (ty_of ty.now)) }
{
    match ty {
        CType::Int(_) | CType::Pointer(_) => Ok(true),
        CType::Struct(tag) => {
            if types.get(*tag).is_none() {
                return Ok(false);
            }
            Ok(!is_sealed(alloc, types, *tag)?)
        }
        CType::Void | CType::Array(_, _) | CType::Function(_) => Ok(false),
    }
}

/// Whether an expression is a modifiable lvalue (C90 6.2.2.1): its type is no array, is complete
/// and not const, and has no const member, also inside of members.
pub fn is_modifiable(alloc: Global, types: &Types, e: &TExpr) -> Result<bool, AllocError>
    ensures { IfOk result (λ b. b ≡ constness.is_modifiable (types_of types.now) (typed_of e.now)) }
{
    if e.ty.is_const || !is_lvalue(e) {
        return Ok(false);
    }
    may_change(alloc, types, &e.ty.ty)
}
