// Tags are renumbered where tables are put together.
ghost use Rattle.std.specs.Prelude.{◌≡◌, ◌≤◌, IfOk, map, option_map};
ghost use Rattle.c65_ctype.specs.Views.{ty_of, qty_of, fn_of, member_of, layout_of, tag_of};
ghost use Rattle.c65_ctype.specs.Raised.{raised_ty, raised, raised_fn, raised_member, raised_layout, raised_tag};

use crate::types::{CType, FnType, Layout, Member, QType, Tag};
use std::alloc::{AllocError, Global};

impl QType {
    /// The type with each tag in it raised by a number. Answers want of memory where one would
    /// pass the greatest u32.
    pub fn raised(&self, alloc: Global, by: u32) -> Result<QType, AllocError>
        ensures { IfOk result (λ q. qty_of q ≡ raised by (qty_of self.now)) }
    {
        raised_type(alloc, self, by)
    }
}

impl FnType {
    /// The type with each tag in it raised by a number. Answers want of memory where one would
    /// pass the greatest u32.
    pub fn raised(&self, alloc: Global, by: u32) -> Result<FnType, AllocError>
        ensures { IfOk result (λ f. fn_of f ≡ raised_fn by (fn_of self.now)) }
    {
        raised_function(alloc, self, by)
    }
}

#[cycle(raise)]
fn raised_type(alloc: Global, q: &QType, by: u32) -> Result<QType, AllocError>
    ensures { IfOk result (λ t. qty_of t ≡ raised by (qty_of q.now)) }
{
    Ok(QType {
        ty: raised_plain(alloc, &q.ty, by)?,
        is_const: q.is_const,
        is_volatile: q.is_volatile,
    })
}

#[cycle(raise)]
fn raised_plain(alloc: Global, ty: &CType, by: u32) -> Result<CType, AllocError>
    ensures { IfOk result (λ t. ty_of t ≡ raised_ty by (ty_of ty.now)) }
{
    match ty {
        CType::Void => Ok(CType::Void),
        CType::Int(int) => Ok(CType::Int(*int)),
        CType::Pointer(target) => {
            let target = raised_type(alloc, target, by)?;
            Ok(CType::Pointer(Box::new(alloc, target)?))
        }
        CType::Array(element, count) => {
            let element = raised_type(alloc, element, by)?;
            Ok(CType::Array(Box::new(alloc, element)?, *count))
        }
        CType::Struct(tag) => match tag.checked_add(by) {
            Some(sum) => Ok(CType::Struct(sum)),
            None => Err(AllocError),
        },
        CType::Function(function) => {
            let function = raised_function(alloc, function, by)?;
            Ok(CType::Function(Box::new(alloc, function)?))
        }
    }
}

#[cycle(raise)]
fn raised_function(alloc: Global, function: &FnType, by: u32) -> Result<FnType, AllocError>
    ensures { IfOk result (λ f. fn_of f ≡ raised_fn by (fn_of function.now)) }
{
    let given = raised_type(alloc, &function.result, by)?;
    match &function.params {
        None => Ok(FnType::new(given, None, function.variadic, function.cdecl)),
        Some(types) => {
            let mut copies = Vec::new(alloc);
            for ty in types {
                let copy = raised_type(alloc, ty, by)?;
                copies.push(copy)?;
            }
            Ok(FnType::new(given, Some(copies), function.variadic, function.cdecl))
        }
    }
}

fn raised_member(alloc: Global, member: &Member, by: u32) -> Result<Member, AllocError>
    ensures { IfOk result (λ m. member_of m ≡ raised_member by (member_of member.now)) }
{
    Ok(Member {
        name: member.name,
        ty: member.ty.raised(alloc, by)?,
        offset: member.offset,
        bits: member.bits,
    })
}

fn raised_layout(alloc: Global, layout: &Layout, by: u32) -> Result<Layout, AllocError>
    ensures { IfOk result (λ l. layout_of l ≡ raised_layout by (layout_of layout.now)) }
{
    let mut members = Vec::new(alloc);
    for member in &layout.members {
        let raised = raised_member(alloc, member, by)?;
        members.push(raised)?;
    }
    Ok(Layout {
        is_union: layout.is_union,
        members,
        size: layout.size,
    })
}

/// A tag of a later table.
fn raised_tag(alloc: Global, tag: &Tag, by: u32, units: u32) -> Result<Tag, AllocError>
    ensures { IfOk result (λ t. tag_of t ≡ raised_tag by units (tag_of tag.now)) }
{
    let Some(unit) = tag.unit.checked_add(units) else {
        return Err(AllocError);
    };
    let layout = match &tag.layout {
        None => None,
        Some(layout) => Some(raised_layout(alloc, layout, by)?),
    };
    Ok(Tag {
        unit,
        is_union: tag.is_union,
        layout,
    })
}

/// The tags of a later table.
pub fn raised_tags(alloc: Global, tags: &[Tag], by: u32, units: u32) -> Result<Vec<Tag>, AllocError>
    ensures { IfOk result (λ v. map tag_of v.items ≡ map (raised_tag by units) (map tag_of tags.now)) }
{
    let mut raised = Vec::new(alloc);
    for tag in tags {
        let later = raised_tag(alloc, tag, by, units)?;
        raised.push(later)?;
    }
    Ok(raised)
}
