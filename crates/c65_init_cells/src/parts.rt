// The parts of an object to which the values of an initialiser go, in their order (C90 6.5.7).
ghost use Rattle.std.specs.Prelude.{◌≡◌, ◌+◌, ◌*◌, ◌<◌, IfErr, IfOk, IfSome, drop, map, length, option_map};
ghost use Rattle.c65_base.specs.Answers.{Gives};
ghost use Rattle.c65_ctype.specs.Sizes.{limited};
ghost use Rattle.c65_ctype.specs.Views.{ty_of, qty_of, types_of, member_of};
ghost use Rattle.c65_tree.specs.View.{expr_of, init_of};
ghost use Rattle.c65_init_cells.specs.Parts.{part_of, pair_of, plain_part, element_at, named_from, next_member};
ghost use Rattle.c65_init_cells.specs.Causes.{IsShapeFault};
ghost use Rattle.c65_init_cells.specs.Cells.{is_below};
ghost use Rattle.c65_init_cells.specs.Items.{first_place};
ghost use Rattle.c65_init_cells.specs.Values.{item_value, only_value, scalar_value, takes_whole};

use crate::sink::fault;
use crate::texts::text_for;
use c65_base::{Code, Pos, Refusal, Size};
use c65_ctype::{CType, Member, QType, Types};
use c65_tree::{Expr, InitKind, Initialiser};
use std::alloc::{AllocError, Global};

/// A part of an object: its type, the byte where it begins, and a bit-field's lowest bit and width.
#[derive(Drop)]
pub struct Part {
    pub ty: QType,
    pub offset: u32,
    pub bits: Option<(u8, u8)>,
}

/// An object as a part.
pub fn whole(alloc: Global, ty: &QType) -> Result<Part, AllocError>
    ensures { IfOk result (λ p. part_of p ≡ plain_part (qty_of ty.now) 0) }
{
    Ok(Part {
        ty: ty.copy(alloc)?,
        offset: 0,
        bits: None,
    })
}

/// The place of the first member with a name from this place on.
fn named_member(members: &[Member], from: usize) -> Option<usize>
    ensures exact { result ≡ named_from (drop from (map member_of members.now)) from }
    ensures inside { IfSome result (λ at. at < length members.now) }
{
    for at in from..members.len() {
        if members[at].name.is_some() {
            return Some(at);
        }
    }
    None
}

/// The next member with a name as a part, from this place on, and the place behind it; none where
/// no member is left. Of a union there is the first one alone.
pub fn member_part(
    alloc: Global,
    types: &Types,
    tag: u32,
    offset: u32,
    from: usize,
) -> Result<Option<(Part, usize)>, AllocError>
    ensures { IfOk result (λ found. option_map pair_of found ≡ next_member (types_of types.now) tag offset from) }
{
    let Some(layout) = types.get(tag) else {
        return Ok(None);
    };
    if layout.is_union && from > 0 {
        return Ok(None);
    }
    let Some(at) = named_member(&layout.members, from) else {
        return Ok(None);
    };
    let Some(member) = layout.members.get(at) else {
        return Ok(None);
    };
    let part = Part {
        ty: member.ty.copy(alloc)?,
        offset: offset.saturating_add(member.offset),
        bits: member.bits,
    };
    Ok(Some((part, at + 1)))
}

/// An element of an array as a part.
pub fn element_part(
    alloc: Global,
    element: &QType,
    base: u32,
    size: u32,
    index: u32,
) -> Result<Part, Refusal>
    ensures { Gives part_of result (element_at (qty_of element.now) base size index) }
{
    Ok(Part {
        ty: element.copy(alloc)?,
        offset: offset_of(base, size, index)?,
        bits: None,
    })
}

/// The byte where an element begins.
fn offset_of(base: u32, size: u32, index: u32) -> Result<u32, Refusal>
    ensures { Gives (λ n. n) result (limited (base + size * index)) }
{
    let offset = base as u64 + size as u64 * index as u64;
    if offset > Size::Object.number() {
        return Err(Refusal::TooLarge {
            limit: Size::Object,
            value: offset,
        });
    }
    Ok(offset as u32)
}

/// The value of an item that is no list.
fn item_value(item: &Initialiser) -> Result<&Expr, Refusal>
    ensures exact { Gives (λ e. expr_of e.now) result (item_value (init_of item.now)) }
    ensures refused { IfErr result IsShapeFault }
{
    match &item.kind {
        InitKind::Value(e) => Ok(e),
        InitKind::List(_) => Err(fault(Code::Initialiser, item.pos)),
    }
}

/// The one value of a scalar, with or without braces.
pub fn scalar_value(init: &Initialiser) -> Result<&Expr, Refusal>
    ensures exact { Gives (λ e. expr_of e.now) result (scalar_value (init_of init.now)) }
    ensures refused { IfErr result IsShapeFault }
{
    match &init.kind {
        InitKind::Value(e) => Ok(e),
        InitKind::List(items) => only_value(items, init.pos),
    }
}

/// The value of the one item of a list.
#[tactic(auto, using(crate::proofs::ItemLaws::place_is))]
fn only_value(items: &[Initialiser], pos: Pos) -> Result<&Expr, Refusal>
    ensures exact { Gives (λ e. expr_of e.now) result (only_value pos (map init_of items.now)) }
    ensures refused { IfErr result IsShapeFault }
{
    match items {
        [item] => item_value(item),
        [_, second, ..] => Err(fault(Code::Initialiser, second.pos)),
        [] => Err(fault(Code::Initialiser, pos)),
    }
}

/// Whether a part takes one item: a scalar, a list in braces, or a string literal for characters.
pub fn takes_whole(ty: &CType, item: &Initialiser) -> bool
    ensures { result ≡ takes_whole (ty_of ty.now) (init_of item.now) }
{
    match ty {
        CType::Array(_, _) | CType::Struct(_) => match &item.kind {
            InitKind::List(_) => true,
            InitKind::Value(_) => text_for(ty, item).is_some(),
        },
        CType::Void | CType::Int(_) | CType::Pointer(_) | CType::Function(_) => true,
    }
}

/// Whether an array that has so many elements, where that is known, has one more.
pub fn is_below(taken: u32, count: Option<u32>) -> bool
    ensures { result ≡ is_below taken count }
{
    match count {
        Some(count) => taken < count,
        None => true,
    }
}

/// The place of the first item of a list.
#[tactic(auto, using(crate::proofs::ItemLaws::place_is))]
pub fn first_pos(items: &[Initialiser]) -> Pos
    ensures { result ≡ first_place (map init_of items.now) }
{
    match items {
        [item, ..] => item.pos,
        [] => Pos { file: 0, line: 0 },
    }
}
