// Address constants (C90 6.4): what an initial pointer names, and the offset from there.
ghost use Rattle.std.specs.Prelude.{◌≡◌, ◌+ℤ◌, ◌*ℤ◌, neg_ℤ, IfSome, Some, None, true, slice_get};
ghost use Rattle.c65_ctype.specs.Trees.{type_in};
ghost use Rattle.c65_ctype.specs.Views.{ty_of, qty_of, types_of};
ghost use Rattle.c65_csem.specs.Places;
ghost use Rattle.c65_csem.specs.Views.{unit_of, typed_of, node_of};
ghost use Rattle.c65_init_cells.specs.Addresses.{is_static, target_of, lasts, held, moved, to_member, limited_product, measured, step_of, distance, holds_address, number_in, object_start, place_constant, constant_of};

use crate::sink::bytes_of;
use c65_base::{BinaryOp, Size};
use c65_csem::{Class, Parts, TExpr, TKind, Target, member_at};
use c65_ctype::{CType, QType, Types};
use c65_ints::IntType;

/// A place that is there for the whole run, by what it lies in and how many bytes behind its
/// beginning; or a null pointer, or one that is made from a number.
#[derive(Clone, Copy, Debug, PartialEq, Eq)]
pub enum Constant {
    At(Target, i64),
    Number(i64),
}

fn is_static(parts: &Parts, number: u32) -> bool
    ensures { result ≡ is_static (slice_get (unit_of parts.now).objects number) }
{
    match parts.objects.get(number as usize) {
        Some(object) => match object.class {
            Class::Auto | Class::Register | Class::Fixed => false,
            Class::External | Class::Tentative | Class::Declared | Class::Static => true,
        },
        None => false,
    }
}

/// An object that is there for the whole run.
fn object_constant(parts: &Parts, number: u32) -> Option<Constant>
    ensures exact { result ≡ object_start (unit_of parts.now) number }
    ensures lasts { IfSome result (λ c. lasts (unit_of parts.now) (target_of c) ≡ true) }
{
    if is_static(parts, number) {
        Some(Constant::At(Target::Object(number), 0))
    } else {
        None
    }
}

/// A sum that 64 bits hold.
#[tactic(auto, using(crate::proofs::Ranges::held_is))]
fn sum(a: i64, b: i64) -> Option<i64>
    ensures { result ≡ held (a +ℤ b) }
{
    a.checked_add(b)
}

/// A product that 64 bits hold.
#[tactic(auto, using(crate::proofs::Ranges::held_is))]
fn product(a: i64, b: i64) -> Option<i64>
    ensures { result ≡ held (a *ℤ b) }
{
    a.checked_mul(b)
}

/// The same number with the other sign, where 64 bits hold it.
#[tactic(auto, using(crate::proofs::Ranges::held_is))]
fn negated(a: i64) -> Option<i64>
    ensures { result ≡ held (neg_ℤ a) }
{
    a.checked_neg()
}

/// A constant so many bytes further on.
fn moved(constant: Constant, by: i64) -> Option<Constant>
    ensures exact { result ≡ moved constant by }
    ensures target { IfSome result (λ c. target_of c ≡ target_of constant) }
{
    match constant {
        Constant::At(target, offset) => Some(Constant::At(target, sum(offset, by)?)),
        Constant::Number(value) => Some(Constant::Number(sum(value, by)?)),
    }
}

/// A member of what a constant names.
fn moved_to_member(types: &Types, place: Constant, of: &QType, number: u32) -> Option<Constant>
    ensures exact { result ≡ to_member (Places.member_at (types_of types.now) (type_in (qty_of of.now)) number) (Some place) }
    ensures target { IfSome result (λ c. target_of c ≡ target_of place) }
{
    let member = member_at(types, &of.ty, number)?;
    moved(place, member.offset as i64)
}

/// So many elements of this size, where these have at most 65,535 bytes.
fn limited_product(count: u32, size: Option<u32>) -> Option<u32>
    ensures { result ≡ limited_product count size }
{
    let total = size? as u64 * count as u64;
    if total > Size::Object.number() {
        None
    } else {
        Some(total as u32)
    }
}

/// The bytes of a type, where neither it nor a type that it is an array of has more than 65,535.
fn measured(types: &Types, ty: &CType) -> Option<u32>
    ensures { result ≡ measured (types_of types.now) (ty_of ty.now) }
{
    match ty {
        CType::Void | CType::Function(_) | CType::Array(_, None) => None,
        CType::Int(kind) => Some(bytes_of(*kind)),
        CType::Pointer(_) => Some(2),
        CType::Array(element, Some(count)) => {
            limited_product(*count, measured(types, &element.ty))
        }
        CType::Struct(tag) => match types.get(*tag) {
            Some(layout) => Some(layout.size),
            None => None,
        },
    }
}

/// The bytes of what a pointer type points to.
fn step_of(types: &Types, q: &QType) -> Option<i64>
    ensures { result ≡ step_of (types_of types.now) (type_in (qty_of q.now)) }
{
    match &q.ty {
        CType::Pointer(target) => Some(measured(types, &target.ty)? as i64),
        _ => None,
    }
}

/// The bytes by which a constant number of steps moves a pointer of this type.
fn distance(types: &Types, op: BinaryOp, q: &QType, count: &TKind) -> Option<i64>
    ensures { result ≡ distance (types_of types.now) op (type_in (qty_of q.now)) (node_of count.now) }
{
    let TKind::Const(count) = count else {
        return None;
    };
    let by = product(step_of(types, q)?, *count)?;
    match op {
        BinaryOp::Add => Some(by),
        BinaryOp::Sub => negated(by),
        _ => None,
    }
}

/// Whether a value of this type can hold an address.
fn holds_address(ty: &CType) -> bool
    ensures { result ≡ holds_address (ty_of ty.now) }
{
    match ty {
        CType::Pointer(_) => true,
        CType::Int(IntType::SChar | IntType::UChar) => false,
        CType::Int(_) => true,
        CType::Void | CType::Array(_, _) | CType::Struct(_) | CType::Function(_) => false,
    }
}

/// The value of a constant number.
fn number_constant(kind: &TKind) -> Option<Constant>
    ensures exact { result ≡ number_in (node_of kind.now) }
    ensures target { IfSome result (λ c. target_of c ≡ None) }
{
    match kind {
        TKind::Const(value) => Some(Constant::Number(*value)),
        _ => None,
    }
}

/// Where a place lies that is there for the whole run.
#[cycle(address)]
fn place_constant(parts: &Parts, e: &TExpr) -> Option<Constant>
    ensures exact { result ≡ place_constant (unit_of parts.now) (node_of e.now.kind) }
    ensures lasts { IfSome result (λ c. lasts (unit_of parts.now) (target_of c) ≡ true) }
{
    match &e.kind {
        TKind::Object(number) => object_constant(parts, *number),
        TKind::Literal(number) => Some(Constant::At(Target::Literal(*number), 0)),
        TKind::Func(number) => Some(Constant::At(Target::Func(*number), 0)),
        TKind::Deref(pointer) => constant_pointer(parts, pointer),
        TKind::Member(of, number) => {
            let place = place_constant(parts, of)?;
            moved_to_member(&parts.types, place, &of.ty, *number)
        }
        _ => None,
    }
}

/// The value of a pointer that is a constant, in a tree that is folded.
#[cycle(address)]
pub fn constant_pointer(parts: &Parts, e: &TExpr) -> Option<Constant>
    ensures exact { result ≡ constant_of (unit_of parts.now) (typed_of e.now) }
    ensures lasts { IfSome result (λ c. lasts (unit_of parts.now) (target_of c) ≡ true) }
{
    match &e.kind {
        TKind::Null => Some(Constant::Number(0)),
        TKind::Decay(place) | TKind::Address(place) => place_constant(parts, place),
        TKind::Convert(from) => {
            if holds_address(&from.ty.ty) && number_constant(&from.kind).is_none() {
                constant_pointer(parts, from)
            } else {
                number_constant(&from.kind)
            }
        }
        TKind::Binary(op, a, b) => match distance(&parts.types, *op, &a.ty, &b.kind) {
            Some(by) => moved(constant_pointer(parts, a)?, by),
            None => {
                let by = distance(&parts.types, *op, &b.ty, &a.kind)?;
                moved(constant_pointer(parts, b)?, by)
            }
        },
        _ => None,
    }
}
