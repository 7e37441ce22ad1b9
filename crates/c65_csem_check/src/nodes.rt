// What each node asks beside its parts (C90 6.3).
ghost use Rattle.std.specs.Prelude.{◌≡◌, map, option_map, option_copied, slice_get};
ghost use Rattle.c65_ctype.specs.Views.{ty_of, qty_of, types_of, member_of};
ghost use Rattle.c65_csem.specs.Places;
ghost use Rattle.c65_csem.specs.Views.{typed_of, object_of, func_of, unit_of};
ghost use Rattle.c65_csem_check.specs.Expressions;
ghost use Rattle.c65_csem_check.specs.Kinds;
ghost use Rattle.c65_csem_check.specs.Expressions.{holds, text_at, object_at, func_at, member_by};

use crate::operators::{computes, operand, operands, steps};
use crate::same::{same, same_plain};
use crate::types::{
    are_alike, int_of, is_bare, is_decayed, is_int, is_int_of, is_literal, is_moved, is_plain_of,
    is_plain_scalar, is_plain_small, is_plain_void, is_pointer_to, is_promoted, is_qualified,
    is_stepped,
};
use c65_base::{BinaryOp, Text as Bytes, UnaryOp};
use c65_csem::{Class, Parts, TExpr, TFunc, TKind, TObject, is_scalar, is_tag, member_at};
use c65_ctype::{CType, Member, QType, Types};
use c65_ints::IntType;

// Items by their numbers.

pub fn object(parts: &Parts, number: u32) -> Option<&TObject>
    ensures { option_map object_of (option_copied result) ≡ slice_get (unit_of parts.now).objects number }
{
    parts.objects.get(number as usize)
}

pub fn func(parts: &Parts, number: u32) -> Option<&TFunc>
    ensures { option_map func_of (option_copied result) ≡ slice_get (unit_of parts.now).funcs number }
{
    parts.funcs.get(number as usize)
}

fn literal(parts: &Parts, number: u32) -> Option<&Bytes>
    ensures { option_copied result ≡ slice_get (unit_of parts.now).literals number }
{
    parts.literals.get(number as usize)
}

// Values and places.

pub fn is_value(e: &TExpr) -> bool
    ensures { result ≡ Expressions.is_value (typed_of e.now) }
{
    is_plain_scalar(&e.ty) && !e.is_place()
}

pub fn is_scalar_place(e: &TExpr) -> bool
    ensures { result ≡ Expressions.is_scalar_place (typed_of e.now) }
{
    e.is_place() && is_scalar(&e.ty.ty)
}

pub fn converts(ty: &QType, e: &TExpr) -> bool
    ensures { result ≡ Expressions.converts (qty_of ty.now) (typed_of e.now) }
{
    (is_plain_scalar(ty) && is_value(e)) || is_plain_void(ty)
}

pub fn is_arm(ty: &QType, e: &TExpr) -> bool
    ensures { result ≡ Expressions.is_arm (qty_of ty.now) (typed_of e.now) }
{
    (is_value(e) && same(&e.ty, ty))
        || (is_tag(&ty.ty) && is_plain_of(ty, &e.ty))
        || (is_plain_void(ty) && same(&e.ty, ty))
}

fn is_bits(member: Option<&Member>) -> bool
    ensures { result ≡ Places.is_bits (option_map member_of (option_copied member.entry)) }
{
    match member {
        Some(member) => member.bits.is_some(),
        None => false,
    }
}

fn is_bit_field(types: &Types, e: &TExpr) -> bool
    ensures { result ≡ Places.is_bit_field (types_of types.now) (typed_of e.now) }
{
    match &e.kind {
        TKind::Member(of, number) => is_bits(member_at(types, &of.ty.ty, *number)),
        _ => false,
    }
}

fn has_register(object: Option<&TObject>) -> bool
    ensures { result ≡ Places.has_register (option_map object_of (option_copied object.entry)) }
{
    match object {
        Some(object) => match object.class {
            Class::Register => true,
            _ => false,
        },
        None => false,
    }
}

fn is_registered(parts: &Parts, e: &TExpr) -> bool
    ensures { result ≡ Places.is_registered (unit_of parts.now) (typed_of e.now) }
{
    match &e.kind {
        TKind::Object(number) => has_register(object(parts, *number)),
        TKind::Member(of, _) => is_registered(parts, of),
        _ => false,
    }
}

fn is_addressed(parts: &Parts, e: &TExpr) -> bool
    ensures { result ≡ Expressions.is_addressed (unit_of parts.now) (typed_of e.now) }
{
    e.is_place() && !is_bit_field(&parts.types, e) && !is_registered(parts, e)
}

// Leaves.

pub fn holds(kind: Option<IntType>, value: i64) -> bool
    ensures { result ≡ holds kind value }
{
    match kind {
        Some(kind) => kind.least() <= value && value <= kind.greatest(),
        None => false,
    }
}

pub fn is_constant(ty: &QType, value: i64) -> bool
    ensures { result ≡ holds (Kinds.int_of (qty_of ty.now)) value }
{
    holds(int_of(ty), value)
}

fn text_at(ty: &QType, text: Option<&Bytes>) -> bool
    ensures { result ≡ text_at (qty_of ty.now) (option_copied text.entry) }
{
    match text {
        Some(text) => is_literal(ty, text.len()),
        None => false,
    }
}

pub fn is_text(parts: &Parts, ty: &QType, number: u32) -> bool
    ensures { result ≡ text_at (qty_of ty.now) (slice_get (unit_of parts.now).literals number) }
{
    text_at(ty, literal(parts, number))
}

fn object_at(ty: &QType, object: Option<&TObject>) -> bool
    ensures { result ≡ object_at (qty_of ty.now) (option_map object_of (option_copied object.entry)) }
{
    match object {
        Some(object) => are_alike(ty, &object.ty),
        None => false,
    }
}

pub fn is_object(parts: &Parts, ty: &QType, number: u32) -> bool
    ensures { result ≡ object_at (qty_of ty.now) (slice_get (unit_of parts.now).objects number) }
{
    object_at(ty, object(parts, number))
}

/// Whether objects of this class are automatic and no registers.
pub fn is_auto(class: Class) -> bool
    ensures { result ≡ Expressions.is_auto class }
{
    match class {
        Class::Auto => true,
        _ => false,
    }
}

fn spot_at(ty: &QType, object: Option<&TObject>) -> bool
    ensures { result ≡ Expressions.spot_at (qty_of ty.now) (option_map object_of (option_copied object.entry)) }
{
    match object {
        Some(object) => {
            object.name.is_none() && is_auto(object.class) && same_plain(&object.ty.ty, &ty.ty)
        }
        None => false,
    }
}

/// Whether an object may hold what a call of this type gives.
pub fn is_spot(parts: &Parts, ty: &QType, number: u32) -> bool
    ensures { result ≡ Expressions.spot_at (qty_of ty.now) (slice_get (unit_of parts.now).objects number) }
{
    spot_at(ty, object(parts, number))
}

/// Whether a structure argument or result of this type has the bytes of a place.
pub fn is_pack(types: &Types, ty: &QType, e: &TExpr) -> bool
    ensures { result ≡ Expressions.is_pack (types_of types.now) (qty_of ty.now) (typed_of e.now) }
{
    is_plain_small(types, ty) && is_plain_of(ty, &e.ty)
}

fn is_function(ty: &CType) -> bool
    ensures { result ≡ Expressions.is_function_ty (ty_of ty.now) }
{
    match ty {
        CType::Function(_) => true,
        _ => false,
    }
}

fn func_at(ty: &QType, func: Option<&TFunc>) -> bool
    ensures { result ≡ func_at (qty_of ty.now) (option_map func_of (option_copied func.entry)) }
{
    match func {
        Some(_) => is_bare(ty) && is_function(&ty.ty),
        None => false,
    }
}

pub fn is_func(parts: &Parts, ty: &QType, number: u32) -> bool
    ensures { result ≡ func_at (qty_of ty.now) (slice_get (unit_of parts.now).funcs number) }
{
    func_at(ty, func(parts, number))
}

// Operators.

fn member_by(ty: &QType, of: &QType, member: Option<&Member>) -> bool
    ensures { result ≡ member_by (qty_of ty.now) of.now.is_const of.now.is_volatile (option_map member_of (option_copied member.entry)) }
{
    match member {
        Some(member) => is_qualified(ty, of.is_const, of.is_volatile, &member.ty),
        None => false,
    }
}

pub fn is_member(types: &Types, ty: &QType, of: &QType, number: u32) -> bool
    ensures { result ≡ Expressions.is_member (types_of types.now) (qty_of ty.now) (qty_of of.now) number }
{
    member_by(ty, of, member_at(types, &of.ty, number))
}

pub fn is_deref(ty: &QType, e: &TExpr) -> bool
    ensures { result ≡ Expressions.is_deref (qty_of ty.now) (typed_of e.now) }
{
    !e.is_place() && is_pointer_to(&e.ty, ty)
}

pub fn is_load(ty: &QType, e: &TExpr) -> bool
    ensures { result ≡ Expressions.is_load (qty_of ty.now) (typed_of e.now) }
{
    is_scalar_place(e) && is_plain_of(ty, &e.ty)
}

pub fn is_address(parts: &Parts, ty: &QType, e: &TExpr) -> bool
    ensures { result ≡ Expressions.is_address (unit_of parts.now) (qty_of ty.now) (typed_of e.now) }
{
    is_addressed(parts, e) && is_pointer_to(ty, &e.ty)
}

pub fn is_decay(ty: &QType, e: &TExpr) -> bool
    ensures { result ≡ Expressions.is_decay (qty_of ty.now) (typed_of e.now) }
{
    e.is_place() && is_decayed(ty, &e.ty)
}

pub fn is_unary(op: UnaryOp, ty: &QType, e: &TExpr) -> bool
    ensures { result ≡ Expressions.is_unary op (qty_of ty.now) (typed_of e.now) }
{
    !e.is_place() && operand(op, ty, &e.ty)
}

pub fn is_binary(types: &Types, op: BinaryOp, ty: &QType, a: &TExpr, b: &TExpr) -> bool
    ensures { result ≡ Expressions.is_binary (types_of types.now) op (qty_of ty.now) (typed_of a.now) (typed_of b.now) }
{
    !a.is_place() && !b.is_place() && operands(types, op, ty, &a.ty, &b.ty)
}

pub fn is_logical(ty: &QType, a: &TExpr, b: &TExpr) -> bool
    ensures { result ≡ Expressions.is_logical (qty_of ty.now) (typed_of a.now) (typed_of b.now) }
{
    is_int_of(ty, IntType::Int) && is_value(a) && is_value(b)
}

pub fn is_choice(ty: &QType, x: &TExpr, a: &TExpr, b: &TExpr) -> bool
    ensures { result ≡ Expressions.is_choice (qty_of ty.now) (typed_of x.now) (typed_of a.now) (typed_of b.now) }
{
    is_value(x) && is_arm(ty, a) && is_arm(ty, b)
}

pub fn is_assign(ty: &QType, a: &TExpr, b: &TExpr) -> bool
    ensures { result ≡ Expressions.is_assign (qty_of ty.now) (typed_of a.now) (typed_of b.now) }
{
    is_load(ty, a) && !b.is_place() && same(&b.ty, ty)
}

pub fn is_assign_op(op: BinaryOp, kind: IntType, ty: &QType, a: &TExpr, b: &TExpr) -> bool
    ensures { result ≡ Expressions.is_assign_op op kind (qty_of ty.now) (typed_of a.now) (typed_of b.now) }
{
    is_load(ty, a) && is_int(ty) && !b.is_place() && is_promoted(kind) && computes(op, kind, &b.ty)
}

pub fn is_assign_step(types: &Types, op: BinaryOp, ty: &QType, a: &TExpr, b: &TExpr) -> bool
    ensures { result ≡ Expressions.is_assign_step (types_of types.now) op (qty_of ty.now) (typed_of a.now) (typed_of b.now) }
{
    is_load(ty, a) && is_moved(types, ty) && !b.is_place() && is_int(&b.ty) && steps(op)
}

pub fn is_step(types: &Types, ty: &QType, a: &TExpr) -> bool
    ensures { result ≡ Expressions.is_step (types_of types.now) (qty_of ty.now) (typed_of a.now) }
{
    is_load(ty, a) && is_stepped(types, ty)
}

pub fn is_copy(ty: &QType, a: &TExpr, b: &TExpr) -> bool
    ensures { result ≡ Expressions.is_copy (qty_of ty.now) (typed_of a.now) (typed_of b.now) }
{
    a.is_place() && is_tag(&ty.ty) && is_plain_of(ty, &a.ty) && is_plain_of(ty, &b.ty)
}
