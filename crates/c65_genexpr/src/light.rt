// Light trees: their lines leave ptr2 as it is, and call no routine that may change it.
ghost use Rattle.std.specs.Prelude.{◌≡◌};
ghost use Rattle.c65_ctype.specs.Views.{ty_of};
ghost use Rattle.c65_csem.specs.Views.{typed_of};
ghost use Rattle.c65_genexpr.specs.Operating.{takes_bytes, is_signed_char, is_light_form, is_light_place, is_light_access, is_light_extent, is_light_load, is_light_target, is_light_step, is_light_conversion, is_light_element, is_light_index, is_light_sum, is_light};

use crate::elements::{Element, doublings, element_at};
use crate::operands::operands_of;
use crate::operating::{Form, Operating, reading_of};
use crate::places::{object_place, place_of};
use crate::types::{access_of, kind_of};
use c65_base::BinaryOp;
use c65_code::Width;
use c65_csem::{TExpr, TKind};
use c65_ctype::CType;
use c65_genframe::Frame;
use c65_genload::{Access, Extent, Place, bytes_of, extent_of, is_astride, is_in_byte};
use c65_genwide::width_of;
use c65_ints::IntType;

// `+`, `-`, `&`, `^` and `|`.
fn takes_bytes(op: BinaryOp) -> bool
    ensures { result ≡ takes_bytes op }
{
    match op {
        BinaryOp::Add | BinaryOp::Sub | BinaryOp::BitAnd | BinaryOp::BitXor | BinaryOp::BitOr => {
            true
        }
        _ => false,
    }
}

fn is_signed_char(kind: IntType) -> bool
    ensures { result ≡ is_signed_char kind }
{
    match kind {
        IntType::SChar => true,
        _ => false,
    }
}

fn is_light_form(form: Form) -> bool
    ensures { result ≡ is_light_form form }
{
    match form {
        Form::Constant(_, _) => false,
        Form::Indexed(size, _, _) | Form::Distance(size, _, _) | Form::DistanceUnder(size, _, _) =>
            size == 1,
        Form::Sum(_)
        | Form::LongSum(_)
        | Form::Mask(_, _)
        | Form::Word(_, _, _)
        | Form::Under(_, _) => true,
    }
}

fn is_light_place(place: Place) -> bool
    ensures { result ≡ is_light_place place }
{
    match place {
        Place::Bank(_) | Place::Near(_) | Place::Data(_, _) => true,
        Place::Far(_) => false,
    }
}

fn is_light_access(access: Access) -> bool
    ensures { result ≡ is_light_access access }
{
    match access {
        Access::Whole(kind) => !is_signed_char(kind),
        Access::Part(field) => {
            !field.kind.is_signed() && (is_in_byte(field) || is_astride(field))
        }
    }
}

// One byte or two: they are read behind an address by Y, and changed where they lie.
fn is_light_extent(extent: Extent) -> bool
    ensures { result ≡ is_light_extent extent }
{
    match extent {
        Extent::One | Extent::Two => true,
        Extent::Three | Extent::Four => false,
    }
}

// A load; of a place that is anywhere by whether the address is light.
fn is_light_load(place: Place, access: Access, base: bool) -> bool
    ensures { result ≡ is_light_load place access base }
{
    match (place, access) {
        (Place::Far(_), Access::Whole(kind)) => {
            is_light_extent(extent_of(kind)) && (!is_signed_char(kind) && base)
        }
        (Place::Far(_), Access::Part(_)) => is_light_access(access) && base,
        (Place::Bank(_) | Place::Near(_) | Place::Data(_, _), _) => is_light_access(access),
    }
}

// What is changed lies outside ptr2: regbank has six bytes.
fn is_light_target(place: Place, base: bool) -> bool
    ensures { result ≡ is_light_target place base }
{
    match place {
        Place::Far(_) => base,
        Place::Bank(at) => at < 6,
        Place::Near(_) | Place::Data(_, _) => true,
    }
}

fn is_light_step(place: Place, access: Access, base: bool) -> bool
    ensures { result ≡ is_light_step place access base }
{
    match access {
        Access::Whole(kind) => {
            is_light_extent(extent_of(kind))
                && (!is_signed_char(kind) && is_light_target(place, base))
        }
        Access::Part(_) => false,
    }
}

fn is_light_conversion(to: &CType, from: IntType) -> bool
    ensures { result ≡ is_light_conversion (ty_of to.now) from }
{
    match to {
        CType::Void => true,
        _ => {
            let kind = kind_of(to);
            match width_of(kind) {
                Width::Ax => !is_signed_char(kind),
                Width::Eax => bytes_of(from) >= 4,
            }
        }
    }
}

// An element, by its index: no routine makes bytes of the index, or a value of the byte.
fn is_light_element(element: Element, kind: IntType) -> bool
    ensures { result ≡ is_light_element (element, kind) }
{
    doublings(element.size).is_some() && !is_signed_char(kind)
}

// The index of an element of a small array.
#[cycle(light)]
pub fn is_light_index(frame: &Frame<'_>, pushed: u16, e: &TExpr) -> bool
    ensures { result ≡ is_light_index frame.now pushed (typed_of e.now) }
{
    match &e.kind {
        TKind::Deref(sum) => is_light_sum(frame, pushed, sum),
        TKind::Member(base, _) => is_light_index(frame, pushed, base),
        _ => false,
    }
}

#[cycle(light)]
fn is_light_sum(frame: &Frame<'_>, pushed: u16, e: &TExpr) -> bool
    ensures { result ≡ is_light_sum frame.now pushed (typed_of e.now) }
{
    match &e.kind {
        TKind::Binary(_, _, index) => is_light(frame, pushed, index),
        _ => false,
    }
}

/// Whether an expression is light, where so many bytes wait.
#[cycle(light)]
pub fn is_light(frame: &Frame<'_>, pushed: u16, e: &TExpr) -> bool
    ensures { result ≡ is_light frame.now pushed (typed_of e.now) }
{
    match &e.kind {
        TKind::Const(_) | TKind::Null | TKind::Literal(_) | TKind::Func(_) => true,
        TKind::Object(object) => is_light_place(object_place(frame, pushed, *object)),
        TKind::Deref(a) | TKind::Member(a, _) | TKind::Address(a) | TKind::Decay(a) => {
            is_light(frame, pushed, a)
        }
        TKind::Load(a) => match element_at(frame, a) {
            Some((element, kind)) => {
                is_light_element(element, kind) && is_light_index(frame, pushed, a)
            }
            None => is_light_load(
                place_of(frame, pushed, a),
                access_of(&frame.parts().types, a),
                is_light(frame, pushed, a),
            ),
        },
        TKind::Step(_, a) => is_light_step(
            place_of(frame, pushed, a),
            access_of(&frame.parts().types, a),
            is_light(frame, pushed, a),
        ),
        TKind::Convert(a) => {
            is_light_conversion(&e.ty.ty, kind_of(&a.ty.ty)) && is_light(frame, pushed, a)
        }
        TKind::Binary(op, a, b) => {
            let operands = operands_of(frame, &a.ty.ty, &b.ty.ty);
            takes_bytes(*op)
                && match reading_of(frame, pushed, *op, operands, a, b) {
                    Operating::Left(form) => is_light_form(form) && is_light(frame, pushed, a),
                    Operating::Right(form) => is_light_form(form) && is_light(frame, pushed, b),
                    Operating::Held(_) | Operating::Stacked => false,
                }
        }
        TKind::Unary(_, _)
        | TKind::And(_, _)
        | TKind::Or(_, _)
        | TKind::Cond(_, _, _)
        | TKind::Comma(_, _)
        | TKind::Assign(_, _)
        | TKind::AssignOp(_, _, _, _)
        | TKind::AssignStep(_, _, _)
        | TKind::Copy(_, _)
        | TKind::Call(_, _)
        | TKind::Pack(_)
        | TKind::Spill(_, _)
        | TKind::Rest => false,
    }
}
