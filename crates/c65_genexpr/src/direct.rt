// Values whose bytes are read where they lie, trees that change nothing, and values of one byte.
ghost use Rattle.std.specs.Prelude.{◌≡◌, OnOk, OnErr};
ghost use Rattle.c65_ctype.specs.Views.{ty_of};
ghost use Rattle.c65_csem.specs.Views.{typed_of};
ghost use Rattle.c65_genload.specs.Places.{extent_of};
ghost use Rattle.c65_genwide.specs.Lines.{with_lines, Keeps};
ghost use Rattle.c65_gendirect.specs.Tests.{zero_test_code};
ghost use Rattle.c65_genexpr.specs.Direct.{kept_at, address_at, address_of, takes_bytes, direct_of, is_fixed, is_pure, is_unsigned_char, keeps_byte, is_byte, sides_of, listed, own_bytes};

use crate::constants::residue_of;
use crate::places::{is_plain, place_of};
use crate::types::{access_of, kind_of};
use c65_code::{Draft, Width};
use c65_csem::{TExpr, TKind};
use c65_ctype::CType;
use c65_gendirect::{Direct, Sides, byte_of, converted, put_zero_test};
use c65_genframe::Frame;
use c65_genload::{Access, Extent, Place, bytes_of, extent_of};
use c65_ints::IntType;
use std::alloc::AllocError;

/// A number that is kept at a known place.
pub fn kept_at(place: Place, access: Access) -> Option<Direct>
    ensures { result ≡ kept_at place access }
{
    match (place, access) {
        (Place::Far(_), _) | (_, Access::Part(_)) => None,
        (_, Access::Whole(kind)) => Some(Direct::Kept(place, kind)),
    }
}

fn address_at(place: Place) -> Option<Direct>
    ensures { result ≡ address_at place }
{
    match place {
        Place::Data(sym, at) => Some(Direct::Address(sym, at)),
        _ => None,
    }
}

/// The address of a place, where it is known when the program is linked.
fn address_of(frame: &Frame<'_>, pushed: u16, e: &TExpr) -> Option<Direct>
    ensures { result ≡ address_of frame.now pushed (typed_of e.now) }
{
    match &e.kind {
        TKind::Func(function) => Some(Direct::Address(frame.numbers().function(*function), 0)),
        _ if is_plain(e) => address_at(place_of(frame, pushed, e)),
        _ => None,
    }
}

// Conversions that take bytes as they are, and zeros above them.
fn takes_bytes(to: &CType, from: &CType) -> bool
    ensures { result ≡ takes_bytes (ty_of to.now) (ty_of from.now) }
{
    match (to, from) {
        (CType::Int(_), CType::Int(_)) | (CType::Pointer(_), CType::Pointer(_)) => true,
        (CType::Int(kind), CType::Pointer(_)) => bytes_of(*kind) == 2,
        (_, _) => false,
    }
}

/// A value whose bytes can be read where they lie, where so many bytes wait.
pub fn direct_of(frame: &Frame<'_>, pushed: u16, e: &TExpr) -> Option<Direct>
    ensures { result ≡ direct_of frame.now pushed (typed_of e.now) }
{
    match &e.kind {
        TKind::Const(z) => Some(Direct::Number(residue_of(*z))),
        TKind::Null => Some(Direct::Number(0)),
        TKind::Load(a) if is_plain(a) => kept_at(
            place_of(frame, pushed, a),
            access_of(&frame.parts().types, a),
        ),
        TKind::Load(_) => None,
        TKind::Address(a) | TKind::Decay(a) => address_of(frame, pushed, a),
        TKind::Convert(a) => {
            if takes_bytes(&e.ty.ty, &a.ty.ty) {
                let direct = direct_of(frame, pushed, a)?;
                converted(kind_of(&e.ty.ty), direct)
            } else {
                None
            }
        }
        _ => None,
    }
}

/// A value that nothing changes while the program runs.
pub fn is_fixed(direct: Option<Direct>) -> bool
    ensures { result ≡ is_fixed direct }
{
    match direct {
        Some(Direct::Number(_) | Direct::Address(_, _)) => true,
        Some(Direct::Kept(_, _)) | None => false,
    }
}

/// Whether an expression changes nothing, and calls nothing.
pub fn is_pure(e: &TExpr) -> bool
    ensures { result ≡ is_pure (typed_of e.now) }
{
    match &e.kind {
        TKind::Deref(a)
        | TKind::Member(a, _)
        | TKind::Load(a)
        | TKind::Address(a)
        | TKind::Decay(a)
        | TKind::Convert(a)
        | TKind::Unary(_, a)
        | TKind::Pack(a) => is_pure(a),
        TKind::Binary(_, a, b) | TKind::And(a, b) | TKind::Or(a, b) | TKind::Comma(a, b) => {
            is_pure(a) && is_pure(b)
        }
        TKind::Cond(c, a, b) => is_pure(c) && is_pure(a) && is_pure(b),
        TKind::Assign(_, _)
        | TKind::AssignOp(_, _, _, _)
        | TKind::AssignStep(_, _, _)
        | TKind::Step(_, _)
        | TKind::Copy(_, _)
        | TKind::Call(_, _)
        | TKind::Spill(_, _) => false,
        TKind::Const(_)
        | TKind::Null
        | TKind::Literal(_)
        | TKind::Object(_)
        | TKind::Func(_)
        | TKind::Rest => true,
    }
}

fn is_unsigned_char(ty: &CType) -> bool
    ensures { result ≡ is_unsigned_char (ty_of ty.now) }
{
    match ty {
        CType::Int(IntType::UChar) => true,
        _ => false,
    }
}

// Conversions that keep the values from 0 to 255.
fn keeps_byte(to: &CType, from: &CType) -> bool
    ensures { result ≡ keeps_byte (ty_of to.now) (ty_of from.now) }
{
    match (to, from) {
        (CType::Int(IntType::SChar), _) => false,
        (CType::Int(_), CType::Int(_)) => true,
        (_, _) => false,
    }
}

/// Whether a value is known to be from 0 to 255.
pub fn is_byte(e: &TExpr) -> bool
    ensures { result ≡ is_byte (typed_of e.now) }
{
    match &e.kind {
        TKind::Const(z) => residue_of(*z) < 256,
        TKind::Convert(a) => {
            is_unsigned_char(&e.ty.ty) || keeps_byte(&e.ty.ty, &a.ty.ty) && is_byte(a)
        }
        _ => is_unsigned_char(&e.ty.ty),
    }
}

/// The bytes of a word or a long.
pub fn sides_of(width: Width, direct: Direct) -> Option<Sides>
    ensures { result ≡ sides_of width direct }
{
    let low = byte_of(direct, 0)?;
    let high = byte_of(direct, 1)?;
    match width {
        Width::Ax => Some(Sides::Word(low, high)),
        Width::Eax => Some(Sides::Long(low, high, byte_of(direct, 2)?, byte_of(direct, 3)?)),
    }
}

/// A test of a number where it is kept.
pub fn put_own_test(
    direct: Direct,
    kind: IntType,
    sense: bool,
    to: u32,
    draft: &mut Draft,
) -> Result<(), AllocError>
    ensures lines { OnOk result (draft.new ≡ with_lines draft.old (zero_test_code (own_bytes direct (extent_of kind)) sense to)) }
    ensures kept { OnErr result (Keeps draft.old draft.new) }
{
    match extent_of(kind) {
        Extent::One => match byte_of(direct, 0) {
            Some(byte) => put_zero_test(&[byte], sense, to, draft),
            None => put_zero_test(&[], sense, to, draft),
        },
        Extent::Two => put_sides_test(sides_of(Width::Ax, direct), sense, to, draft),
        Extent::Three | Extent::Four => {
            put_sides_test(sides_of(Width::Eax, direct), sense, to, draft)
        }
    }
}

fn put_sides_test(
    sides: Option<Sides>,
    sense: bool,
    to: u32,
    draft: &mut Draft,
) -> Result<(), AllocError>
    ensures lines { OnOk result (draft.new ≡ with_lines draft.old (zero_test_code (listed sides) sense to)) }
    ensures kept { OnErr result (Keeps draft.old draft.new) }
{
    match sides {
        Some(Sides::Word(low, high)) => put_zero_test(&[low, high], sense, to, draft),
        Some(Sides::Long(first, second, third, fourth)) => {
            put_zero_test(&[first, second, third, fourth], sense, to, draft)
        }
        None => put_zero_test(&[], sense, to, draft),
    }
}
