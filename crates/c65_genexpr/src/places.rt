// Where the places of an expression lie.
ghost use Rattle.std.specs.Prelude.{◌≡◌, ◌++◌, OnOk, OnErr};
ghost use Rattle.c65_csem.specs.Views.{typed_of};
ghost use Rattle.c65_genwide.specs.Lines.{with_lines, Keeps};
ghost use Rattle.c65_genexpr.specs.Types.{bare};
ghost use Rattle.c65_genexpr.specs.Operands.{operands_of, constant_in};
ghost use Rattle.c65_genexpr.specs.Destination.{arrived};
ghost use Rattle.c65_genexpr.specs.Places.{more, near, object_place, within, farther, moved, has_base, added_bytes, sum_has_base, sum_place, place_of, target_of, is_plain, object_code, target_code, rest_code};

use crate::constants::{constant_in, residue_of};
use crate::destination::{Destination, put_arrived};
use crate::operands::{Operands, operands_of};
use crate::types::offset_at;
use c65_base::BinaryOp;
use c65_code::Draft;
use c65_csem::{TExpr, TKind};
use c65_genframe::{Frame, Home};
use c65_genload::{Place, put_address, put_raised, put_symbol};
use c65_genwide::put;
use std::alloc::AllocError;

/// So many bytes more on the software stack; addresses are taken modulo 65,536.
pub fn more(pushed: u16, bytes: u16) -> u16
    ensures { result ≡ more pushed bytes }
{
    pushed.wrapping_add(bytes)
}

// So far above sp, where one byte can say so for four bytes.
fn near(at: u32) -> Place
    ensures { result ≡ near at }
{
    if at <= 252 {
        Place::Near(at as u8)
    } else {
        Place::Far(0)
    }
}

/// Where an object lies, where so many bytes wait.
pub fn object_place(frame: &Frame<'_>, pushed: u16, object: u32) -> Place
    ensures { result ≡ object_place frame.now pushed object }
{
    match frame.home(object) {
        Some(Home::Bank(byte)) => Place::Bank(byte),
        Some(Home::Soft(above)) => {
            if frame.is_raised(object) {
                Place::Far(0)
            } else {
                near(more(above, pushed) as u32)
            }
        }
        None => Place::Data(frame.numbers().object(object), 0),
    }
}

// Whether one byte can tell what lies so far behind such an offset, for two bytes.
fn within(at: u8, offset: u32) -> bool
    ensures { result ≡ within at offset }
{
    offset <= 250 && at as u32 + offset <= 250
}

// Where it cannot, the offset is added to the address.
fn farther(at: u8, offset: u32) -> u8
    ensures { result ≡ farther at offset }
{
    if within(at, offset) {
        (at as u32 + offset) as u8
    } else {
        0
    }
}

/// A part of what lies at a place, so far behind its beginning.
pub fn moved(place: Place, offset: u32) -> Place
    ensures { result ≡ moved place offset }
{
    match place {
        Place::Near(at) => {
            if offset <= 252 {
                near(at as u32 + offset)
            } else {
                Place::Far(0)
            }
        }
        Place::Data(sym, at) => Place::Data(sym, more(at, (offset % 65_536) as u16)),
        Place::Bank(_) if offset == 0 => place,
        Place::Bank(_) => Place::Far(0),
        Place::Far(at) => Place::Far(farther(at, offset)),
    }
}

/// Whether a part of what lies at a place is told from the same address, or is known as the place is.
pub fn has_base(place: Place, offset: u32) -> bool
    ensures { result ≡ has_base place offset }
{
    match place {
        Place::Far(at) => within(at, offset),
        Place::Near(at) => offset <= 252 && at as u32 + offset <= 252,
        Place::Data(_, _) => true,
        Place::Bank(_) => offset == 0,
    }
}

// The bytes of a constant that is added to a pointer.
fn added_bytes(op: BinaryOp, operands: Operands, constant: Option<i64>) -> Option<u32>
    ensures { result ≡ added_bytes op operands constant }
{
    match (op, operands, constant) {
        (BinaryOp::Add, Operands::PointerFirst(size), Some(number)) => {
            Some((residue_of(number) as u64 * size as u64 % 0x1_0000_0000) as u32)
        }
        (_, _, _) => None,
    }
}

// The same of what a pointer names, and so many bytes behind it.
fn sum_has_base(place: Place, added: Option<u32>) -> bool
    ensures { result ≡ sum_has_base place added }
{
    match added {
        Some(bytes) => has_base(place, bytes),
        None => false,
    }
}

fn sum_place(place: Place, added: Option<u32>) -> Place
    ensures { result ≡ sum_place place added }
{
    match added {
        Some(bytes) => moved(place, bytes),
        None => Place::Far(0),
    }
}

/// Whether what the sum of a pointer and a number names is told from the same address, or is known.
pub fn is_told(
    frame: &Frame<'_>,
    pushed: u16,
    op: BinaryOp,
    pointer: &TExpr,
    number: &TExpr,
) -> bool
    ensures { result ≡ sum_has_base (target_of frame.now pushed (typed_of pointer.now)) (added_bytes op (operands_of frame.now (bare (typed_of pointer.now)) (bare (typed_of number.now))) (constant_in (typed_of number.now))) }
{
    let operands = operands_of(frame, &pointer.ty.ty, &number.ty.ty);
    let added = added_bytes(op, operands, constant_in(number));
    sum_has_base(target_of(frame, pushed, pointer), added)
}

/// Where a place lies; so many bytes wait. One whose address takes lines of code lies so far behind what
/// its base's lines give.
#[cycle(places)]
pub fn place_of(frame: &Frame<'_>, pushed: u16, e: &TExpr) -> Place
    ensures { result ≡ place_of frame.now pushed (typed_of e.now) }
{
    match &e.kind {
        TKind::Literal(literal) => Place::Data(frame.numbers().literal(*literal), 0),
        TKind::Object(object) => object_place(frame, pushed, *object),
        TKind::Member(base, member) => {
            let offset = offset_at(&frame.parts().types, &base.ty.ty, *member);
            moved(place_of(frame, pushed, base), offset)
        }
        TKind::Deref(pointer) => target_of(frame, pushed, pointer),
        _ => Place::Far(0),
    }
}

// The place that an address names: it is that of an object, or a constant behind it.
#[cycle(places)]
fn target_of(frame: &Frame<'_>, pushed: u16, e: &TExpr) -> Place
    ensures { result ≡ target_of frame.now pushed (typed_of e.now) }
{
    match &e.kind {
        TKind::Binary(op, pointer, number) => {
            let operands = operands_of(frame, &pointer.ty.ty, &number.ty.ty);
            let added = added_bytes(*op, operands, constant_in(number));
            sum_place(target_of(frame, pushed, pointer), added)
        }
        TKind::Address(place) | TKind::Decay(place) => place_of(frame, pushed, place),
        _ => Place::Far(0),
    }
}

/// Whether a place is told without a sum, so that no label stands for it.
pub fn is_plain(e: &TExpr) -> bool
    ensures { result ≡ is_plain (typed_of e.now) }
{
    match &e.kind {
        TKind::Literal(_) | TKind::Object(_) => true,
        TKind::Deref(a) | TKind::Member(a, _) | TKind::Address(a) | TKind::Decay(a) => is_plain(a),
        _ => false,
    }
}

/// AX is the address of an object; one in regbank has none.
pub fn put_object(
    frame: &Frame<'_>,
    pushed: u16,
    object: u32,
    draft: &mut Draft,
) -> Result<(), AllocError>
    ensures lines { OnOk result (draft.new ≡ with_lines draft.old (object_code frame.now pushed object)) }
    ensures kept { OnErr result (Keeps draft.old draft.new) }
{
    match frame.home(object) {
        Some(Home::Bank(_)) => put(draft, &[]),
        Some(Home::Soft(above)) => {
            let at = more(above, pushed);
            if frame.is_raised(object) {
                put_raised(pushed, at.wrapping_sub(frame.stacked()), draft)
            } else {
                put_address(at, draft)
            }
        }
        None => put_symbol(frame.numbers().object(object), 0, draft),
    }
}

/// The same where it takes lines of code, to where it is wanted: the object's place is known otherwise.
pub fn put_unless_known(
    frame: &Frame<'_>,
    pushed: u16,
    object: u32,
    destination: Destination,
    draft: &mut Draft,
) -> Result<(), AllocError>
    ensures lines { OnOk result (draft.new ≡ with_lines draft.old (target_code (object_place frame.now pushed object) (object_code frame.now pushed object ++ arrived destination))) }
    ensures kept { OnErr result (Keeps draft.old draft.new) }
{
    match object_place(frame, pushed, object) {
        Place::Far(_) => {
            put_object(frame, pushed, object, draft)?;
            put_arrived(destination, draft)
        }
        Place::Bank(_) | Place::Near(_) | Place::Data(_, _) => put(draft, &[]),
    }
}

/// AX is the address behind the further arguments of the function, the first of which lies highest.
pub fn put_rest(frame: &Frame<'_>, pushed: u16, draft: &mut Draft) -> Result<(), AllocError>
    ensures lines { OnOk result (draft.new ≡ with_lines draft.old (rest_code frame.now pushed)) }
    ensures kept { OnErr result (Keeps draft.old draft.new) }
{
    let above = pushed as u32 + frame.soft() as u32 + frame.saved() as u32;
    let at = (above + 65_536 - frame.stacked() as u32) % 65_536;
    put_raised(pushed, at as u16, draft)
}
