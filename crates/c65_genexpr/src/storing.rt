// The form of an assignment to a scalar (C90 6.3.16.1).
ghost use Rattle.std.specs.Prelude.{◌≡◌};
ghost use Rattle.c65_csem.specs.Views.{typed_of};
ghost use Rattle.c65_genexpr.specs.Direct.{is_pure};
ghost use Rattle.c65_genexpr.specs.Leaving.{StoresFree};
ghost use Rattle.c65_genexpr.specs.Storing.{pointer_of, bytes_stored, through, unless_changed, by_pointer, held_at, held_if, storing_by, storing_of};

use crate::direct::{direct_of, is_fixed, is_pure};
use crate::light::is_light;
use crate::operating::word_in;
use crate::places::{has_base, place_of};
use crate::types::{access_of, offset_at};
use c65_csem::{TExpr, TKind};
use c65_gendirect::{Direct, OperandByte, Stored, byte_of};
use c65_genframe::Frame;
use c65_genload::{Access, Extent, Place, extent_of};

/// How a value is assigned.
#[derive(Clone, Copy)]
pub enum Storing {
    /// So far behind the base of the place, and the value is read.
    Left(u8, Stored),
    /// The value, which goes so far behind a pointer whose bytes are read, as a byte.
    RightByte(u8, OperandByte, OperandByte),
    /// The same as a word.
    RightWord(u8, OperandByte, OperandByte),
    /// The address waits in ptr2 while the value comes, which goes so far behind it, as a byte.
    HeldByte(u8),
    /// The same as a word.
    HeldWord(u8),
    /// The address of a place that is anywhere waits on the software stack.
    Stacked,
}

// The pointer behind which a place lies, where it is read where it lies.
fn pointer_of(frame: &Frame<'_>, pushed: u16, a: &TExpr) -> Option<Direct>
    ensures { result ≡ pointer_of frame.now pushed (typed_of a.now) }
{
    match &a.kind {
        TKind::Deref(e) => direct_of(frame, pushed, e),
        TKind::Member(e, member) => {
            let offset = offset_at(&frame.parts().types, &e.ty.ty, *member);
            if has_base(place_of(frame, pushed, e), offset) {
                pointer_of(frame, pushed, e)
            } else {
                None
            }
        }
        _ => None,
    }
}

fn bytes_stored(extent: Extent, direct: Direct) -> Option<Stored>
    ensures { result ≡ bytes_stored extent direct }
{
    match extent {
        Extent::One => Some(Stored::Single(byte_of(direct, 0)?)),
        Extent::Two => {
            let (low, high) = word_in(direct)?;
            Some(if is_fixed(Some(direct)) {
                Stored::Fixed(low, high)
            } else {
                Stored::Word(low, high)
            })
        }
        Extent::Three | Extent::Four => None,
    }
}

fn through(at: u8, extent: Extent, low: OperandByte, high: OperandByte) -> Storing
    ensures { result ≡ through at extent (low, high) }
{
    match extent {
        Extent::One => Storing::RightByte(at, low, high),
        Extent::Two => Storing::RightWord(at, low, high),
        Extent::Three | Extent::Four => Storing::Stacked,
    }
}

// A pointer is read behind the value only where that leaves it as it is.
fn unless_changed(value: &TExpr, pointer: Option<Direct>) -> Option<Direct>
    ensures { result ≡ unless_changed (is_pure (typed_of value.now)) pointer }
{
    if is_fixed(pointer) || is_pure(value) {
        pointer
    } else {
        None
    }
}

fn by_pointer(at: u8, extent: Extent, pointer: Option<(OperandByte, OperandByte)>) -> Storing
    ensures { result ≡ by_pointer at extent pointer }
{
    match pointer {
        Some((low, high)) => through(at, extent, low, high),
        None => Storing::Stacked,
    }
}

// Of a pointer and a value that can be read.
fn storing_by(
    place: Place,
    access: Access,
    pointer: Option<Direct>,
    value: Option<Direct>,
) -> Storing
    ensures { result ≡ storing_by place access pointer value }
{
    match (place, access) {
        (Place::Far(at), Access::Whole(kind)) => {
            let extent = extent_of(kind);
            match value.and_then(|direct| bytes_stored(extent, direct)) {
                Some(stored) => Storing::Left(at, stored),
                None => by_pointer(at, extent, pointer.and_then(word_in)),
            }
        }
        (_, _) => Storing::Stacked,
    }
}

fn held_at(at: u8, extent: Extent) -> Storing
    ensures { result ≡ held_at at extent }
{
    match extent {
        Extent::One => Storing::HeldByte(at),
        Extent::Two => Storing::HeldWord(at),
        Extent::Three | Extent::Four => Storing::Stacked,
    }
}

// The address waits in ptr2 where the value is light.
fn held_if(light: bool, place: Place, access: Access) -> Storing
    ensures { result ≡ held_if light place access }
{
    match (light, place, access) {
        (true, Place::Far(at), Access::Whole(kind)) => held_at(at, extent_of(kind)),
        (_, _, _) => Storing::Stacked,
    }
}

fn form_of(frame: &Frame<'_>, pushed: u16, a: &TExpr, b: &TExpr) -> Storing
    ensures { result ≡ storing_of frame.now pushed (typed_of a.now) (typed_of b.now) }
{
    let place = place_of(frame, pushed, a);
    let access = access_of(&frame.parts().types, a);
    let pointer = unless_changed(b, pointer_of(frame, pushed, a));
    match storing_by(place, access, pointer, direct_of(frame, pushed, b)) {
        Storing::Stacked => held_if(is_light(frame, pushed, b), place, access),
        how => how,
    }
}

/// How a value is assigned to a place, where so many bytes wait. A side that is left out has no labels.
pub fn storing_of(frame: &Frame<'_>, pushed: u16, a: &TExpr, b: &TExpr) -> Storing
    ensures exact { result ≡ storing_of frame.now pushed (typed_of a.now) (typed_of b.now) }
    ensures free { StoresFree result (typed_of a.now) (typed_of b.now) }
{
    form_of(frame, pushed, a, b)
}
