// How a value is put into an element of a small array, where the value of the assignment is not used (C90 6.3.16.1).
ghost use Rattle.std.specs.Prelude.{◌≡◌, OnOk, OnErr};
ghost use Rattle.c65_csem.specs.Views.{typed_of};
ghost use Rattle.c65_genwide.specs.Lines.{with_lines, Keeps};
ghost use Rattle.c65_gendirect.specs.Bytes.{takes_y};
ghost use Rattle.c65_geneffect.specs.Placing.{index_byte, is_apart, read_by, behind_if, placing_by, placing_of, PlacesFree, stored_code, read_code, index_behind_code, behind_code, waiting_code, held_code, value_waits_code, later_code};

use c65_code::Draft;
use c65_code::Line::Do;
use c65_code::Operand::{At, Nothing, Zero};
use c65_csem::{TExpr, TKind};
use c65_gendirect::{OperandByte, byte_of, put_op};
use c65_genexpr::{
    Element, PTR2, byte_in, direct_of, doublings, element_at, is_light, is_light_index, is_pure,
    put_scaled,
};
use c65_genframe::Frame;
use c65_genload::{Extent, extent_of};
use c65_genwide::put;
use c65_mach::Mode::{AbsoluteY, Implied, ZeroPage};
use c65_mach::Op::{Lda, Ldy, Pha, Pla, Sta, Stx, Tax, Tay, Txa};
use std::alloc::AllocError;

/// How an element takes a value.
#[derive(Clone, Copy, Debug, PartialEq, Eq)]
pub enum Placing {
    /// The value is read behind the index: one byte, or two.
    Read(Element, OperandByte, Option<OperandByte>),
    /// The index is read behind the value.
    Behind(Element, Extent, OperandByte),
    /// The index waits in ptr2 while the value comes.
    Held(Element, Extent),
    /// The value waits in ptr2 while the index comes.
    Later(Element, Extent),
    /// It is no element of a small array, or else as where the value is used.
    Otherwise,
}

/// The low byte of the index of an element, where it is read where it lies.
fn index_byte(frame: &Frame<'_>, pushed: u16, a: &TExpr) -> Option<OperandByte>
    ensures { result ≡ index_byte frame.now pushed (typed_of a.now) }
{
    match &a.kind {
        TKind::Deref(sum) => match &sum.kind {
            TKind::Binary(_, _, index) => byte_in(frame, pushed, index),
            _ => None,
        },
        TKind::Member(base, _) => index_byte(frame, pushed, base),
        _ => None,
    }
}

// Whether a byte is read without Y, and by a store to a symbol stays as it is.
fn is_apart(element: Element, byte: OperandByte) -> bool
    ensures { result ≡ is_apart element.sym byte }
{
    match byte {
        OperandByte::Number(_)
        | OperandByte::Low(_, _)
        | OperandByte::High(_, _)
        | OperandByte::Zero(_) => true,
        OperandByte::Near(_) => false,
        OperandByte::Data(sym, _) => sym != element.sym,
    }
}

// Whether a byte is read by Y.
fn takes_y(byte: OperandByte) -> bool
    ensures { result ≡ takes_y byte }
{
    matches!(byte, OperandByte::Near(_))
}

fn read_by(
    frame: &Frame<'_>,
    pushed: u16,
    element: Element,
    extent: Extent,
    b: &TExpr,
) -> Option<Placing>
    ensures { result ≡ read_by frame.now pushed element extent (typed_of b.now) }
{
    let direct = direct_of(frame, pushed, b)?;
    let low = byte_of(direct, 0)?;
    match extent {
        Extent::One => {
            if takes_y(low) {
                None
            } else {
                Some(Placing::Read(element, low, None))
            }
        }
        Extent::Two => {
            let high = byte_of(direct, 1)?;
            if is_apart(element, low) && is_apart(element, high) {
                Some(Placing::Read(element, low, Some(high)))
            } else {
                None
            }
        }
        Extent::Three | Extent::Four => None,
    }
}

fn behind_if(
    able: bool,
    element: Element,
    extent: Extent,
    index: Option<OperandByte>,
) -> Option<Placing>
    ensures { result ≡ behind_if able element extent index }
{
    match index {
        Some(index) if able => Some(Placing::Behind(element, extent, index)),
        _ => None,
    }
}

fn placing_by(
    frame: &Frame<'_>,
    pushed: u16,
    element: Element,
    extent: Extent,
    a: &TExpr,
    b: &TExpr,
) -> Placing
    ensures { result ≡ placing_by frame.now pushed element extent (typed_of a.now) (typed_of b.now) }
{
    if let Some(placing) = read_by(frame, pushed, element, extent, b) {
        return placing;
    }
    let is_short = doublings(element.size).is_some();
    let index = index_byte(frame, pushed, a);
    if let Some(placing) = behind_if(is_short && is_pure(b), element, extent, index) {
        return placing;
    }
    if is_light(frame, pushed, b) {
        return Placing::Held(element, extent);
    }
    if is_short && is_pure(b) && is_pure(a) && is_light_index(frame, pushed, a) {
        return Placing::Later(element, extent);
    }
    Placing::Otherwise
}

fn form_of(frame: &Frame<'_>, pushed: u16, a: &TExpr, b: &TExpr) -> Placing
    ensures { result ≡ placing_of frame.now pushed (typed_of a.now) (typed_of b.now) }
{
    match element_at(frame, a) {
        Some((element, kind)) => placing_by(frame, pushed, element, extent_of(kind), a, b),
        None => Placing::Otherwise,
    }
}

/// How an assignment puts a value into an element of a small array, where so many bytes wait. A side that takes no lines
/// has no labels.
pub fn placing_of(frame: &Frame<'_>, pushed: u16, a: &TExpr, b: &TExpr) -> Placing
    ensures exact { result ≡ placing_of frame.now pushed (typed_of a.now) (typed_of b.now) }
    ensures free { PlacesFree result (typed_of a.now) (typed_of b.now) }
{
    form_of(frame, pushed, a, b)
}

// ---- lines

// A, or AX, goes to the element by Y.
fn put_stored(element: Element, extent: Extent, draft: &mut Draft) -> Result<(), AllocError>
    ensures lines { OnOk result (draft.new ≡ with_lines draft.old (stored_code element extent)) }
    ensures kept { OnErr result (Keeps draft.old draft.new) }
{
    let Element { sym, at, .. } = element;
    match extent {
        Extent::One => put(draft, &[Do(Sta, AbsoluteY, At(sym, at))]),
        Extent::Two | Extent::Three | Extent::Four => put(
            draft,
            &[
                Do(Sta, AbsoluteY, At(sym, at)),
                Do(Txa, Implied, Nothing),
                Do(Sta, AbsoluteY, At(sym, at.wrapping_add(1))),
            ],
        ),
    }
}

/// Behind the index, the bytes of the value.
pub fn put_read(
    element: Element,
    low: OperandByte,
    high: Option<OperandByte>,
    draft: &mut Draft,
) -> Result<(), AllocError>
    ensures lines { OnOk result (draft.new ≡ with_lines draft.old (read_code element low high)) }
    ensures kept { OnErr result (Keeps draft.old draft.new) }
{
    let Element { sym, at, size } = element;
    put_scaled(size, draft)?;
    put(draft, &[Do(Tay, Implied, Nothing)])?;
    put_op(Lda, low, draft)?;
    put(draft, &[Do(Sta, AbsoluteY, At(sym, at))])?;
    match high {
        Some(high) => {
            put_op(Lda, high, draft)?;
            put(draft, &[Do(Sta, AbsoluteY, At(sym, at.wrapping_add(1)))])
        }
        None => put(draft, &[]),
    }
}

// The index comes to Y while A waits.
fn put_index_behind(
    size: u32,
    extent: Extent,
    index: OperandByte,
    draft: &mut Draft,
) -> Result<(), AllocError>
    ensures lines { OnOk result (draft.new ≡ with_lines draft.old (index_behind_code size extent index)) }
    ensures kept { OnErr result (Keeps draft.old draft.new) }
{
    match extent {
        Extent::One => {
            put(draft, &[Do(Tax, Implied, Nothing)])?;
            put_op(Lda, index, draft)?;
            put_scaled(size, draft)?;
            put(
                draft,
                &[Do(Tay, Implied, Nothing), Do(Txa, Implied, Nothing)],
            )
        }
        Extent::Two | Extent::Three | Extent::Four => {
            put(draft, &[Do(Pha, Implied, Nothing)])?;
            put_op(Lda, index, draft)?;
            put_scaled(size, draft)?;
            put(
                draft,
                &[Do(Tay, Implied, Nothing), Do(Pla, Implied, Nothing)],
            )
        }
    }
}

/// Behind the value, the index and the store.
pub fn put_behind_value(
    element: Element,
    extent: Extent,
    index: OperandByte,
    draft: &mut Draft,
) -> Result<(), AllocError>
    ensures lines { OnOk result (draft.new ≡ with_lines draft.old (behind_code element extent index)) }
    ensures kept { OnErr result (Keeps draft.old draft.new) }
{
    if element.size == 1 && !takes_y(index) {
        put_op(Ldy, index, draft)?;
    } else {
        put_index_behind(element.size, extent, index, draft)?;
    }
    put_stored(element, extent, draft)
}

/// The index begins to wait.
pub fn put_index_waits(element: Element, draft: &mut Draft) -> Result<(), AllocError>
    ensures lines { OnOk result (draft.new ≡ with_lines draft.old (waiting_code element)) }
    ensures kept { OnErr result (Keeps draft.old draft.new) }
{
    put_scaled(element.size, draft)?;
    put(draft, &[Do(Sta, ZeroPage, Zero(PTR2))])
}

/// Behind the value, the index that waited and the store.
pub fn put_held_value(element: Element, extent: Extent, draft: &mut Draft) -> Result<(), AllocError>
    ensures lines { OnOk result (draft.new ≡ with_lines draft.old (held_code element extent)) }
    ensures kept { OnErr result (Keeps draft.old draft.new) }
{
    put(draft, &[Do(Ldy, ZeroPage, Zero(PTR2))])?;
    put_stored(element, extent, draft)
}

/// The value begins to wait: A, or AX.
pub fn put_value_waits(extent: Extent, draft: &mut Draft) -> Result<(), AllocError>
    ensures lines { OnOk result (draft.new ≡ with_lines draft.old (value_waits_code extent)) }
    ensures kept { OnErr result (Keeps draft.old draft.new) }
{
    match extent {
        Extent::One => put(draft, &[Do(Sta, ZeroPage, Zero(PTR2))]),
        Extent::Two | Extent::Three | Extent::Four => put(
            draft,
            &[
                Do(Sta, ZeroPage, Zero(PTR2)),
                Do(Stx, ZeroPage, Zero(PTR2 + 1)),
            ],
        ),
    }
}

/// Behind the index, the value that waited.
pub fn put_later_value(
    element: Element,
    extent: Extent,
    draft: &mut Draft,
) -> Result<(), AllocError>
    ensures lines { OnOk result (draft.new ≡ with_lines draft.old (later_code element extent)) }
    ensures kept { OnErr result (Keeps draft.old draft.new) }
{
    let Element { sym, at, size } = element;
    put_scaled(size, draft)?;
    put(
        draft,
        &[
            Do(Tay, Implied, Nothing),
            Do(Lda, ZeroPage, Zero(PTR2)),
            Do(Sta, AbsoluteY, At(sym, at)),
        ],
    )?;
    match extent {
        Extent::One => put(draft, &[]),
        Extent::Two | Extent::Three | Extent::Four => put(
            draft,
            &[
                Do(Lda, ZeroPage, Zero(PTR2 + 1)),
                Do(Sta, AbsoluteY, At(sym, at.wrapping_add(1))),
            ],
        ),
    }
}
