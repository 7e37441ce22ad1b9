// The first values of automatic objects (C90 6.5.7).
ghost use Rattle.std.specs.Prelude.{◌≡◌, ◌<◌, ◌≤◌, OnOk};
ghost use Rattle.c65_csem.specs.Views.{typed_of};
ghost use Rattle.c65_genwide.specs.Lines.{with_lines};
ghost use Rattle.c65_genstmt.specs.Objects.{object_bytes, spot_of, point_code, stored_code, with_copied, with_set, with_zeros, with_cleared};

use crate::jumps::{kind_of, put_value};
use c65_code::Line::Do;
use c65_code::Operand::Zero;
use c65_code::{Draft, Sym};
use c65_csem::{TExpr, is_tag};
use c65_genentry::{clear_bank, clear_bytes, copy_bytes, point_near, point_symbol, store_far};
use c65_genframe::{Frame, Home, bytes_or};
use c65_genload::{Access, Place, bytes_of, store};
use c65_genwide::put;
use c65_mach::Mode::ZeroPage;
use c65_mach::Op::{Sta, Stx};
use std::alloc::AllocError;

const PTR1: u8 = 8;

const PTR2: u8 = 10;

/// A byte of an object of the function, or of any other one.
#[derive(Clone, Copy)]
pub enum Spot {
    /// This byte of regbank.
    Bank(u8),
    /// So many bytes above sp.
    Soft(u16),
    /// So far behind a symbol.
    Data(Sym, u16),
}

/// Where a byte of an object lies while no value waits.
fn spot_of(frame: &Frame<'_>, object: u32, offset: u32) -> Spot
    ensures { result ≡ spot_of frame.now object offset }
{
    let at = (offset % 65_536) as u16;
    match frame.home(object) {
        Some(Home::Bank(bank)) => Spot::Bank(bank.wrapping_add((offset % 256) as u8)),
        Some(Home::Soft(from)) => Spot::Soft(from.wrapping_add(at)),
        None => Spot::Data(frame.numbers().object(object), at),
    }
}

fn object_bytes(frame: &Frame<'_>, object: u32) -> u32
    ensures { result ≡ object_bytes frame.now object }
{
    let parts = frame.parts();
    match parts.objects.get(object as usize) {
        Some(found) => bytes_or(&parts.types, &found.ty.ty, 0),
        None => 0,
    }
}

/// A pointer in the zero page becomes the address of a byte; none of regbank's is asked for.
fn put_point(pointer: u8, spot: Spot, draft: &mut Draft) -> Result<(), AllocError>
    requires { pointer < 255 }
    ensures { OnOk result (draft.new ≡ with_lines draft.old (point_code pointer spot)) }
{
    match spot {
        Spot::Bank(_) => put(draft, &[]),
        Spot::Soft(at) => point_near(pointer, at, draft),
        Spot::Data(sym, at) => point_symbol(pointer, sym, at, draft),
    }
}

/// The primary register goes to a place.
fn put_stored(spot: Spot, access: Access, bytes: u16, draft: &mut Draft) -> Result<(), AllocError>
    ensures { OnOk result (draft.new ≡ with_lines draft.old (stored_code spot access bytes)) }
{
    match spot {
        Spot::Bank(bank) => store(Place::Bank(bank), access, draft),
        Spot::Soft(at) => {
            if at <= 252 {
                store(Place::Near(at as u8), access, draft)
            } else {
                store_far(at, bytes as u32, draft)
            }
        }
        Spot::Data(sym, at) => store(Place::Data(sym, at), access, draft),
    }
}

/// So many bytes are copied from the address in AX.
fn put_copied(spot: Spot, bytes: u32, draft: &mut Draft) -> Result<(), AllocError>
    ensures { OnOk result (draft.new ≡ with_copied spot bytes draft.old) }
{
    put(
        draft,
        &[
            Do(Sta, ZeroPage, Zero(PTR1)),
            Do(Stx, ZeroPage, Zero(PTR1 + 1)),
        ],
    )?;
    put_point(PTR2, spot, draft)?;
    copy_bytes((bytes % 65_536) as u16, draft)?;
    Ok(())
}

/// The initial value of a part of an automatic object.
pub fn put_set(
    expr: &TExpr,
    object: u32,
    offset: u32,
    frame: &Frame<'_>,
    draft: &mut Draft,
) -> Result<(), AllocError>
    ensures { OnOk result (draft.new ≡ with_set frame.now object offset (typed_of expr.now) draft.old) }
{
    let spot = spot_of(frame, object, offset);
    put_value(expr, frame, draft)?;
    if is_tag(&expr.ty.ty) {
        put_copied(spot, frame.bytes(&expr.ty.ty), draft)?;
        return Ok(());
    }
    let kind = kind_of(&expr.ty.ty);
    put_stored(spot, Access::Whole(kind), bytes_of(kind), draft)?;
    Ok(())
}

/// So many bytes from there on become zero.
fn put_zeros(spot: Spot, bytes: u32, draft: &mut Draft) -> Result<(), AllocError>
    ensures { OnOk result (draft.new ≡ with_zeros spot bytes draft.old) }
{
    match spot {
        Spot::Bank(bank) => clear_bank(bank, bytes, draft),
        Spot::Soft(at) => {
            point_near(PTR1, at, draft)?;
            clear_bytes((bytes % 65_536) as u16, draft)?;
            Ok(())
        }
        Spot::Data(sym, at) => {
            point_symbol(PTR1, sym, at, draft)?;
            clear_bytes((bytes % 65_536) as u16, draft)?;
            Ok(())
        }
    }
}

/// All bytes of an automatic object become zero.
pub fn put_clear(object: u32, frame: &Frame<'_>, draft: &mut Draft) -> Result<(), AllocError>
    ensures { OnOk result (draft.new ≡ with_cleared frame.now object draft.old) }
{
    put_zeros(
        spot_of(frame, object, 0),
        object_bytes(frame, object),
        draft,
    )
}
