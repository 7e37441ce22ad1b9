// Bytes that are changed where they lie.
ghost use Rattle.std.specs.Prelude.{◌≡◌, OnOk, OnErr};
ghost use Rattle.c65_genwide.specs.Lines.{with_lines, Keeps};
ghost use Rattle.c65_genchange.specs.Spots.{spot_at, point_code, target_of, reach_code, again_code, is_next, beside_code, is_counted, all_counted};

use c65_code::Line::Do;
use c65_code::Operand::{At, Byte, Nothing, Zero};
use c65_code::{Draft, Sym};
use c65_genload::zero_page::{PTR1, REGBANK, SP};
use c65_genload::{Access, Extent, Place, extent_of};
use c65_genwide::put;
use c65_mach::Mode::{Absolute, Immediate, Implied, IndirectY, ZeroPage};
use c65_mach::Op;
use c65_mach::Op::{Iny, Ldy, Sta, Stx};
use std::alloc::AllocError;

/// A byte that is changed where it lies.
#[derive(Clone, Copy, Debug, PartialEq, Eq)]
pub enum Spot {
    /// Behind the pointer at this byte of the zero page, by so many bytes; it is reached by Y.
    Behind(u8, u8),
    /// So far behind a symbol.
    Data(Sym, u16),
    /// Of the zero page.
    Zero(u8),
}

/// A number of one or two bytes, from the lowest on.
#[derive(Clone, Copy, Debug, PartialEq, Eq)]
pub enum Target {
    Byte(Spot),
    Word(Spot, Spot),
}

/// So far behind the first byte of a place; of one that is anywhere the address is in ptr1.
pub fn spot_at(place: Place, index: u8) -> Spot
    ensures { result ≡ spot_at place index }
{
    match place {
        Place::Bank(at) => Spot::Zero(REGBANK.wrapping_add(at).wrapping_add(index)),
        Place::Near(at) => Spot::Behind(SP, at.wrapping_add(index)),
        Place::Data(sym, at) => Spot::Data(sym, at.wrapping_add(index as u16)),
        Place::Far(at) => Spot::Behind(PTR1, at.wrapping_add(index)),
    }
}

/// The bytes of a number that is kept at a place, where it has one or two.
pub fn target_of(place: Place, access: Access) -> Option<Target>
    ensures { result ≡ target_of place access }
{
    match access {
        Access::Whole(kind) => match extent_of(kind) {
            Extent::One => Some(Target::Byte(spot_at(place, 0))),
            Extent::Two => Some(Target::Word(spot_at(place, 0), spot_at(place, 1))),
            Extent::Three | Extent::Four => None,
        },
        Access::Part(_) => None,
    }
}

fn is_counted(spot: Spot) -> bool
    ensures { result ≡ is_counted spot }
{
    match spot {
        Spot::Behind(_, _) => false,
        Spot::Data(_, _) | Spot::Zero(_) => true,
    }
}

/// Whether an instruction counts each byte up or down by itself.
pub fn all_counted(target: Target) -> bool
    ensures { result ≡ all_counted target }
{
    match target {
        Target::Byte(low) => is_counted(low),
        Target::Word(low, high) => is_counted(low) && is_counted(high),
    }
}

/// The address of a place that is anywhere goes from AX to ptr1.
pub fn put_point(place: Place, draft: &mut Draft) -> Result<(), AllocError>
    ensures lines { OnOk result (draft.new ≡ with_lines draft.old (point_code place)) }
    ensures kept { OnErr result (Keeps draft.old draft.new) }
{
    match place {
        Place::Far(_) => put(
            draft,
            &[
                Do(Sta, ZeroPage, Zero(PTR1)),
                Do(Stx, ZeroPage, Zero(PTR1 + 1)),
            ],
        ),
        Place::Bank(_) | Place::Near(_) | Place::Data(_, _) => put(draft, &[]),
    }
}

// Whether a byte is the next one behind another, both reached by Y.
fn is_next(first: Spot, second: Spot) -> bool
    ensures { result ≡ is_next first second }
{
    match (first, second) {
        (Spot::Behind(pointer, at), Spot::Behind(other, next)) => {
            pointer == other && next == at.wrapping_add(1)
        }
        (_, _) => false,
    }
}

/// Puts an instruction that works on a byte, where Y still reaches the byte before it if that is reached by Y.
pub fn put_beside(op: Op, first: Spot, second: Spot, draft: &mut Draft) -> Result<(), AllocError>
    ensures lines { OnOk result (draft.new ≡ with_lines draft.old (beside_code op first second)) }
    ensures kept { OnErr result (Keeps draft.old draft.new) }
{
    if is_next(first, second) {
        put(draft, &[Do(Iny, Implied, Nothing)])?;
        put_again(op, second, draft)
    } else {
        put_reach(op, second, draft)
    }
}

/// Puts an instruction that works on a byte.
pub fn put_reach(op: Op, spot: Spot, draft: &mut Draft) -> Result<(), AllocError>
    ensures lines { OnOk result (draft.new ≡ with_lines draft.old (reach_code op spot)) }
    ensures kept { OnErr result (Keeps draft.old draft.new) }
{
    match spot {
        Spot::Behind(pointer, at) => put(
            draft,
            &[
                Do(Ldy, Immediate, Byte(at)),
                Do(op, IndirectY, Zero(pointer)),
            ],
        ),
        Spot::Data(sym, at) => put(draft, &[Do(op, Absolute, At(sym, at))]),
        Spot::Zero(at) => put(draft, &[Do(op, ZeroPage, Zero(at))]),
    }
}

/// One more on the byte that was reached last.
pub fn put_again(op: Op, spot: Spot, draft: &mut Draft) -> Result<(), AllocError>
    ensures lines { OnOk result (draft.new ≡ with_lines draft.old (again_code op spot)) }
    ensures kept { OnErr result (Keeps draft.old draft.new) }
{
    match spot {
        Spot::Behind(pointer, _) => put(draft, &[Do(op, IndirectY, Zero(pointer))]),
        Spot::Data(sym, at) => put(draft, &[Do(op, Absolute, At(sym, at))]),
        Spot::Zero(at) => put(draft, &[Do(op, ZeroPage, Zero(at))]),
    }
}
