// Where the address of a place's base comes, and what is loaded behind it (C90 6.2.2.1).
ghost use Rattle.std.specs.Prelude.{◌≡◌, OnOk, OnErr};
ghost use Rattle.c65_genwide.specs.Lines.{with_lines, Keeps};
ghost use Rattle.c65_genload.specs.declared.places.Access.TheVariants.{Whole};
ghost use Rattle.c65_genexpr.specs.Lows.{behind_pointer};
ghost use Rattle.c65_genexpr.specs.Destination.{arrived, destination_by, destination_of, pointed_code, fetch_by, fetch_code};

use c65_code::Draft;
use c65_gendirect::{put_behind_pointer, put_pointer};
use c65_genload::{Access, Extent, Place, extent_of, load};
use c65_genwide::{narrow, put};
use c65_ints::IntType;
use std::alloc::AllocError;

/// Where an address is wanted: in AX, or in ptr1, and then A and X are anything.
#[derive(Clone, Copy, Debug, PartialEq, Eq)]
pub enum Destination {
    Registers,
    Pointer,
}

/// Behind the lines that bring an address to AX.
pub fn put_arrived(destination: Destination, draft: &mut Draft) -> Result<(), AllocError>
    ensures lines { OnOk result (draft.new ≡ with_lines draft.old (arrived destination)) }
    ensures kept { OnErr result (Keeps draft.old draft.new) }
{
    match destination {
        Destination::Registers => put(draft, &[]),
        Destination::Pointer => put_pointer(draft),
    }
}

fn destination_by(extent: Extent) -> Destination
    ensures { result ≡ destination_by extent }
{
    match extent {
        Extent::One | Extent::Two => Destination::Pointer,
        Extent::Three | Extent::Four => Destination::Registers,
    }
}

/// Where a load has the address of its place: one byte or two are read behind ptr1.
pub fn destination_of(access: Access) -> Destination
    ensures { result ≡ destination_of access }
{
    match access {
        Access::Whole(kind) => destination_by(extent_of(kind)),
        Access::Part(_) => Destination::Registers,
    }
}

/// How far behind ptr1 one byte or two lie that are kept anywhere.
pub fn behind_pointer(place: Place, access: Access) -> Option<u8>
    ensures { result ≡ behind_pointer place access }
{
    match (place, destination_of(access)) {
        (Place::Far(at), Destination::Pointer) => Some(at),
        (_, _) => None,
    }
}

// A number behind ptr1, where its place is anywhere.
fn put_pointed(place: Place, kind: IntType, draft: &mut Draft) -> Result<(), AllocError>
    ensures lines { OnOk result (draft.new ≡ with_lines draft.old (pointed_code place kind)) }
    ensures kept { OnErr result (Keeps draft.old draft.new) }
{
    match place {
        Place::Far(at) => {
            put_behind_pointer(at, extent_of(kind), draft)?;
            narrow(kind, draft)
        }
        Place::Bank(_) | Place::Near(_) | Place::Data(_, _) => {
            load(place, Access::Whole(kind), draft)
        }
    }
}

fn put_fetch_by(
    destination: Destination,
    place: Place,
    kind: IntType,
    draft: &mut Draft,
) -> Result<(), AllocError>
    ensures lines { OnOk result (draft.new ≡ with_lines draft.old (fetch_by destination place kind)) }
    ensures kept { OnErr result (Keeps draft.old draft.new) }
{
    match destination {
        Destination::Registers => load(place, Access::Whole(kind), draft),
        Destination::Pointer => put_pointed(place, kind, draft),
    }
}

/// The value that is kept at a place comes into the primary register. Before, the address from which a place that is
/// anywhere tells how far is where a load has it.
pub fn put_fetch(place: Place, access: Access, draft: &mut Draft) -> Result<(), AllocError>
    ensures lines { OnOk result (draft.new ≡ with_lines draft.old (fetch_code place access)) }
    ensures kept { OnErr result (Keeps draft.old draft.new) }
{
    match access {
        Access::Whole(kind) => put_fetch_by(destination_by(extent_of(kind)), place, kind, draft),
        Access::Part(_) => load(place, access, draft),
    }
}
