// Tests of what is loaded.
ghost use Rattle.std.specs.Prelude.{◌≡◌, OnOk, OnErr};
ghost use Rattle.c65_genwide.specs.Lines.{with_lines, Keeps};
ghost use Rattle.c65_genfield.specs.Bits.{byte_field};
ghost use Rattle.c65_genexpr.specs.Fields.{byte_test, number_test, loaded_test};

use crate::destination::put_fetch;
use crate::wanted::{put_branch, put_value_test};
use c65_code::Draft;
use c65_gendirect::put_behind_pointer;
use c65_genfield::{byte_field, put_own_bits};
use c65_genload::{Access, Extent, Place, extent_of, load};
use c65_genwide::width_of;
use c65_ints::IntType;
use std::alloc::AllocError;

// A byte behind ptr1 is tested in A, and any other number by its value.
fn put_byte_test(
    place: Place,
    kind: IntType,
    extent: Extent,
    sense: bool,
    to: u32,
    draft: &mut Draft,
) -> Result<(), AllocError>
    ensures lines { OnOk result (draft.new ≡ with_lines draft.old (byte_test place kind extent sense to)) }
    ensures kept { OnErr result (Keeps draft.old draft.new) }
{
    match (place, extent) {
        (Place::Far(at), Extent::One) => {
            put_behind_pointer(at, Extent::One, draft)?;
            put_branch(sense, to, draft)
        }
        (_, _) => {
            put_fetch(place, Access::Whole(kind), draft)?;
            put_value_test(width_of(kind), sense, to, draft)
        }
    }
}

fn put_number_test(
    place: Place,
    access: Access,
    sense: bool,
    to: u32,
    draft: &mut Draft,
) -> Result<(), AllocError>
    ensures lines { OnOk result (draft.new ≡ with_lines draft.old (number_test place access sense to)) }
    ensures kept { OnErr result (Keeps draft.old draft.new) }
{
    match access {
        Access::Whole(kind) => put_byte_test(place, kind, extent_of(kind), sense, to, draft),
        Access::Part(field) => {
            load(place, access, draft)?;
            put_value_test(width_of(field.kind), sense, to, draft)
        }
    }
}

/// A bit-field of one byte is tested by its bits of that byte, and any other number by its value. Before, the address
/// from which a place that is anywhere tells how far is where a load has it.
pub fn put_loaded_test(
    place: Place,
    access: Access,
    sense: bool,
    to: u32,
    draft: &mut Draft,
) -> Result<(), AllocError>
    ensures lines { OnOk result (draft.new ≡ with_lines draft.old (loaded_test (byte_field access) place access sense to)) }
    ensures kept { OnErr result (Keeps draft.old draft.new) }
{
    match byte_field(access) {
        Some(field) => {
            put_own_bits(place, field, draft)?;
            put_branch(sense, to, draft)
        }
        None => put_number_test(place, access, sense, to, draft),
    }
}
