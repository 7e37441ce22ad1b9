// The byte that has all bits of a bit-field (C90 6.5.2.1).
ghost use Rattle.std.specs.Prelude.{◌≡◌, OnOk, OnErr};
ghost use Rattle.c65_genwide.specs.Lines.{with_lines, Keeps};
ghost use Rattle.c65_genfield.specs.Bits.{byte_field, own_bits_code};

use c65_code::Draft;
use c65_code::Line::Do;
use c65_code::Operand::Byte;
use c65_genload::{Access, Extent, Field, Place, is_in_byte, load_bytes, onward, own_bits};
use c65_genwide::put;
use c65_mach::Mode::Immediate;
use c65_mach::Op::And;
use std::alloc::AllocError;

/// The bit-field that is kept, where one byte has all its bits.
pub fn byte_field(access: Access) -> Option<Field>
    ensures { result ≡ byte_field access }
{
    match access {
        Access::Part(field) if is_in_byte(field) => Some(field),
        Access::Whole(_) | Access::Part(_) => None,
    }
}

/// The bits of such a field come to A where they lie in their byte, and Z says whether the field is 0. Before, AX
/// is the address from which a place that is anywhere tells how far.
pub fn put_own_bits(place: Place, field: Field, draft: &mut Draft) -> Result<(), AllocError>
    ensures lines { OnOk result (draft.new ≡ with_lines draft.old (own_bits_code place field)) }
    ensures kept { OnErr result (Keeps draft.old draft.new) }
{
    load_bytes(onward(place, field.low / 8), Extent::One, draft)?;
    put(draft, &[Do(And, Immediate, Byte(own_bits(field)))])
}
