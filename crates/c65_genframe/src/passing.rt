// The registers in which values are passed and come back.
ghost use Rattle.std.specs.Prelude.{◌≡◌};
ghost use Rattle.c65_genframe.specs.Registers.{registers};

use c65_code::{Part, RegSet};

/// The registers that hold a value of so many bytes, as a parameter or a result: none for no byte,
/// A for one, A and X for two, and sreg with them for more.
pub fn registers(bytes: u32) -> RegSet
    ensures { result ≡ registers bytes }
{
    match bytes {
        0 => RegSet::empty(),
        1 => RegSet::of(&[Part::A]),
        2 => RegSet::of(&[Part::A, Part::X]),
        _ => RegSet::of(&[Part::A, Part::X]).union(RegSet::zero_bytes(2, 4)),
    }
}
