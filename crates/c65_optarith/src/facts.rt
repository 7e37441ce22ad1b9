// What is known at a line, and what is dead after one.
ghost use Rattle.std.specs.Prelude.{◌≡◌, ◌∷◌, [], slice_get, Some};
ghost use Rattle.c65_code.specs.declared.parts.Part.TheVariants as parts;
ghost use Rattle.c65_code.specs.Parts.{set_of};
ghost use Rattle.c65_live.specs.Tables.{is_dead};
ghost use Rattle.c65_pass.specs.FlowRules.{shows};
ghost use Rattle.c65_pass.specs.LoadRules.{are_one, are_flags_dead};
ghost use Rattle.c65_pass.specs.ArithRules.{has_carry, is_byte};

use c65_code::{Part, RegSet};
use c65_know::{Flag, Noted};
use c65_live::LiveTable;
use c65_pass::Register;

// Whether the note at a place shows that a flag has a value.
fn shows(code: &Noted, at: usize, flag: Flag, value: bool) -> bool
    ensures { result ≡ shows (Some flag) value (slice_get code.now.notes at) }
{
    match code.note(at) {
        Some(note) => note.flag(flag) == Some(value),
        None => false,
    }
}

/// Whether C has a value before a line.
pub fn has_carry(code: &Noted, at: usize, carry: Option<bool>) -> bool
    ensures { result ≡ has_carry (slice_get code.now.notes at) carry }
{
    match carry {
        Some(carry) => shows(code, at, Flag::C, carry),
        None => false,
    }
}

/// Whether a byte is the one that is asked for.
pub fn is_byte(value: u8, other: Option<u8>) -> bool
    ensures { result ≡ is_byte value other }
{
    match other {
        Some(other) => value == other,
        None => false,
    }
}

/// Whether both are one register.
pub fn are_one(one: Option<Register>, other: Option<Register>) -> bool
    ensures { result ≡ are_one one other }
{
    match (one, other) {
        (Some(one), Some(other)) => one.is(other),
        _ => false,
    }
}

/// Whether C is dead after a line.
pub fn is_carry_dead(live: &LiveTable, at: usize) -> bool
    ensures { result ≡ is_dead live.now at (set_of (parts.C ∷ [])) }
{
    live.is_dead(at, RegSet::of(&[Part::C]))
}

/// Whether N and Z are dead after a line.
pub fn are_flags_dead(live: &LiveTable, at: usize) -> bool
    ensures { result ≡ are_flags_dead live.now at }
{
    live.is_dead(at, RegSet::of(&[Part::N, Part::Z]))
}
