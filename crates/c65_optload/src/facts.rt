// What is known at a line, and what is dead after one.
ghost use Rattle.std.specs.Prelude.{◌≡◌, slice_get, Some};
ghost use Rattle.c65_code.specs.Parts.{IsPart};
ghost use Rattle.c65_know.specs.Notes.{tracked_at, agreed};
ghost use Rattle.c65_pass.specs.FlowRules.{shows};
ghost use Rattle.c65_pass.specs.LoadRules.{known_of, byte_of, has, is_flag_free, is_free, are_flags_dead, is_register_dead, is_value_free, shared};

use c65_code::{Part, RegSet};
use c65_know::{Flag, Noted, Tracked};
use c65_live::LiveTable;
use c65_pass::Register;

/// What is known of a register before a line.
pub fn known_of(code: &Noted, at: usize, register: Register) -> Option<u8>
    ensures { result ≡ known_of (slice_get code.now.notes at) register }
{
    match code.note(at) {
        Some(note) => register.value(note),
        None => None,
    }
}

fn tracked_at(byte: u8) -> Option<Tracked>
    ensures { result ≡ tracked_at byte }
{
    match byte {
        2 => Some(Tracked::S0),
        3 => Some(Tracked::S1),
        8 => Some(Tracked::P0),
        9 => Some(Tracked::P1),
        16 => Some(Tracked::T1),
        _ => None,
    }
}

// What is known of a byte of the zero page before a line.
fn byte_of(code: &Noted, at: usize, byte: u8) -> Option<u8>
    ensures { result ≡ byte_of (slice_get code.now.notes at) byte }
{
    let tracked = tracked_at(byte);
    match (code.note(at), tracked) {
        (Some(note), Some(tracked)) => note.byte(tracked),
        _ => None,
    }
}

/// The value that both have.
pub fn agreed(one: Option<u8>, other: Option<u8>) -> Option<u8>
    ensures { result ≡ agreed one other }
{
    match (one, other) {
        (Some(value), Some(same)) if value == same => Some(value),
        _ => None,
    }
}

/// Whether a register has a value before a line.
pub fn has(code: &Noted, at: usize, register: Option<Register>, value: u8) -> bool
    ensures { result ≡ has (slice_get code.now.notes at) register value }
{
    let Some(register) = register else {
        return false;
    };
    match known_of(code, at, register) {
        Some(known) => known == value,
        None => false,
    }
}

/// The value that a register and a tracked byte of the zero page both have before a line.
pub fn shared(code: &Noted, at: usize, register: Option<Register>, byte: u8) -> Option<u8>
    ensures { result ≡ shared (slice_get code.now.notes at) register byte }
{
    match register {
        Some(register) => agreed(known_of(code, at, register), byte_of(code, at, byte)),
        None => None,
    }
}

// Whether the note at a place shows that a flag has a value.
fn shows(code: &Noted, at: usize, flag: Flag, value: bool) -> bool
    ensures { result ≡ shows (Some flag) value (slice_get code.now.notes at) }
{
    match code.note(at) {
        Some(note) => note.flag(flag) == Some(value),
        None => false,
    }
}

// Whether a flag is dead after a line, or has this value before it.
fn is_flag_free(
    code: &Noted,
    live: &LiveTable,
    at: usize,
    part: Part,
    flag: Flag,
    value: bool,
) -> bool
    requires { IsPart part }
    ensures { result ≡ is_flag_free (slice_get code.now.notes at) live.now at part flag value }
{
    live.is_dead(at, RegSet::of(&[part])) || shows(code, at, flag, value)
}

/// Whether N and Z are each dead after a line, or are before it as a value sets them.
pub fn is_free(code: &Noted, live: &LiveTable, at: usize, value: u8) -> bool
    ensures { result ≡ is_free (slice_get code.now.notes at) live.now at value }
{
    is_flag_free(code, live, at, Part::N, Flag::N, 128 <= value)
        && is_flag_free(code, live, at, Part::Z, Flag::Z, value == 0)
}

/// The same of a value that may not be known.
pub fn is_value_free(code: &Noted, live: &LiveTable, at: usize, value: Option<u8>) -> bool
    ensures { result ≡ is_value_free (slice_get code.now.notes at) live.now at value }
{
    match value {
        Some(value) => is_free(code, live, at, value),
        None => false,
    }
}

/// Whether N and Z are dead after a line.
pub fn are_flags_dead(live: &LiveTable, at: usize) -> bool
    ensures { result ≡ are_flags_dead live.now at }
{
    live.is_dead(at, RegSet::of(&[Part::N, Part::Z]))
}

/// Whether a register, N and Z are dead after a line.
pub fn is_register_dead(live: &LiveTable, at: usize, register: Option<Register>) -> bool
    ensures { result ≡ is_register_dead live.now at register }
{
    match register {
        Some(Register::A) => live.is_dead(at, RegSet::of(&[Part::A, Part::N, Part::Z])),
        Some(Register::X) => live.is_dead(at, RegSet::of(&[Part::X, Part::N, Part::Z])),
        Some(Register::Y) => live.is_dead(at, RegSet::of(&[Part::Y, Part::N, Part::Z])),
        None => false,
    }
}
