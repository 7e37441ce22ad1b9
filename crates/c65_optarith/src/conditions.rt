// Whether a line, or two, are such as a rule takes.
ghost use Rattle.std.specs.Prelude.{◌≡◌, slice_get};
ghost use Rattle.c65_pass.specs.ArithRules.{is_idle_carry, is_dead_carry, is_idle_compare, is_dead_compare, is_idle_mask, is_stepped_back, is_idle_sum, is_dead_arithmetic};

use crate::facts::{are_flags_dead, are_one, has_carry, is_byte, is_carry_dead};
use crate::operations::{
    are_opposite, carry_of, compared_by, is_arithmetic, neutral_byte, neutral_carry, signed_by,
};
use c65_code::{Line, Operand, Part, RegSet};
use c65_know::Noted;
use c65_live::LiveTable;
use c65_mach::Mode;

/// CLC or SEC where C has that value.
pub fn is_idle_carry(code: &Noted, at: usize, line: &Line) -> bool
    ensures { result ≡ is_idle_carry (slice_get code.now.notes at) line.now }
{
    match line {
        Line::Do(op, _, _) => has_carry(code, at, carry_of(*op)),
        Line::Label(_) | Line::Call(_) => false,
    }
}

/// CLC or SEC where C is not read after line `at`.
pub fn is_dead_carry(live: &LiveTable, at: usize, line: &Line) -> bool
    ensures { result ≡ is_dead_carry live.now at line.now }
{
    match line {
        Line::Do(op, _, _) => carry_of(*op).is_some() && is_carry_dead(live, at),
        Line::Label(_) | Line::Call(_) => false,
    }
}

/// A comparison with 0 of the register by which N and Z stand already, where C is not read after line `at`.
pub fn is_idle_compare(live: &LiveTable, at: usize, line: &Line, next: &Line) -> bool
    ensures { result ≡ is_idle_compare live.now at line.now next.now }
{
    match (line, next) {
        (Line::Do(op, mode, _), Line::Do(other, Mode::Immediate, Operand::Byte(value))) => {
            *value == 0
                && are_one(signed_by(*op, *mode), compared_by(*other))
                && is_carry_dead(live, at)
        }
        _ => false,
    }
}

/// A comparison of which nothing is read after line `at`.
pub fn is_dead_compare(live: &LiveTable, at: usize, line: &Line) -> bool
    ensures { result ≡ is_dead_compare live.now at line.now }
{
    match line {
        Line::Do(op, _, _) => {
            compared_by(*op).is_some() && live.is_dead(at, RegSet::of(&[Part::N, Part::Z, Part::C]))
        }
        Line::Label(_) | Line::Call(_) => false,
    }
}

/// A mask that leaves A, where N and Z are not read after line `at`.
pub fn is_idle_mask(live: &LiveTable, at: usize, line: &Line) -> bool
    ensures { result ≡ is_idle_mask live.now at line.now }
{
    match line {
        Line::Do(op, Mode::Immediate, Operand::Byte(value)) => {
            is_byte(*value, neutral_byte(*op)) && are_flags_dead(live, at)
        }
        _ => false,
    }
}

/// A step of X or Y and the step back, where N and Z are not read after line `at`.
pub fn is_stepped_back(live: &LiveTable, at: usize, line: &Line, next: &Line) -> bool
    ensures { result ≡ is_stepped_back live.now at line.now next.now }
{
    match (line, next) {
        (Line::Do(op, _, _), Line::Do(other, _, _)) => {
            are_opposite(*op, *other) && are_flags_dead(live, at)
        }
        _ => false,
    }
}

/// ADC #0 without carry or SBC #0 without borrow, where N, V and Z are not read after the line.
pub fn is_idle_sum(code: &Noted, live: &LiveTable, at: usize, line: &Line) -> bool
    ensures { result ≡ is_idle_sum (slice_get code.now.notes at) live.now at line.now }
{
    match line {
        Line::Do(op, Mode::Immediate, Operand::Byte(value)) => {
            *value == 0
                && has_carry(code, at, neutral_carry(*op))
                && live.is_dead(at, RegSet::of(&[Part::N, Part::V, Part::Z]))
        }
        _ => false,
    }
}

/// Arithmetic of which nothing is read after line `at`, neither the register nor a flag.
pub fn is_dead_arithmetic(live: &LiveTable, at: usize, line: &Line) -> bool
    ensures { result ≡ is_dead_arithmetic live.now at line.now }
{
    match line {
        Line::Do(op, mode, _) => is_arithmetic(*op, *mode) && live.is_dead(at, line.sets()),
        Line::Label(_) | Line::Call(_) => false,
    }
}
