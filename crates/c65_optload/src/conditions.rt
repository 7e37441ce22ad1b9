// Whether a line, or two, are such as a rule takes.
ghost use Rattle.std.specs.Prelude.{◌≡◌, slice_get};
ghost use Rattle.c65_pass.specs.LoadRules.{is_one_place, are_one, is_idle_load, is_dead_load, is_scratch, is_dead_store, is_reload, is_restore, is_overwritten, target, is_dead_transfer, carried, is_idle_transfer, are_back, is_back, is_idle_byte_load, is_idle_store};

use crate::facts::{
    agreed, are_flags_dead, has, is_free, is_register_dead, is_value_free, known_of, shared,
};
use c65_code::{Line, Operand, Part, RegSet};
use c65_know::Noted;
use c65_live::LiveTable;
use c65_mach::Mode;
use c65_pass::{Register, Transfer, loaded_by, stored_by, transfer_by};

// Whether two operands without an index are one byte.
fn is_one_place(mode: Mode, operand: Operand, there: Mode, other: Operand) -> bool
    ensures { result ≡ is_one_place mode operand there other }
{
    match (mode, operand, there, other) {
        (Mode::ZeroPage, Operand::Zero(one), Mode::ZeroPage, Operand::Zero(two)) => one == two,
        (Mode::Absolute, Operand::At(one, far), Mode::Absolute, Operand::At(two, off)) => {
            one.0 == two.0 && far == off
        }
        _ => false,
    }
}

fn are_one(one: Option<Register>, other: Option<Register>) -> bool
    ensures { result ≡ are_one one other }
{
    match (one, other) {
        (Some(one), Some(other)) => one.is(other),
        _ => false,
    }
}

/// A load of the byte that the register has.
pub fn is_idle_load(code: &Noted, live: &LiveTable, at: usize, line: &Line) -> bool
    ensures { result ≡ is_idle_load (slice_get code.now.notes at) live.now at line.now }
{
    match line {
        Line::Do(op, Mode::Immediate, Operand::Byte(value)) => {
            has(code, at, loaded_by(*op), *value) && is_free(code, live, at, *value)
        }
        _ => false,
    }
}

/// A load of a register that is not read.
pub fn is_dead_load(live: &LiveTable, at: usize, line: &Line) -> bool
    ensures { result ≡ is_dead_load live.now at line.now }
{
    match line {
        Line::Do(op, _, _) => is_register_dead(live, at, loaded_by(*op)),
        Line::Label(_) | Line::Call(_) => false,
    }
}

// The bytes of sreg to tmp4.
fn is_scratch(byte: u8) -> bool
    ensures { result ≡ is_scratch byte }
{
    2 <= byte && byte <= 19
}

/// A store to a scratch byte that is not read.
pub fn is_dead_store(live: &LiveTable, at: usize, line: &Line) -> bool
    ensures { result ≡ is_dead_store live.now at line.now }
{
    match line {
        Line::Do(op, Mode::ZeroPage, Operand::Zero(byte)) => {
            stored_by(*op).is_some()
                && is_scratch(*byte)
                && live.is_dead(at, RegSet::of(&[Part::Zp(*byte)]))
        }
        _ => false,
    }
}

/// A load of what the same register just stored, where N and Z are not read after line `at`.
pub fn is_reload(live: &LiveTable, at: usize, line: &Line, next: &Line) -> bool
    ensures { result ≡ is_reload live.now at line.now next.now }
{
    match (line, next) {
        (Line::Do(op, mode, operand), Line::Do(load, there, other)) => {
            are_one(stored_by(*op), loaded_by(*load))
                && is_one_place(*mode, *operand, *there, *other)
                && are_flags_dead(live, at)
        }
        _ => false,
    }
}

/// A store of what the same register just loaded.
pub fn is_restore(line: &Line, next: &Line) -> bool
    ensures { result ≡ is_restore line.now next.now }
{
    match (line, next) {
        (Line::Do(op, mode, operand), Line::Do(store, there, other)) => {
            are_one(loaded_by(*op), stored_by(*store))
                && is_one_place(*mode, *operand, *there, *other)
        }
        _ => false,
    }
}

/// A store over what was just stored.
pub fn is_overwritten(line: &Line, next: &Line) -> bool
    ensures { result ≡ is_overwritten line.now next.now }
{
    match (line, next) {
        (Line::Do(op, mode, operand), Line::Do(store, there, other)) => {
            stored_by(*op).is_some()
                && stored_by(*store).is_some()
                && is_one_place(*mode, *operand, *there, *other)
        }
        _ => false,
    }
}

fn target(transfer: Option<Transfer>) -> Option<Register>
    ensures { result ≡ target transfer }
{
    match transfer {
        Some(transfer) => Some(transfer.to),
        None => None,
    }
}

/// A transfer to a register that is not read.
pub fn is_dead_transfer(live: &LiveTable, at: usize, line: &Line) -> bool
    ensures { result ≡ is_dead_transfer live.now at line.now }
{
    match line {
        Line::Do(op, _, _) => is_register_dead(live, at, target(transfer_by(*op))),
        Line::Label(_) | Line::Call(_) => false,
    }
}

// The value that both registers of a transfer have before a line.
fn carried(code: &Noted, at: usize, transfer: Option<Transfer>) -> Option<u8>
    ensures { result ≡ carried (slice_get code.now.notes at) transfer }
{
    match transfer {
        Some(transfer) => agreed(
            known_of(code, at, transfer.from),
            known_of(code, at, transfer.to),
        ),
        None => None,
    }
}

/// A transfer between registers that are equal.
pub fn is_idle_transfer(code: &Noted, live: &LiveTable, at: usize, line: &Line) -> bool
    ensures { result ≡ is_idle_transfer (slice_get code.now.notes at) live.now at line.now }
{
    match line {
        Line::Do(op, _, _) => is_value_free(code, live, at, carried(code, at, transfer_by(*op))),
        Line::Label(_) | Line::Call(_) => false,
    }
}

fn are_back(there: Option<Transfer>, back: Option<Transfer>) -> bool
    ensures { result ≡ are_back there back }
{
    match (there, back) {
        (Some(there), Some(back)) => there.from.is(back.to) && there.to.is(back.from),
        _ => false,
    }
}

/// A transfer back again.
pub fn is_back(line: &Line, next: &Line) -> bool
    ensures { result ≡ is_back line.now next.now }
{
    match (line, next) {
        (Line::Do(op, _, _), Line::Do(other, _, _)) => {
            are_back(transfer_by(*op), transfer_by(*other))
        }
        _ => false,
    }
}

/// A load of a byte that is equal to the register.
pub fn is_idle_byte_load(code: &Noted, live: &LiveTable, at: usize, line: &Line) -> bool
    ensures { result ≡ is_idle_byte_load (slice_get code.now.notes at) live.now at line.now }
{
    match line {
        Line::Do(op, Mode::ZeroPage, Operand::Zero(byte)) => {
            is_value_free(code, live, at, shared(code, at, loaded_by(*op), *byte))
        }
        _ => false,
    }
}

/// A store to a byte that is equal to the register.
pub fn is_idle_store(code: &Noted, at: usize, line: &Line) -> bool
    ensures { result ≡ is_idle_store (slice_get code.now.notes at) line.now }
{
    match line {
        Line::Do(op, Mode::ZeroPage, Operand::Zero(byte)) => {
            shared(code, at, stored_by(*op), *byte).is_some()
        }
        _ => false,
    }
}
