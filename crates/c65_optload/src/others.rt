// The lines that stand for loads.
ghost use Rattle.std.specs.Prelude.{◌≡◌, ◌∷◌, [], slice_get};
ghost use Rattle.c65_code.specs.Parts.{set_of};
ghost use Rattle.c65_pass.specs.Registers.{part_of, alone};
ghost use Rattle.c65_pass.specs.LoadRules.{transfer_for, transferred, step_for, stepped, is_common_load, load_for, loaded_on};

use crate::facts::has;
use c65_code::{Line, Operand, Part, RegSet};
use c65_know::Noted;
use c65_live::LiveTable;
use c65_mach::{Mode, Op};
use c65_pass::{Register, Transfer, loaded_by, transfer_by};

// An operation on registers alone.
fn alone(op: Op) -> Line
    ensures { result ≡ alone op }
{
    Line::Do(op, Mode::Implied, Operand::Nothing)
}

// The transfer in place of a load of a byte that another register has, X before Y.
fn transfer_for(code: &Noted, at: usize, register: Option<Register>, value: u8) -> Option<Line>
    ensures { result ≡ transfer_for (slice_get code.now.notes at) register value }
{
    match register? {
        Register::A if has(code, at, Some(Register::X), value) => Some(alone(Op::Txa)),
        Register::A if has(code, at, Some(Register::Y), value) => Some(alone(Op::Tya)),
        Register::X if has(code, at, Some(Register::A), value) => Some(alone(Op::Tax)),
        Register::Y if has(code, at, Some(Register::A), value) => Some(alone(Op::Tay)),
        _ => None,
    }
}

/// The transfer in place of a load.
pub fn transferred(code: &Noted, at: usize, line: &Line) -> Option<Line>
    ensures { result ≡ transferred (slice_get code.now.notes at) line.now }
{
    match line {
        Line::Do(op, Mode::Immediate, Operand::Byte(value)) => {
            transfer_for(code, at, loaded_by(*op), *value)
        }
        _ => None,
    }
}

// The step in place of a load of a byte one above or below what the register has.
fn step_for(code: &Noted, at: usize, register: Option<Register>, value: u8) -> Option<Line>
    ensures { result ≡ step_for (slice_get code.now.notes at) register value }
{
    let (register, up, down) = match register? {
        Register::X => (Register::X, Op::Inx, Op::Dex),
        Register::Y => (Register::Y, Op::Iny, Op::Dey),
        Register::A => return None,
    };
    if has(code, at, Some(register), value.wrapping_add(255)) {
        Some(alone(up))
    } else if has(code, at, Some(register), value.wrapping_add(1)) {
        Some(alone(down))
    } else {
        None
    }
}

/// The step in place of a load.
pub fn stepped(code: &Noted, at: usize, line: &Line) -> Option<Line>
    ensures { result ≡ stepped (slice_get code.now.notes at) line.now }
{
    match line {
        Line::Do(op, Mode::Immediate, Operand::Byte(value)) => {
            step_for(code, at, loaded_by(*op), *value)
        }
        _ => None,
    }
}

// Modes in which each register can be loaded.
fn is_common_load(mode: Mode) -> bool
    ensures { result ≡ is_common_load mode }
{
    matches!(mode, Mode::Immediate | Mode::ZeroPage | Mode::Absolute)
}

// The parts that a register is.
fn only(register: Register) -> RegSet
    ensures { result ≡ set_of (part_of register ∷ []) }
{
    match register {
        Register::A => RegSet::of(&[Part::A]),
        Register::X => RegSet::of(&[Part::X]),
        Register::Y => RegSet::of(&[Part::Y]),
    }
}

// The load into the register to which a load is moved on, where the first one is not read after line `at`.
fn load_for(
    live: &LiveTable,
    at: usize,
    mode: Mode,
    operand: Operand,
    register: Option<Register>,
    transfer: Option<Transfer>,
) -> Option<Line>
    ensures { result ≡ load_for live.now at mode operand register transfer }
{
    let (Some(register), Some(transfer)) = (register, transfer) else {
        return None;
    };
    if is_common_load(mode) && register.is(transfer.from) && live.is_dead(at, only(register)) {
        Some(Line::Do(transfer.to.load(), mode, operand))
    } else {
        None
    }
}

/// The load in place of one and a transfer of what was loaded.
pub fn loaded_on(live: &LiveTable, at: usize, line: &Line, next: &Line) -> Option<Line>
    ensures { result ≡ loaded_on live.now at line.now next.now }
{
    match (line, next) {
        (Line::Do(op, mode, operand), Line::Do(other, _, _)) => {
            load_for(
                live,
                at,
                *mode,
                *operand,
                loaded_by(*op),
                transfer_by(*other),
            )
        }
        _ => None,
    }
}
