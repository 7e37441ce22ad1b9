// Branches: the opposite of each, and whether a note shows that it is taken.
ghost use Rattle.std.specs.Prelude.{◌≡◌, option_map, slice_get, Some};
ghost use Rattle.c65_know.specs.Rows.{tested_by, takes_at};
ghost use Rattle.c65_pass.specs.FlowRules.{opposite, shows, is_taken, is_passed};

use c65_code::{Line, Operand};
use c65_know::{Flag, Noted};
use c65_mach::{Mode, Op};

/// The branch that is taken exactly where this one is not.
pub fn opposite(op: Op) -> Op
    ensures { result ≡ opposite op }
{
    match op {
        Op::Bcc => Op::Bcs,
        Op::Bcs => Op::Bcc,
        Op::Beq => Op::Bne,
        Op::Bne => Op::Beq,
        Op::Bmi => Op::Bpl,
        Op::Bpl => Op::Bmi,
        Op::Bvc => Op::Bvs,
        Op::Bvs => Op::Bvc,
        _ => op,
    }
}

// The flag that a branch tests, and the value at which it is taken.
fn condition(op: Op) -> Option<(Flag, bool)>
    ensures { result ≡ option_map (λ flag. (flag, takes_at op)) (tested_by op) }
{
    match op {
        Op::Bcc => Some((Flag::C, false)),
        Op::Bcs => Some((Flag::C, true)),
        Op::Beq => Some((Flag::Z, true)),
        Op::Bne => Some((Flag::Z, false)),
        Op::Bmi => Some((Flag::N, true)),
        Op::Bpl => Some((Flag::N, false)),
        Op::Bvc => Some((Flag::V, false)),
        Op::Bvs => Some((Flag::V, true)),
        _ => None,
    }
}

// Whether the note at a place shows that a flag has a value.
fn shows(code: &Noted, at: usize, flag: Flag, value: bool) -> bool
    ensures { result ≡ shows (Some flag) value (slice_get code.now.notes at) }
{
    match code.note(at) {
        Some(note) => note.flag(flag) == Some(value),
        None => false,
    }
}

/// Whether the note at a place shows that the line there is a branch that is taken.
pub fn is_taken(code: &Noted, at: usize, line: &Line) -> bool
    ensures { result ≡ is_taken (slice_get code.now.notes at) line.now }
{
    let Line::Do(op, Mode::Relative, Operand::To(_)) = line else {
        return false;
    };
    match condition(*op) {
        Some((flag, value)) => shows(code, at, flag, value),
        None => false,
    }
}

/// Whether the note at a place shows that the line there is a branch that is not taken.
pub fn is_passed(code: &Noted, at: usize, line: &Line) -> bool
    ensures { result ≡ is_passed (slice_get code.now.notes at) line.now }
{
    let Line::Do(op, Mode::Relative, Operand::To(_)) = line else {
        return false;
    };
    match condition(*op) {
        Some((flag, value)) => shows(code, at, flag, !value),
        None => false,
    }
}
