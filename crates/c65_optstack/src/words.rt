// An operator on AX and a word that is loaded, done byte by byte.
ghost use Rattle.std.specs.Prelude.{◌≡◌, ◌∷◌, ◌+◌, ◌^◌, ◌<◌, true, Some};
ghost use Rattle.c65_pass.specs.Passes.{Answers};
ghost use Rattle.c65_pass.specs.Registers.{alone};
ghost use Rattle.c65_pass.specs.StackRules.{is_settled, in_place, by_bytes, operated, unstacked};

use c65_code::{Callee, Line, Operand, Routine, TosOp, Width};
use c65_live::LiveTable;
use c65_mach::{Mode, Op};
use c65_pass::{Found, alone, in_place, is_settled, word_loaded};
use std::alloc::Global;

// An operation on the low byte in A and then on the high byte in X, in place of four lines.
fn by_bytes(alloc: Global, at: usize, op: Op, high: Operand, low: Operand) -> Found
    ensures { Answers (in_place (Some (by_bytes op high low)) true 4 at) result }
{
    let lines = [
        Line::Do(op, Mode::Immediate, low),
        alone(Op::Tay),
        alone(Op::Txa),
        Line::Do(op, Mode::Immediate, high),
        alone(Op::Tax),
        alone(Op::Tya),
    ];
    in_place(alloc, 4, at, &lines)
}

// The same behind an operation on the carry.
fn with_carry(alloc: Global, at: usize, carry: Op, op: Op, high: Operand, low: Operand) -> Found
    ensures { Answers (in_place (Some (alone carry ∷ by_bytes op high low)) true 4 at) result }
{
    let lines = [
        alone(carry),
        Line::Do(op, Mode::Immediate, low),
        alone(Op::Tay),
        alone(Op::Txa),
        Line::Do(op, Mode::Immediate, high),
        alone(Op::Tax),
        alone(Op::Tya),
    ];
    in_place(alloc, 4, at, &lines)
}

// The lines of an operator.
fn operated(alloc: Global, at: usize, op: TosOp, high: Operand, low: Operand) -> Found
    ensures { Answers (in_place (operated op high low) true 4 at) result }
{
    match op {
        TosOp::Add => with_carry(alloc, at, Op::Clc, Op::Adc, high, low),
        TosOp::Sub => with_carry(alloc, at, Op::Sec, Op::Sbc, high, low),
        TosOp::And => by_bytes(alloc, at, Op::And, high, low),
        TosOp::Or => by_bytes(alloc, at, Op::Ora, high, low),
        TosOp::Xor => by_bytes(alloc, at, Op::Eor, high, low),
        _ => Ok(None),
    }
}

/// AX pushed, a word loaded, and an operator on both: four lines from line `at` on.
pub fn unstacked(
    alloc: Global,
    live: &LiveTable,
    at: usize,
    line: &Line,
    one: &Line,
    other: &Line,
    last: &Line,
) -> Found
    requires { at + 3 < 2 ^ 64 }
    ensures { Answers (in_place (unstacked line.now one.now other.now last.now) (is_settled live.now (at + 3) last.now) 4 at) result }
{
    let Line::Call(Callee::Routine(Routine::PushAx)) = line else {
        return Ok(None);
    };
    let Line::Call(Callee::Routine(Routine::Tos(op, Width::Ax))) = last else {
        return Ok(None);
    };
    let Some((high, low)) = word_loaded(one, other) else {
        return Ok(None);
    };
    if !is_settled(live, at + 3, last) {
        return Ok(None);
    }
    operated(alloc, at, *op, high, low)
}
