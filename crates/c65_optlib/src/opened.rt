// Calls of routines, and the lines that do what a routine does.
ghost use Rattle.std.specs.Prelude.{◌≡◌, true};
ghost use Rattle.c65_code.specs.declared.routine.Routine.TheVariants as routines;
ghost use Rattle.c65_code.specs.declared.routine.UnaryRoutine.TheVariants.{Neg, Compl, Shl1, Shr1, Asr1};
ghost use Rattle.c65_code.specs.declared.routine.Width.TheVariants.{Ax};
ghost use Rattle.c65_know.specs.Known.{annotated};
ghost use Rattle.c65_pass.specs.LibraryRules.{with_byte, on_stack, on_tmp1, on_a, opened, call_opened};
ghost use Rattle.c65_pass.specs.Passes.{Answers};
ghost use Rattle.c65_pass.specs.Rules.{match_at};
ghost use Rattle.c65_pass.specs.StackRules.{is_settled, in_place};

use c65_code::{Callee, Line, Operand, Routine, Seg, UnaryRoutine, Width};
use c65_live::LiveTable;
use c65_mach::{Mode, Op};
use c65_pass::{Found, alone, in_place, is_settled, lines_of};
use std::alloc::Global;

fn with_byte(op: Op, value: u8) -> Line
    ensures { result ≡ with_byte op value }
{
    Line::Do(op, Mode::Immediate, Operand::Byte(value))
}

// The byte at sp + Y.
fn on_stack(op: Op) -> Line
    ensures { result ≡ on_stack op }
{
    Line::Do(op, Mode::IndirectY, Operand::Zero(0))
}

fn on_tmp1(op: Op) -> Line
    ensures { result ≡ on_tmp1 op }
{
    Line::Do(op, Mode::ZeroPage, Operand::Zero(16))
}

fn on_a(op: Op) -> Line
    ensures { result ≡ on_a op }
{
    Line::Do(op, Mode::Accumulator, Operand::Nothing)
}

// Minus AX: its complement and one.
fn negated(alloc: Global, at: usize) -> Found
    ensures { Answers (in_place (opened (routines.Unary Neg Ax)) true 1 at) result }
{
    let lines = [
        alone(Op::Clc),
        with_byte(Op::Eor, 255),
        with_byte(Op::Adc, 1),
        alone(Op::Tay),
        alone(Op::Txa),
        with_byte(Op::Eor, 255),
        with_byte(Op::Adc, 0),
        alone(Op::Tax),
        alone(Op::Tya),
    ];
    in_place(alloc, 1, at, &lines)
}

fn complemented(alloc: Global, at: usize) -> Found
    ensures { Answers (in_place (opened (routines.Unary Compl Ax)) true 1 at) result }
{
    let lines = [
        with_byte(Op::Eor, 255),
        alone(Op::Tay),
        alone(Op::Txa),
        with_byte(Op::Eor, 255),
        alone(Op::Tax),
        alone(Op::Tya),
    ];
    in_place(alloc, 1, at, &lines)
}

fn doubled(alloc: Global, at: usize) -> Found
    ensures { Answers (in_place (opened (routines.Unary Shl1 Ax)) true 1 at) result }
{
    let lines = [
        on_tmp1(Op::Stx),
        on_a(Op::Asl),
        on_tmp1(Op::Rol),
        on_tmp1(Op::Ldx),
    ];
    in_place(alloc, 1, at, &lines)
}

fn halved(alloc: Global, at: usize) -> Found
    ensures { Answers (in_place (opened (routines.Unary Shr1 Ax)) true 1 at) result }
{
    let lines = [
        on_tmp1(Op::Stx),
        on_tmp1(Op::Lsr),
        on_a(Op::Ror),
        on_tmp1(Op::Ldx),
    ];
    in_place(alloc, 1, at, &lines)
}

// The same with the sign kept: the carry begins as bit 15.
fn halved_signed(alloc: Global, at: usize) -> Found
    ensures { Answers (in_place (opened (routines.Unary Asr1 Ax)) true 1 at) result }
{
    let lines = [
        with_byte(Op::Cpx, 128),
        on_tmp1(Op::Stx),
        on_tmp1(Op::Ror),
        on_a(Op::Ror),
        on_tmp1(Op::Ldx),
    ];
    in_place(alloc, 1, at, &lines)
}

// The word whose high byte is at sp + Y.
fn loaded(alloc: Global, at: usize) -> Found
    ensures { Answers (in_place (opened routines.LdAxYSp) true 1 at) result }
{
    let lines = [
        on_stack(Op::Lda),
        alone(Op::Tax),
        alone(Op::Dey),
        on_stack(Op::Lda),
    ];
    in_place(alloc, 1, at, &lines)
}

fn loaded_at_sp(alloc: Global, at: usize) -> Found
    ensures { Answers (in_place (opened routines.LdAx0Sp) true 1 at) result }
{
    let lines = [
        with_byte(Op::Ldy, 1),
        on_stack(Op::Lda),
        alone(Op::Tax),
        alone(Op::Dey),
        on_stack(Op::Lda),
    ];
    in_place(alloc, 1, at, &lines)
}

// AX to sp + Y; A stands on the hardware stack meanwhile.
fn stored(alloc: Global, at: usize) -> Found
    ensures { Answers (in_place (opened routines.StAxYSp) true 1 at) result }
{
    let lines = [
        on_stack(Op::Sta),
        alone(Op::Pha),
        alone(Op::Txa),
        alone(Op::Iny),
        on_stack(Op::Sta),
        alone(Op::Pla),
    ];
    in_place(alloc, 1, at, &lines)
}

fn opened(alloc: Global, at: usize, routine: Routine) -> Found
    ensures { Answers (in_place (opened routine) true 1 at) result }
{
    match routine {
        Routine::LdAxYSp => loaded(alloc, at),
        Routine::LdAx0Sp => loaded_at_sp(alloc, at),
        Routine::StAxYSp => stored(alloc, at),
        Routine::Unary(UnaryRoutine::Neg, Width::Ax) => negated(alloc, at),
        Routine::Unary(UnaryRoutine::Compl, Width::Ax) => complemented(alloc, at),
        Routine::Unary(UnaryRoutine::Shl1, Width::Ax) => doubled(alloc, at),
        Routine::Unary(UnaryRoutine::Shr1, Width::Ax) => halved(alloc, at),
        Routine::Unary(UnaryRoutine::Asr1, Width::Ax) => halved_signed(alloc, at),
        _ => Ok(None),
    }
}

fn call_opened(alloc: Global, live: &LiveTable, at: usize, line: &Line) -> Found
    ensures { Answers (in_place (call_opened line.now) (is_settled live.now at line.now) 1 at) result }
{
    match line {
        Line::Call(Callee::Routine(routine)) if is_settled(live, at, line) => {
            opened(alloc, at, *routine)
        }
        _ => Ok(None),
    }
}

/// Rule 39: a call of a routine that few lines stand for.
pub fn find_call(alloc: Global, seg: &Seg, live: &LiveTable, at: usize) -> Found
    ensures { (literals : _) → Answers (match_at 39 literals (annotated seg.now.lines seg.now.out) live.now at) result }
{
    match lines_of(seg, at) {
        [line, ..] => call_opened(alloc, live, at, line),
        _ => Ok(None),
    }
}
