// Calls of functions of the library with arguments that the lines before show, and the lines that do what they do.
ghost use Rattle.std.specs.Prelude.{◌≡◌, ◌++◌, ◌+◌, ◌-◌, ◌<◌, ◌^◌, true, Some, length, OnOk};
ghost use Rattle.c65_know.specs.Known.{annotated};
ghost use Rattle.c65_pass.specs.KnownCalls.{with_value, on_zero, through, times, byte_copied, byte_filled, given_back, measured, copied, filled, text_copied, compared, call_known, lines_known, known_call};
ghost use Rattle.c65_pass.specs.Passes.{Answers};
ghost use Rattle.c65_pass.specs.Rules.{match_at};
ghost use Rattle.c65_pass.specs.StackRules.{is_settled, in_place, call_of, word_loaded};

use crate::texts::{at_most, count_loaded, text_loaded};
use c65_base::Library;
use c65_code::{Callee, Line, Literals, Operand, Routine, Seg};
use c65_live::LiveTable;
use c65_mach::{Mode, Op};
use c65_pass::{Found, alone, in_place, is_settled, lines_of, word_loaded};
use std::alloc::{AllocError, Global};

fn with_value(op: Op, value: u8) -> Line
    ensures { result ≡ with_value op value }
{
    Line::Do(op, Mode::Immediate, Operand::Byte(value))
}

fn on_zero(op: Op, byte: u8) -> Line
    ensures { result ≡ on_zero op byte }
{
    Line::Do(op, Mode::ZeroPage, Operand::Zero(byte))
}

// The byte at a pointer plus Y.
fn through(op: Op, pointer: u8) -> Line
    ensures { result ≡ through op pointer }
{
    Line::Do(op, Mode::IndirectY, Operand::Zero(pointer))
}

fn call_of(routine: Routine) -> Line
    ensures { result ≡ call_of routine }
{
    Line::Call(Callee::Routine(routine))
}

// Lines so many times, INY between.
fn put_times(lines: &mut Vec<Line>, step: &[Line], count: u16) -> Result<(), AllocError>
    ensures { OnOk result (lines.new.items ≡ lines.old.items ++ times step.now count) }
{
    let Some(more) = count.checked_sub(1) else {
        return Ok(());
    };
    lines.extend_from_slice(step)?;
    for again in 0..more {
        lines.push(alone(Op::Iny))?;
        lines.extend_from_slice(step)?;
    }
    Ok(())
}

// A byte from ptr1 to ptr2 so many times, and ptr2 in AX.
fn put_copies(lines: &mut Vec<Line>, count: u16) -> Result<(), AllocError>
    ensures { OnOk result (lines.new.items ≡ lines.old.items ++ (times byte_copied count ++ given_back)) }
{
    put_times(lines, &[through(Op::Lda, 8), through(Op::Sta, 10)], count)?;
    lines.extend_from_slice(&[on_zero(Op::Lda, 10), on_zero(Op::Ldx, 11)])
}

// A to ptr2 so many times, and ptr2 in AX.
fn put_fills(lines: &mut Vec<Line>, count: u16) -> Result<(), AllocError>
    ensures { OnOk result (lines.new.items ≡ lines.old.items ++ (times byte_filled count ++ given_back)) }
{
    put_times(lines, &[through(Op::Sta, 10)], count)?;
    lines.extend_from_slice(&[on_zero(Op::Lda, 10), on_zero(Op::Ldx, 11)])
}

fn measured(alloc: Global, at: usize, length: Option<u16>) -> Found
    ensures { Answers (in_place (measured length) true 3 at) result }
{
    let Some(length) = length else {
        return Ok(None);
    };
    let lines = [
        with_value(Op::Ldx, (length / 256) as u8),
        with_value(Op::Lda, (length % 256) as u8),
    ];
    in_place(alloc, 3, at, &lines)
}

fn copied(alloc: Global, at: usize, count: Option<u16>) -> Found
    ensures { Answers (in_place (copied count) true 3 at) result }
{
    let Some(count) = count else {
        return Ok(None);
    };
    let begin = [call_of(Routine::PopPtrs), with_value(Op::Ldy, 0)];
    let mut lines = Vec::from_slice(alloc, &begin)?;
    put_copies(&mut lines, count)?;
    in_place(alloc, 3, at, &lines)
}

fn filled(alloc: Global, at: usize, count: Option<u16>) -> Found
    ensures { Answers (in_place (filled count) true 3 at) result }
{
    let Some(count) = count else {
        return Ok(None);
    };
    let begin = [
        call_of(Routine::PopPtrs),
        with_value(Op::Ldy, 0),
        on_zero(Op::Lda, 8),
    ];
    let mut lines = Vec::from_slice(alloc, &begin)?;
    put_fills(&mut lines, count)?;
    in_place(alloc, 3, at, &lines)
}

fn text_copied(alloc: Global, at: usize, one: &Line, other: &Line, length: Option<u16>) -> Found
    requires { (n : _) → length ≡ Some n → n < 2 ^ 16 - 1 }
    ensures { Answers (in_place (text_copied one.now other.now length) true 3 at) result }
{
    let Some(length) = length else {
        return Ok(None);
    };
    let begin = [
        *one,
        *other,
        on_zero(Op::Sta, 8),
        on_zero(Op::Stx, 9),
        call_of(Routine::PopAx),
        on_zero(Op::Sta, 10),
        on_zero(Op::Stx, 11),
        with_value(Op::Ldy, 0),
    ];
    let mut lines = Vec::from_slice(alloc, &begin)?;
    put_copies(&mut lines, length + 1)?;
    in_place(alloc, 3, at, &lines)
}

// The first byte of the other text tells how it compares with the empty one.
fn compared(alloc: Global, at: usize, length: Option<u16>) -> Found
    ensures { Answers (in_place (compared length) true 3 at) result }
{
    let Some(_) = length else {
        return Ok(None);
    };
    let lines = [
        call_of(Routine::PopAx),
        on_zero(Op::Sta, 8),
        on_zero(Op::Stx, 9),
        with_value(Op::Ldy, 0),
        through(Op::Lda, 8),
        with_value(Op::Ldx, 0),
    ];
    in_place(alloc, 3, at, &lines)
}

fn call_known(
    alloc: Global,
    literals: &Literals,
    function: Library,
    at: usize,
    one: &Line,
    other: &Line,
) -> Found
    ensures { Answers (in_place (call_known literals.now.items function one.now other.now (word_loaded one.now other.now)) true 3 at) result }
{
    let word = word_loaded(one, other);
    match function {
        Library::Strlen => measured(alloc, at, at_most(65535, text_loaded(literals, word))),
        Library::Memcpy => copied(alloc, at, count_loaded(word)),
        Library::Memset => filled(alloc, at, count_loaded(word)),
        Library::Strcpy => {
            text_copied(
                alloc,
                at,
                one,
                other,
                at_most(7, text_loaded(literals, word)),
            )
        }
        Library::Strcmp => compared(alloc, at, at_most(0, text_loaded(literals, word))),
        _ => Ok(None),
    }
}

fn lines_known(
    alloc: Global,
    live: &LiveTable,
    literals: &Literals,
    at: usize,
    one: &Line,
    other: &Line,
    call: &Line,
) -> Found
    requires { at + 2 < 2 ^ 64 }
    ensures { Answers (in_place (lines_known literals.now.items one.now other.now call.now) (is_settled live.now (at + 2) call.now) 3 at) result }
{
    match call {
        Line::Call(Callee::Routine(Routine::Library(function))) if is_settled(live, at + 2, call) =>
            { call_known(alloc, literals, *function, at, one, other) }
        _ => Ok(None),
    }
}

fn known_call(
    alloc: Global,
    live: &LiveTable,
    literals: &Literals,
    at: usize,
    one: &Line,
    after: &[Line],
) -> Found
    requires { at + length after.now < 2 ^ 64 }
    ensures { Answers (known_call literals.now.items live.now at one.now after.now) result }
{
    match after {
        [other, call, ..] => lines_known(alloc, live, literals, at, one, other, call),
        _ => Ok(None),
    }
}

/// Rule 40: two loads and a call of a function of the library that a few lines stand for.
pub fn find_known(
    alloc: Global,
    seg: &Seg,
    live: &LiveTable,
    literals: &Literals,
    at: usize,
) -> Found
    ensures { Answers (match_at 40 literals.now.items (annotated seg.now.lines seg.now.out) live.now at) result }
{
    match lines_of(seg, at) {
        [one, after @ ..] => known_call(alloc, live, literals, at, one, after),
        _ => Ok(None),
    }
}
