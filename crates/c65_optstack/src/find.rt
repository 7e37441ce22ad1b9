// What the rules make at a place.
ghost use Rattle.std.specs.Prelude.{◌≡◌, ◌≤◌, ◌+◌, ◌^◌, ◌<◌, length, []};
ghost use Rattle.c65_pass.specs.Passes.{Answers};
ghost use Rattle.c65_pass.specs.Rules.{match_at};
ghost use Rattle.c65_pass.specs.StackRules.{in_place, is_settled, one_call, nothing_if, one_routine, undone, called_once, done_in_line};

use crate::calls::{is_taken_back, moved_at_once, moved_by_byte, word_at_sp, zero_pushed};
use crate::words::unstacked;
use c65_code::{Callee, Line, Routine};
use c65_know::Noted;
use c65_live::LiveTable;
use c65_pass::{Found, in_place, is_settled, lines_from};
use std::alloc::Global;

// Two lines go, of which the second is a call.
fn nothing_if(alloc: Global, live: &LiveTable, at: usize, gone: bool, next: &Line) -> Found
    requires { at + 1 < 2 ^ 64 }
    ensures { Answers (in_place (nothing_if gone) (is_settled live.now (at + 1) next.now) 2 at) result }
{
    if !gone || !is_settled(live, at + 1, next) {
        return Ok(None);
    }
    in_place(alloc, 2, at, &[])
}

// A call in place of two lines, of which the second is a call.
fn one_call(
    alloc: Global,
    live: &LiveTable,
    at: usize,
    routine: Option<Routine>,
    next: &Line,
) -> Found
    requires { at + 1 < 2 ^ 64 }
    ensures { Answers (in_place (one_call routine) (is_settled live.now (at + 1) next.now) 2 at) result }
{
    let Some(routine) = routine else {
        return Ok(None);
    };
    if !is_settled(live, at + 1, next) {
        return Ok(None);
    }
    in_place(alloc, 2, at, &[Line::Call(Callee::Routine(routine))])
}

// The routine that is called in place of two lines.
fn one_routine(rule: u8, line: &Line, next: &Line) -> Option<Routine>
    ensures { result ≡ one_routine rule line.now next.now }
{
    match rule {
        34 => moved_at_once(line, next),
        35 => moved_by_byte(line, next),
        36 => zero_pushed(line, next),
        _ => word_at_sp(line, next),
    }
}

fn undone(alloc: Global, live: &LiveTable, at: usize, line: &Line, after: &[Line]) -> Found
    requires { at + 1 < 2 ^ 64 }
    ensures { Answers (undone live.now at line.now after.now) result }
{
    match after {
        [] => Ok(None),
        [next, ..] => nothing_if(alloc, live, at, is_taken_back(line, next), next),
    }
}

fn called_once(
    alloc: Global,
    live: &LiveTable,
    at: usize,
    rule: u8,
    line: &Line,
    after: &[Line],
) -> Found
    requires { at + 1 < 2 ^ 64 }
    ensures { Answers (called_once rule live.now at line.now after.now) result }
{
    match after {
        [] => Ok(None),
        [next, ..] => one_call(alloc, live, at, one_routine(rule, line, next), next),
    }
}

fn done_in_line(alloc: Global, live: &LiveTable, at: usize, line: &Line, after: &[Line]) -> Found
    requires { at + length after.now < 2 ^ 64 }
    ensures { Answers (done_in_line live.now at line.now after.now) result }
{
    match after {
        [one, other, last, ..] => unstacked(alloc, live, at, line, one, other, last),
        _ => Ok(None),
    }
}

/// What one of the rules makes at a place.
pub fn find(alloc: Global, code: &Noted, live: &LiveTable, at: usize, rule: u8) -> Found
    requires first { 33 ≤ rule }
    requires last { rule ≤ 38 }
    ensures { Answers (match_at rule [] code.now live.now at) result }
{
    let [line, after @ ..] = lines_from(code, at) else {
        return Ok(None);
    };
    match rule {
        33 => undone(alloc, live, at, line, after),
        38 => done_in_line(alloc, live, at, line, after),
        _ => called_once(alloc, live, at, rule, line, after),
    }
}
