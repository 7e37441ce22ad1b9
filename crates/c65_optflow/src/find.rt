// What the rules make at a place.
ghost use Rattle.std.specs.Prelude.{◌≡◌, ◌≤◌, [], Some};
ghost use Rattle.c65_code.specs.Segments.{is_closing};
ghost use Rattle.c65_know.specs.Known.{annotated};
ghost use Rattle.c65_pass.specs.FlowRules.{sent_to, begins_plainly, goes_on_plainly, inverted};
ghost use Rattle.c65_pass.specs.Labels.{begins_with_target};
ghost use Rattle.c65_pass.specs.Passes.{Answers};
ghost use Rattle.c65_pass.specs.Rules.{match_at};

use crate::branches::{is_passed, is_taken, opposite};
use c65_code::{Line, Operand, Seg};
use c65_know::Noted;
use c65_live::LiveTable;
use c65_mach::{Mode, Op};
use c65_pass::{
    Found, Rewrite, alone_if, begins_with, branch_target, gone_if, is_label, jump_target,
    lines_from, lines_of, retargeted, threaded,
};
use std::alloc::Global;

// The line goes to this label in place of its own.
fn sent_to(alloc: Global, target: Option<u32>, at: usize, line: &Line) -> Found
    ensures { Answers (sent_to target at line.now) result }
{
    match target {
        None => Ok(None),
        Some(label) => {
            let new = Rewrite::new(alloc, at, 1, &[retargeted(line, label)])?;
            Ok(Some(new))
        }
    }
}

fn begins_with_target(target: Option<u32>, lines: &[Line]) -> bool
    ensures { result ≡ begins_with_target target lines.now }
{
    match target {
        None => false,
        Some(label) => begins_with(label, lines),
    }
}

fn is_closing(line: &Line) -> bool
    ensures { result ≡ is_closing line.now }
{
    match line {
        Line::Do(op, _, _) => matches!(op, Op::Rts | Op::Jmp),
        Line::Label(_) | Line::Call(_) => false,
    }
}

fn begins_plainly(lines: &[Line]) -> bool
    ensures { result ≡ begins_plainly lines.now }
{
    match lines {
        [] => false,
        [line, ..] => !is_label(line),
    }
}

fn goes_on_plainly(lines: &[Line]) -> bool
    ensures { result ≡ goes_on_plainly lines.now }
{
    match lines {
        [line, _, ..] => !is_label(line),
        _ => false,
    }
}

fn inverted(alloc: Global, at: usize, line: &Line, after: &[Line]) -> Found
    ensures { Answers (inverted at line.now after.now) result }
{
    let Line::Do(op, Mode::Relative, Operand::To(label)) = line else {
        return Ok(None);
    };
    let [next, rest @ ..] = after else {
        return Ok(None);
    };
    let Some(far) = jump_target(next) else {
        return Ok(None);
    };
    if !begins_with(*label, rest) {
        return Ok(None);
    }
    let branch = Line::Do(opposite(*op), Mode::Relative, Operand::To(far));
    Ok(Some(Rewrite::new(alloc, at, 2, &[branch])?))
}

/// What one of the rules makes at a place that ask the lines alone.
pub fn find_jump(alloc: Global, seg: &Seg, _live: &LiveTable, at: usize, rule: u8) -> Found
    requires first { 1 ≤ rule }
    requires last { rule ≤ 6 }
    ensures { Answers (match_at rule [] (annotated seg.now.lines seg.now.out) _live.now at) result }
{
    let lines = seg.lines();
    let [line, after @ ..] = lines_of(seg, at) else {
        return Ok(None);
    };
    match rule {
        // JMP, or a branch, to a label that follows at once
        1 => gone_if(alloc, begins_with_target(jump_target(line), after), at),
        2 => gone_if(alloc, begins_with_target(branch_target(line), after), at),
        // a line that is no label after JMP or RTS
        3 => alone_if(alloc, is_closing(line) && begins_plainly(after), at, line),
        // JMP, or a branch, to a chain of JMPs
        4 => sent_to(alloc, threaded(lines, jump_target(line)), at, line),
        5 => sent_to(alloc, threaded(lines, branch_target(line)), at, line),
        // a branch round a JMP
        _ => inverted(alloc, at, line, after),
    }
}

/// What one of the rules makes at a place that ask the notes.
pub fn find_noted(alloc: Global, code: &Noted, _live: &LiveTable, at: usize, rule: u8) -> Found
    requires first { 8 ≤ rule }
    requires last { rule ≤ 9 }
    ensures { Answers (match_at rule [] code.now _live.now at) result }
{
    let [line, after @ ..] = lines_from(code, at) else {
        return Ok(None);
    };
    match rule {
        // a branch that is not taken, as the note before it shows
        8 => gone_if(alloc, is_passed(code, at, line), at),
        // a line that is no label and not the last, after a branch that is taken, as the note before it shows
        _ => {
            let passed = is_taken(code, at, line) && goes_on_plainly(after);
            alone_if(alloc, passed, at, line)
        }
    }
}
