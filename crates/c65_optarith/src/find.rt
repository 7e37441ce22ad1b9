// What the rules make at a place.
ghost use Rattle.std.specs.Prelude.{◌≤◌, ◌+◌, ◌^◌, ◌<◌, []};
ghost use Rattle.c65_pass.specs.ArithRules.{both_gone_if, idle_compare, stepped_back, joined};
ghost use Rattle.c65_pass.specs.Passes.{Answers};
ghost use Rattle.c65_pass.specs.Rules.{match_at};

use crate::conditions::{
    is_dead_arithmetic, is_dead_carry, is_dead_compare, is_idle_carry, is_idle_compare,
    is_idle_mask, is_idle_sum, is_stepped_back,
};
use crate::joined::joined_masks;
use c65_code::Line;
use c65_know::Noted;
use c65_live::LiveTable;
use c65_pass::{Found, Rewrite, alone_if, gone_if, instead, lines_from};
use std::alloc::Global;

// The line at a place and the one after it go.
fn both_gone_if(alloc: Global, gone: bool, at: usize) -> Found
    ensures { Answers (both_gone_if gone at) result }
{
    if !gone {
        return Ok(None);
    }
    Ok(Some(Rewrite::new(alloc, at, 2, &[])?))
}

fn idle_compare(alloc: Global, live: &LiveTable, at: usize, line: &Line, after: &[Line]) -> Found
    requires { at + 1 < 2 ^ 64 }
    ensures { Answers (idle_compare live.now at line.now after.now) result }
{
    match after {
        [] => Ok(None),
        [next, ..] => alone_if(alloc, is_idle_compare(live, at + 1, line, next), at, line),
    }
}

fn stepped_back(alloc: Global, live: &LiveTable, at: usize, line: &Line, after: &[Line]) -> Found
    requires { at + 1 < 2 ^ 64 }
    ensures { Answers (stepped_back live.now at line.now after.now) result }
{
    match after {
        [] => Ok(None),
        [next, ..] => both_gone_if(alloc, is_stepped_back(live, at + 1, line, next), at),
    }
}

fn joined(alloc: Global, at: usize, line: &Line, after: &[Line]) -> Found
    ensures { Answers (joined at line.now after.now) result }
{
    match after {
        [] => Ok(None),
        [next, ..] => instead(alloc, 2, at, joined_masks(line, next)),
    }
}

/// What one of the rules makes at a place.
pub fn find(alloc: Global, code: &Noted, live: &LiveTable, at: usize, rule: u8) -> Found
    requires first { 24 ≤ rule }
    requires last { rule ≤ 32 }
    ensures { Answers (match_at rule [] code.now live.now at) result }
{
    let [line, after @ ..] = lines_from(code, at) else {
        return Ok(None);
    };
    match rule {
        // CLC or SEC where C has that value, or is not read
        24 => gone_if(alloc, is_idle_carry(code, at, line), at),
        25 => gone_if(alloc, is_dead_carry(live, at, line), at),
        // a comparison with 0 of what was just worked out, and one of which nothing is read
        26 => idle_compare(alloc, live, at, line, after),
        27 => gone_if(alloc, is_dead_compare(live, at, line), at),
        // a mask that leaves A
        28 => gone_if(alloc, is_idle_mask(live, at, line), at),
        // a step of X or Y and the step back
        29 => stepped_back(alloc, live, at, line, after),
        // a sum or difference with 0
        30 => gone_if(alloc, is_idle_sum(code, live, at, line), at),
        // two masks in one, or a load and a mask
        31 => joined(alloc, at, line, after),
        // arithmetic of which nothing is read
        _ => gone_if(alloc, is_dead_arithmetic(live, at, line), at),
    }
}
