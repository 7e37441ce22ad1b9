// What the rules make at a place.
ghost use Rattle.std.specs.Prelude.{◌≤◌, ◌+◌, ◌^◌, ◌<◌, []};
ghost use Rattle.c65_pass.specs.LoadRules.{reload, restore, overwritten, back, moved_on};
ghost use Rattle.c65_pass.specs.Passes.{Answers};
ghost use Rattle.c65_pass.specs.Rules.{match_at};

use crate::conditions::{
    is_back, is_dead_load, is_dead_store, is_dead_transfer, is_idle_byte_load, is_idle_load,
    is_idle_store, is_idle_transfer, is_overwritten, is_reload, is_restore,
};
use crate::others::{loaded_on, stepped, transferred};
use c65_code::Line;
use c65_know::Noted;
use c65_live::LiveTable;
use c65_pass::{Found, alone_if, gone_if, instead, lines_from};
use std::alloc::Global;

// Of two lines one stays, or one comes in their place.
fn reload(alloc: Global, live: &LiveTable, at: usize, line: &Line, after: &[Line]) -> Found
    requires { at + 1 < 2 ^ 64 }
    ensures { Answers (reload live.now at line.now after.now) result }
{
    match after {
        [] => Ok(None),
        [next, ..] => alone_if(alloc, is_reload(live, at + 1, line, next), at, line),
    }
}

fn restore(alloc: Global, at: usize, line: &Line, after: &[Line]) -> Found
    ensures { Answers (restore at line.now after.now) result }
{
    match after {
        [] => Ok(None),
        [next, ..] => alone_if(alloc, is_restore(line, next), at, line),
    }
}

fn overwritten(alloc: Global, at: usize, line: &Line, after: &[Line]) -> Found
    ensures { Answers (overwritten at line.now after.now) result }
{
    match after {
        [] => Ok(None),
        [next, ..] => alone_if(alloc, is_overwritten(line, next), at, next),
    }
}

fn back(alloc: Global, at: usize, line: &Line, after: &[Line]) -> Found
    ensures { Answers (back at line.now after.now) result }
{
    match after {
        [] => Ok(None),
        [next, ..] => alone_if(alloc, is_back(line, next), at, line),
    }
}

fn moved_on(alloc: Global, live: &LiveTable, at: usize, line: &Line, after: &[Line]) -> Found
    requires { at + 1 < 2 ^ 64 }
    ensures { Answers (moved_on live.now at line.now after.now) result }
{
    match after {
        [] => Ok(None),
        [next, ..] => instead(alloc, 2, at, loaded_on(live, at + 1, line, next)),
    }
}

/// What one of the rules makes at a place.
pub fn find(alloc: Global, code: &Noted, live: &LiveTable, at: usize, rule: u8) -> Found
    requires first { 10 ≤ rule }
    requires last { rule ≤ 23 }
    ensures { Answers (match_at rule [] code.now live.now at) result }
{
    let [line, after @ ..] = lines_from(code, at) else {
        return Ok(None);
    };
    match rule {
        // a load of the byte that the register has; of a register that is not read
        10 => gone_if(alloc, is_idle_load(code, live, at, line), at),
        11 => gone_if(alloc, is_dead_load(live, at, line), at),
        // a store to a scratch byte that is not read
        12 => gone_if(alloc, is_dead_store(live, at, line), at),
        // a load of what the same register just stored, a store of what it just loaded, a store over what was just stored
        13 => reload(alloc, live, at, line, after),
        14 => restore(alloc, at, line, after),
        15 => overwritten(alloc, at, line, after),
        // a transfer to a register that is not read, between registers that are equal, and back again
        16 => gone_if(alloc, is_dead_transfer(live, at, line), at),
        17 => gone_if(alloc, is_idle_transfer(code, live, at, line), at),
        18 => back(alloc, at, line, after),
        // a load of a byte that another register has
        19 => instead(alloc, 1, at, transferred(code, at, line)),
        // a load of a byte, and a store to one, that is equal to the register
        20 => gone_if(alloc, is_idle_byte_load(code, live, at, line), at),
        21 => gone_if(alloc, is_idle_store(code, at, line), at),
        // a load of a byte one above or below what the register has
        22 => instead(alloc, 1, at, stepped(code, at, line)),
        // a load whose register is only moved on
        _ => moved_on(alloc, live, at, line, after),
    }
}
