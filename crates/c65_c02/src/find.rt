// What the rules make at a place.
ghost use Rattle.std.specs.Prelude.{◌≡◌, ◌≤◌, ◌+◌, ◌^◌, ◌<◌, []};
ghost use Rattle.c65_code.specs.Parts.{set_of};
ghost use Rattle.c65_live.specs.Tables.{is_dead};
ghost use Rattle.c65_pass.specs.Passes.{Answers};
ghost use Rattle.c65_pass.specs.ProcessorRules.{shorter, short_line, left_otherwise};
ghost use Rattle.c65_pass.specs.Rules.{match_at};

use crate::short::{loaded_through, stepped_down, stepped_up, stored_through, zero_stored};
use c65_code::{Line, Part, RegSet};
use c65_know::Noted;
use c65_live::LiveTable;
use c65_pass::{Found, instead, lines_from};
use std::alloc::Global;

// The line that a rule puts in place of two.
fn short_line(rule: u8, line: &Line, next: &Line) -> Option<Line>
    ensures { result ≡ short_line rule line.now next.now }
{
    match rule {
        41 => zero_stored(line, next),
        42 => stepped_up(line, next),
        43 => stepped_down(line, next),
        44 => loaded_through(line, next),
        45 => stored_through(line, next),
        _ => None,
    }
}

// The parts that it leaves otherwise than the two do.
fn left_otherwise(rule: u8) -> RegSet
    ensures { result ≡ set_of (left_otherwise rule) }
{
    match rule {
        41 => RegSet::of(&[Part::A, Part::N, Part::Z]),
        42 | 43 => RegSet::of(&[Part::V, Part::C]),
        44 => RegSet::of(&[Part::Y]),
        _ => RegSet::of(&[Part::Y, Part::N, Part::Z]),
    }
}

// One line in place of two, where there is one and these parts are dead behind them.
fn shorter(alloc: Global, live: &LiveTable, at: usize, parts: RegSet, line: Option<Line>) -> Found
    requires { at + 1 < 2 ^ 64 }
    ensures { Answers (shorter (is_dead live.now (at + 1) parts) at line) result }
{
    if line.is_none() || !live.is_dead(at + 1, parts) {
        return Ok(None);
    }
    instead(alloc, 2, at, line)
}

/// What one of the rules makes at a place.
pub fn find(alloc: Global, code: &Noted, live: &LiveTable, at: usize, rule: u8) -> Found
    requires first { 41 ≤ rule }
    requires last { rule ≤ 45 }
    ensures { Answers (match_at rule [] code.now live.now at) result }
{
    match lines_from(code, at) {
        [line, next, ..] => shorter(
            alloc,
            live,
            at,
            left_otherwise(rule),
            short_line(rule, line, next),
        ),
        _ => Ok(None),
    }
}
