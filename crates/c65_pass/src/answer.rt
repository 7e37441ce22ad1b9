// Rewritings of one line or two, as rules answer them.
ghost use Rattle.std.specs.Prelude.{◌≡◌, ◌+◌, ◌^◌, ◌<◌, drop, length};
ghost use Rattle.c65_pass.specs.FlowRules.{gone_if, alone_if};
ghost use Rattle.c65_pass.specs.LoadRules.{instead};
ghost use Rattle.c65_pass.specs.Passes.{Answers};

use crate::rewrite::Rewrite;
use c65_base::Refusal;
use c65_code::{Line, Seg};
use c65_know::Noted;
use std::alloc::Global;

/// What a rule makes at a place, or want of memory.
pub type Found = Result<Option<Rewrite>, Refusal>;

/// The lines of a segment from a place on.
pub fn lines_of(seg: &Seg, at: usize) -> &[Line]
    ensures lines { result.now ≡ drop at seg.now.lines }
    ensures end { 0 < length result.now → at + length result.now < 2 ^ 64 }
{
    let lines = seg.lines();
    if at < lines.len() { &lines[at..] } else { &[] }
}

/// The lines of a function from a place on.
pub fn lines_from(code: &Noted, at: usize) -> &[Line]
    ensures lines { result.now ≡ drop at code.now.lines }
    ensures end { 0 < length result.now → at + length result.now < 2 ^ 64 }
{
    lines_of(code.seg(), at)
}

/// The line at a place goes.
pub fn gone_if(alloc: Global, gone: bool, at: usize) -> Found
    ensures { Answers (gone_if gone at) result }
{
    if !gone {
        return Ok(None);
    }
    Ok(Some(Rewrite::new(alloc, at, 1, &[])?))
}

/// One of two lines goes, and this one stays.
pub fn alone_if(alloc: Global, alone: bool, at: usize, line: &Line) -> Found
    ensures { Answers (alone_if alone at line.now) result }
{
    if !alone {
        return Ok(None);
    }
    Ok(Some(Rewrite::new(alloc, at, 2, &[*line])?))
}

/// This line, if there is one, in place of so many.
pub fn instead(alloc: Global, count: usize, at: usize, line: Option<Line>) -> Found
    ensures { Answers (instead count at line) result }
{
    match line {
        None => Ok(None),
        Some(line) => Ok(Some(Rewrite::new(alloc, at, count, &[line])?)),
    }
}
