// The table of lines in place of others, remade only near them where all ways through their place go straight.
ghost use Rattle.std.specs.Prelude.{◌≡◌, ◌+◌, ◌≤◌, true, length, IfOk, IfSome};
ghost use Rattle.c65_code.specs.Parts.{no_parts};
ghost use Rattle.c65_live.specs.Renewals.{is_plain, are_plain, before_line, before_all, before_rest, afters, IsEdge, AreSettled};

use crate::flow::closes;
use c65_code::{Line, Operand, RegSet};
use std::alloc::{AllocError, Global};

fn is_plain(line: &Line) -> bool
    ensures { result ≡ is_plain line.now }
{
    match line {
        Line::Label(_) => false,
        Line::Do(_, _, Operand::To(_)) => false,
        Line::Do(_, _, _) => !closes(line),
        Line::Call(_) => true,
    }
}

fn are_plain(lines: &[Line]) -> bool
    ensures { result ≡ are_plain lines.now }
{
    for line in lines {
        if !is_plain(line) {
            return false;
        }
    }
    true
}

/// What is live before a line, by what is live after it.
pub(crate) fn before(out: RegSet, line: &Line, after: RegSet) -> RegSet
    ensures { result ≡ before_line out line.now after }
{
    line.reads(out).union(after.minus(line.sets()))
}

// What is live before plain lines, by what is live after the last of them.
fn before_all(out: RegSet, lines: &[Line], after: RegSet) -> RegSet
    ensures { result ≡ before_all out lines.now after }
{
    let mut live = after;
    for at in (0..lines.len()).rev() {
        live = before(out, &lines[at], live);
    }
    live
}

/// What is live before the first of some lines, by what is live after it.
pub(crate) fn before_rest(out: RegSet, rest: &[Line], after: RegSet) -> RegSet
    ensures { result ≡ before_rest out rest.now after }
{
    match rest {
        [] => RegSet::empty(),
        [line, ..] => before(out, line, after),
    }
}

/// What is live after each of plain lines, by what is live after the last.
pub(crate) fn afters(
    alloc: Global,
    out: RegSet,
    lines: &[Line],
    after: RegSet,
) -> Result<Vec<RegSet>, AllocError>
    ensures { IfOk result (λ sets. sets.items ≡ afters out lines.now after) }
{
    let mut sets = vec![in alloc; RegSet::empty(); lines.len()]?;
    let mut live = after;
    for at in (0..lines.len()).rev() {
        sets[at] = live;
        live = before(out, &lines[at], live);
    }
    Ok(sets)
}

// What is live before the old lines and before the new ones, and what each of them read first.
#[derive(Clone, Copy)]
struct Sides {
    old: RegSet,
    new: RegSet,
    old_reads: RegSet,
    new_reads: RegSet,
}

impl Sides {
    // With one line more in front.
    fn before(&self, out: RegSet, line: &Line) -> Sides
        ensures old { result.old ≡ before_line out line.now self.now.old }
        ensures new { result.new ≡ before_line out line.now self.now.new }
        ensures old_reads { result.old_reads ≡ before_line out line.now self.now.old_reads }
        ensures new_reads { result.new_reads ≡ before_line out line.now self.now.new_reads }
    {
        Sides {
            old: before(out, line, self.old),
            new: before(out, line, self.new),
            old_reads: before(out, line, self.old_reads),
            new_reads: before(out, line, self.new_reads),
        }
    }

    // Whether nothing changes before them, and whatever is live after them and was read first is so still.
    #[tactic(auto, using(crate::proofs::Edges::settled_sides))]
    fn are_settled(&self, after: RegSet) -> bool
        ensures { result ≡ true → AreSettled self.now after }
    {
        let lost = self.old_reads.minus(self.new_reads);
        self.old == self.new && lost.minus(after) == lost
    }
}

/// The line before which nothing changes where others stand in place of some, by what is live after them. None where some way
/// through the place does not go straight, or it is not seen that nothing changes.
pub(crate) fn edge(
    out: RegSet,
    lines: &[Line],
    at: usize,
    count: usize,
    new: &[Line],
    after: RegSet,
) -> Option<usize>
    requires { at + count ≤ length lines.now }
    ensures { IfSome result (λ first. IsEdge out lines.now at count new.now after first) }
{
    let window = &lines[at..at + count];
    if !are_plain(window) || !are_plain(new) {
        return None;
    }
    let mut sides = Sides {
        old: before_all(out, window, after),
        new: before_all(out, new, after),
        old_reads: before_all(out, window, RegSet::empty()),
        new_reads: before_all(out, new, RegSet::empty()),
    };
    let mut first = at;
    while first > 0 && !sides.are_settled(after) {
        let line = &lines[first - 1];
        if !is_plain(line) {
            return None;
        }
        sides = sides.before(out, line);
        first -= 1;
    }
    Some(first)
}
