// What the rules on calls ask of the lines from a place on.
ghost use Rattle.std.specs.Prelude.{◌≡◌, true, Some};
ghost use Rattle.c65_pass.specs.Passes.{Answers};
ghost use Rattle.c65_pass.specs.Registers.{alone};
ghost use Rattle.c65_pass.specs.StackRules.{is_settled, in_place, word_loaded};

use crate::rewrite::Rewrite;
use c65_base::Refusal;
use c65_code::{Line, Operand, Part, RegSet};
use c65_live::LiveTable;
use c65_mach::{Mode, Op};
use std::alloc::Global;

/// Whether all that a call leaves open is dead after a line: what it may change but A, X and sp, which it gives or keeps.
pub fn is_settled(live: &LiveTable, at: usize, line: &Line) -> bool
    ensures { result ≡ is_settled live.now at line.now }
{
    match line {
        Line::Call(callee) => {
            let kept = RegSet::of(&[Part::A, Part::X]).union(RegSet::zero_bytes(0, 2));
            live.is_dead(at, callee.sets().minus(kept))
        }
        Line::Label(_) | Line::Do(_, _, _) => false,
    }
}

/// An operation on registers alone.
pub fn alone(op: Op) -> Line
    ensures { result ≡ alone op }
{
    Line::Do(op, Mode::Implied, Operand::Nothing)
}

/// The high and the low byte of a word that two lines load in A and X.
pub fn word_loaded(one: &Line, other: &Line) -> Option<(Operand, Operand)>
    ensures { result ≡ word_loaded one.now other.now }
{
    match (one, other) {
        (Line::Do(Op::Ldx, Mode::Immediate, high), Line::Do(Op::Lda, Mode::Immediate, low))
        | (Line::Do(Op::Lda, Mode::Immediate, low), Line::Do(Op::Ldx, Mode::Immediate, high)) => {
            Some((*high, *low))
        }
        _ => None,
    }
}

/// Lines in place of so many others from a place on.
pub fn in_place(
    alloc: Global,
    count: usize,
    at: usize,
    lines: &[Line],
) -> Result<Option<Rewrite>, Refusal>
    ensures { Answers (in_place (Some lines.now) true count at) result }
{
    Ok(Some(Rewrite::new(alloc, at, count, lines)?))
}
