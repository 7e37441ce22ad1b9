// Lines that stand several times.
ghost use Rattle.std.specs.Prelude.{◌≡◌, replicate, OnOk, OnErr};
ghost use Rattle.c65_genwide.specs.Lines.{with_lines, Keeps};
ghost use Rattle.c65_genload.specs.Words.{shift_a};

use c65_code::Line::Do;
use c65_code::Operand::Nothing;
use c65_code::{Draft, Line};
use c65_genwide::put;
use c65_mach::Mode::Accumulator;
use c65_mach::Op;
use std::alloc::AllocError;

/// A by one bit.
pub fn shift_a(op: Op) -> Line
    ensures { result ≡ shift_a op }
{
    Do(op, Accumulator, Nothing)
}

/// The same line so many times.
#[tactic(auto, using(crate::proofs::Repeats::replicate_next))]
pub fn put_times(line: Line, count: u32, draft: &mut Draft) -> Result<(), AllocError>
    ensures lines { OnOk result (draft.new ≡ with_lines draft.old (replicate count line)) }
    ensures kept { OnErr result (Keeps draft.old draft.new) }
{
    for _round in 0..count {
        put(draft, &[line])?;
    }
    Ok(())
}
