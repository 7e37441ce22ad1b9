// Lines put behind others, and labels.
ghost use Rattle.std.specs.Prelude.{◌≡◌, ◌∷◌, [], IfOk, OnOk, OnErr};
ghost use Rattle.c65_genwide.specs.Lines.{call, with_lines, with_label, Keeps};

use c65_code::{Callee, Draft, Line, Routine};
use std::alloc::AllocError;

/// Puts lines behind those of the draft.
pub fn put(draft: &mut Draft, lines: &[Line]) -> Result<(), AllocError>
    ensures lines { OnOk result (draft.new ≡ with_lines draft.old lines.now) }
    ensures kept { OnErr result (Keeps draft.old draft.new) }
{
    draft.extend(lines)
}

/// Puts a call of a routine behind the draft's lines.
pub fn run(draft: &mut Draft, routine: Routine) -> Result<(), AllocError>
    ensures lines { OnOk result (draft.new ≡ with_lines draft.old (call routine ∷ [])) }
    ensures kept { OnErr result (Keeps draft.old draft.new) }
{
    draft.extend(&[Line::Call(Callee::Routine(routine))])
}

/// A label that was not given before; where there is none, want of memory.
#[tactic(auto, using(crate::proofs::Kept::kept_same))]
pub fn next_label(draft: &mut Draft) -> Result<u32, AllocError>
    ensures label { IfOk result (λ l. l ≡ draft.old.labels) }
    ensures draft { OnOk result (draft.new ≡ with_label draft.old) }
    ensures kept { OnErr result (Keeps draft.old draft.new) }
{
    if draft.labels() >= 0x8000_0000 {
        return Err(AllocError);
    }
    Ok(draft.fresh())
}
