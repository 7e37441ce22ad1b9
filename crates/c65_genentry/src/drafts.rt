// Labels.
ghost use Rattle.std.specs.Prelude.{◌≡◌, ◌+◌, ◌∷◌, [], IfOk, OnOk, OnErr};
ghost use Rattle.c65_code.specs.declared.line.Line.TheVariants.{Label};
ghost use Rattle.c65_genwide.specs.Lines.{with_lines, Keeps};
ghost use Rattle.c65_genentry.specs.Drafts.{with_labels};

use c65_code::{Draft, Line};
use c65_genwide::put;
use std::alloc::AllocError;

/// A label that was not given before. Where there are 2^31 already, that is want of memory.
#[tactic(auto, using(c65_genwide::proofs::Kept::kept_same))]
pub fn fresh(draft: &mut Draft) -> Result<u32, AllocError>
    ensures value { IfOk result (λ l. l ≡ draft.old.labels) }
    ensures given { OnOk result (draft.new ≡ with_labels 1 draft.old) }
    ensures kept { OnErr result (Keeps draft.old draft.new) }
{
    if draft.labels() >= 0x8000_0000 {
        return Err(AllocError);
    }
    Ok(draft.fresh())
}

/// Gives so many labels, and answers the first one.
pub fn reserve(draft: &mut Draft, count: usize) -> Result<u32, AllocError>
    ensures value { IfOk result (λ l. l ≡ draft.old.labels) }
    ensures given { OnOk result (draft.new ≡ with_labels count draft.old) }
    ensures kept { OnErr result (Keeps draft.old draft.new) }
{
    let first = draft.labels();
    for _round in 0..count {
        let _ = fresh(draft)?;
    }
    Ok(first)
}

/// The place of a label.
pub fn label(draft: &mut Draft, label: u32) -> Result<(), AllocError>
    ensures lines { OnOk result (draft.new ≡ with_lines draft.old (Label label ∷ [])) }
    ensures kept { OnErr result (Keeps draft.old draft.new) }
{
    put(draft, &[Line::Label(label)])
}
