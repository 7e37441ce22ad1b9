// Trees that take no lines, and so have no labels.
ghost use Rattle.std.specs.Prelude.{◌≡◌, [], ◌∷◌, OnOk, OnErr};
ghost use Rattle.c65_csem.specs.Views.{typed_of};
ghost use Rattle.c65_code.specs.declared.line.Line.TheVariants.{Label};
ghost use Rattle.c65_genwide.specs.Lines.{grown, Keeps};
ghost use Rattle.c65_genexpr.specs.Wanted.{sense_of};
ghost use Rattle.c65_genexpr.specs.Uses.{uses};

use crate::wanted::Wanted;
use c65_code::Draft;
use c65_code::Line::Label;
use c65_csem::TExpr;
use c65_genwide::{next_label, put};
use std::alloc::AllocError;

/// A tree that is read where it lies.
pub fn leave_out(e: &TExpr, wanted: Wanted, draft: &mut Draft) -> Result<(), AllocError>
    requires { uses (sense_of wanted) (typed_of e.now) ≡ 0 }
    ensures lines { OnOk result (draft.new ≡ grown draft.old [] (uses (sense_of wanted) (typed_of e.now))) }
    ensures kept { OnErr result (Keeps draft.old draft.new) }
{
    put(draft, &[])
}

/// The label of a sum that is left out.
#[tactic(auto, using(c65_genwide::proofs::Kept::label_last, c65_genwide::proofs::Kept::label_then, c65_genwide::proofs::Kept::refused_then))]
pub fn leave_sum(draft: &mut Draft) -> Result<(), AllocError>
    ensures lines { OnOk result (draft.new ≡ grown draft.old (Label draft.old.labels ∷ []) 1) }
    ensures kept { OnErr result (Keeps draft.old draft.new) }
{
    let label = next_label(draft)?;
    put(draft, &[Label(label)])
}
