// The value of an expression (C90 6.3).
ghost use Rattle.std.specs.Prelude.{◌≡◌, ◌≤◌, None, OnOk, OnErr, IfErr};
ghost use Rattle.c65_base.specs.declared.refusal.Refusal.TheVariants.{OutOfMemory};
ghost use Rattle.c65_csem.specs.Views.{typed_of};
ghost use Rattle.c65_genwide.specs.Lines.{grown, Keeps};
ghost use Rattle.c65_genexpr.specs.declared.wanted.Wanted.TheVariants.{Value};
ghost use Rattle.c65_genexpr.specs.Uses.{uses};
ghost use Rattle.c65_genexpr.specs.Code.{expr_code};

use crate::expr::put_expr;
use c65_base::Refusal;
use c65_code::Draft;
use c65_csem::TExpr;
use c65_genframe::Frame;

/// Puts the lines of an expression behind those of the draft, where so many bytes of values wait on
/// the software stack. The value then stands in the primary register: in A and X, or in A, X and
/// sreg; of a place, and of a structure or union, the address. Of a structure or union that is passed
/// or returned its bytes stand there, the first in A. Refuses for want of memory alone, of labels too;
/// the draft then has its old lines, and perhaps new ones behind them.
pub fn gen_expr(
    expr: &TExpr,
    frame: &Frame<'_>,
    pushed: u32,
    draft: &mut Draft,
) -> Result<(), Refusal>
    requires { pushed ≤ 65535 }
    ensures lines { OnOk result (draft.new ≡ grown draft.old (expr_code frame.now pushed draft.old.labels Value (typed_of expr.now)) (uses None (typed_of expr.now))) }
    ensures refused { IfErr result (λ e. e ≡ OutOfMemory) }
    ensures kept { OnErr result (Keeps draft.old draft.new) }
{
    put_expr(expr, frame, pushed as u16, draft)?;
    Ok(())
}
