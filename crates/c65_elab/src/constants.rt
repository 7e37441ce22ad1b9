// The values of integer constant expressions (C90 6.4) where they are needed.
ghost use Rattle.std.specs.Prelude.{◌≡◌};
ghost use Rattle.c65_base.specs.Answers.{Gives};
ghost use Rattle.c65_csem.specs.Views.{typed_of};
ghost use Rattle.c65_tree.specs.View.{expr_of};
ghost use Rattle.c65_elab.specs.Constants.{value_at};
ghost use Rattle.c65_elab.specs.Places.{place_of};

use c65_base::{Code, Pos, Refusal};
use c65_csem::TExpr;
use c65_elab_declare::fault;
use c65_fold::constant;
use c65_tree::Expr;

/// The value of a constant expression at a place. Refuses `NotConstant`, and `ConstantValue` where
/// the value is undefined.
pub fn value_at(expr: &TExpr, pos: Pos) -> Result<i64, Refusal>
    ensures { Gives (λ z. z) result (value_at (typed_of expr.now) pos) }
{
    match constant(expr) {
        Some(value) => Ok(value),
        None => {
            if c65_fold::is_constant(expr) {
                Err(fault(Code::ConstantValue, pos))
            } else {
                Err(fault(Code::NotConstant, pos))
            }
        }
    }
}

/// The value of a constant expression that is typed, at the place of its tree.
pub fn value_of(e: &TExpr, tree: &Expr) -> Result<i64, Refusal>
    ensures { Gives (λ z. z) result (value_at (typed_of e.now) (place_of (expr_of tree.now))) }
{
    value_at(e, tree.pos)
}
