// Conditions, and operators that may leave an operand out (C90 6.3.13, 6.3.14, 6.3.17, 6.6.4).
ghost use Rattle.std.specs.Prelude.{◌≡◌, IfOk};
ghost use Rattle.c65_base.specs.Answers.{Gives};
ghost use Rattle.c65_ctype.specs.Views.{types_of};
ghost use Rattle.c65_csem.specs.Views.{typed_of};
ghost use Rattle.c65_elab_convert.specs.Logic as logic;

use crate::classes::{Category, classify, is_scalar_type, unfit_operand, unfit_operands};
use crate::values::{as_int, promotion, value, values};
use crate::waiting::beside;
use c65_base::{Code, Pos, Refusal, boxed_pair};
use c65_csem::{TExpr, TKind, int_type, unqualified};
use c65_ctype::Types;
use c65_ints::IntType;
use std::alloc::{AllocError, Global};

/// `&&` (C90 6.3.13). Refuses `Operands` where an operand is not scalar, and `VoidValue`.
pub fn both(alloc: Global, pos: Pos, a: TExpr, b: TExpr) -> Result<TExpr, Refusal>
    ensures { Gives typed_of result (logic.both_of pos (typed_of a) (typed_of b)) }
{
    let (a, b) = values(alloc, a, b)?;
    if is_scalar_type(&a.ty) && is_scalar_type(&b.ty) {
        let (a, b) = boxed_pair(alloc, a, b)?;
        let ty = int_type(IntType::Int);
        let kind = TKind::And(a, b);
        Ok(TExpr { ty, kind })
    } else {
        Err(unfit_operands(pos, a, b))
    }
}

/// `||` (C90 6.3.14). Refuses `Operands` where an operand is not scalar, and `VoidValue`.
pub fn either(alloc: Global, pos: Pos, a: TExpr, b: TExpr) -> Result<TExpr, Refusal>
    ensures { Gives typed_of result (logic.either_of pos (typed_of a) (typed_of b)) }
{
    let (a, b) = values(alloc, a, b)?;
    if is_scalar_type(&a.ty) && is_scalar_type(&b.ty) {
        let (a, b) = boxed_pair(alloc, a, b)?;
        let ty = int_type(IntType::Int);
        let kind = TKind::Or(a, b);
        Ok(TExpr { ty, kind })
    } else {
        Err(unfit_operands(pos, a, b))
    }
}

/// `,` (C90 6.3.17).
pub fn comma(alloc: Global, a: TExpr, b: TExpr) -> Result<TExpr, AllocError>
    ensures { IfOk result (λ t. typed_of t ≡ logic.comma_of (typed_of a) (typed_of b)) }
{
    let (a, b) = values(alloc, a, b)?;
    let (ty, (a, b)) = beside(unqualified(alloc, &b.ty), (a, b))?;
    let ((a, b), ty) = beside(boxed_pair(alloc, a, b), ty)?;
    let kind = TKind::Comma(a, b);
    Ok(TExpr { ty, kind })
}

/// The value on which a choice or a statement depends (C90 6.3.15, 6.6.4.1, 6.6.5). Refuses
/// `ConditionType` where it is not scalar, and `VoidValue`.
pub fn condition(alloc: Global, pos: Pos, e: TExpr) -> Result<TExpr, Refusal>
    ensures { Gives typed_of result (logic.condition_of pos (typed_of e)) }
{
    let e = value(alloc, e)?;
    if is_scalar_type(&e.ty) {
        Ok(e)
    } else {
        Err(unfit_operand(Code::ConditionType, pos, e))
    }
}

/// The promoted value on which a switch depends (C90 6.6.4.2). Refuses `ConditionType` where it is
/// no integer, and `VoidValue`.
pub fn switch_value(alloc: Global, types: &Types, pos: Pos, e: TExpr) -> Result<TExpr, Refusal>
    ensures { Gives typed_of result (logic.switch_value_of (types_of types.now) pos (typed_of e)) }
{
    let e = value(alloc, e)?;
    match classify(&e.ty.ty) {
        Category::Int(kind) => {
            let kind = promotion(types, &e, kind);
            Ok(as_int(alloc, kind, e)?)
        }
        Category::Pointer | Category::Tag | Category::Void | Category::Other => {
            Err(unfit_operand(Code::ConditionType, pos, e))
        }
    }
}
