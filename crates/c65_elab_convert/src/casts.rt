// Casts (C90 6.3.4).
ghost use Rattle.std.specs.Prelude.{◌≡◌, IfOk};
ghost use Rattle.c65_base.specs.Answers.{Gives};
ghost use Rattle.c65_ctype.specs.Views.{ty_of, qty_of, types_of};
ghost use Rattle.c65_csem.specs.Views.{typed_of};
ghost use Rattle.c65_elab_convert.specs.Casts as casts;

use crate::classes::{Category, classify, unfit_operand};
use crate::values::{as_int, as_plain, is_narrow_value, value, voided};
use c65_base::{Code, Pos, Refusal};
use c65_csem::{TExpr, TKind, int_type};
use c65_ctype::{QType, Types};
use c65_ints::IntType;
use std::alloc::{AllocError, Global};

/// A value as an integer of this type. The value of a bit-field does not stay that of a bit-field.
fn as_whole(alloc: Global, types: &Types, kind: IntType, e: TExpr) -> Result<TExpr, AllocError>
    ensures { IfOk result (λ t. typed_of t ≡ casts.as_whole (types_of types.now) kind (typed_of e)) }
{
    if is_narrow_value(types, &e) {
        Ok(TExpr {
            ty: int_type(kind),
            kind: TKind::Convert(Box::new(alloc, e)?),
        })
    } else {
        as_int(alloc, kind, e)
    }
}

fn on_value(alloc: Global, types: &Types, pos: Pos, ty: &QType, e: TExpr) -> Result<TExpr, Refusal>
    ensures { Gives typed_of result (casts.on_value (types_of types.now) pos (qty_of ty.now) (typed_of e)) }
{
    match (classify(&ty.ty), classify(&e.ty.ty)) {
        (Category::Void, Category::Void) => Ok(e),
        (Category::Void, _) => Ok(voided(alloc, e)?),
        (Category::Int(kind), Category::Int(_) | Category::Pointer) => {
            Ok(as_whole(alloc, types, kind, e)?)
        }
        (Category::Pointer, Category::Int(_) | Category::Pointer) => {
            Ok(as_plain(alloc, &ty.ty, e)?)
        }
        _ => Err(unfit_operand(Code::Operands, pos, e)),
    }
}

/// A cast (C90 6.3.4). Refuses `Operands` where the type is neither void nor scalar, or the operand
/// is not scalar, and `VoidValue`.
pub fn cast(alloc: Global, types: &Types, pos: Pos, ty: &QType, e: TExpr) -> Result<TExpr, Refusal>
    ensures { Gives typed_of result (casts.cast_of (types_of types.now) pos (qty_of ty.now) (typed_of e)) }
{
    let e = value(alloc, e)?;
    on_value(alloc, types, pos, ty, e)
}
