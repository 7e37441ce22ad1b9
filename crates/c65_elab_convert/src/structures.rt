// Structures and unions that are passed and returned (C90 6.3.2.2, 6.6.6.4).
ghost use Rattle.std.specs.Prelude.{IfOk, ◌≡◌};
ghost use Rattle.c65_base.specs.Answers.{Gives};
ghost use Rattle.c65_ctype.specs.Views.{ty_of, types_of};
ghost use Rattle.c65_csem.specs.Views.{typed_of};
ghost use Rattle.c65_elab_convert.specs.Structures as structures;

use crate::waiting::beside;
use c65_base::{Code, Pos, Refusal, boxed_beside};
use c65_csem::{TExpr, TKind, is_small, is_tag, unqualified};
use c65_ctype::{CType, Types};
use std::alloc::{AllocError, Global};

/// The bytes of a structure or union that is passed or returned. Refuses `IncompleteType`, and
/// `StructSize` where it has more than four.
pub fn structure_size(types: &Types, pos: Pos, ty: &CType) -> Result<u32, Refusal>
    ensures { Gives (λ n. n) result (structures.structure_size (types_of types.now) pos (ty_of ty.now)) }
{
    let size = types.size(ty, pos)?;
    if is_small(types, ty) {
        Ok(size)
    } else {
        Err(Refusal::fault(Code::StructSize, pos))
    }
}

/// A structure or union as it is passed or returned: its bytes in the place of where it lies.
/// Another expression stays as it is.
pub fn packed(alloc: Global, e: TExpr) -> Result<TExpr, AllocError>
    ensures { IfOk result (λ t. typed_of t ≡ structures.packed_of (typed_of e)) }
{
    if !is_tag(&e.ty.ty) {
        return Ok(e);
    }
    let (ty, e) = beside(unqualified(alloc, &e.ty), e)?;
    let (e, ty) = boxed_beside(alloc, e, ty)?;
    let kind = TKind::Pack(e);
    Ok(TExpr { ty, kind })
}

/// A structure or union as it is passed, where it has at most four bytes. Refuses as
/// `structure_size` does.
pub fn packed_in(alloc: Global, types: &Types, pos: Pos, e: TExpr) -> Result<TExpr, Refusal>
    ensures { Gives typed_of result (structures.packed_in (types_of types.now) pos (typed_of e)) }
{
    let (_, e) = beside(structure_size(types, pos, &e.ty.ty), e)?;
    Ok(packed(alloc, e)?)
}
