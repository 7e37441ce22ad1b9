// Null pointer constants, and what two pointers point to (C90 6.2.2.3, 6.3.16.1).
ghost use Rattle.std.specs.Prelude.{◌≡◌, IfOk};
ghost use Rattle.c65_base.specs.Answers.{Gives};
ghost use Rattle.c65_ctype.specs.Views.{ty_of, qty_of, types_of};
ghost use Rattle.c65_csem.specs.Views.{typed_of};
ghost use Rattle.c65_elab_convert.specs.Pointers as pointers;

use crate::classes::{is_function, is_void};
use c65_base::{Code, Pos, Refusal};
use c65_csem::{TExpr, TKind, unqualified};
use c65_ctype::{CType, QType, Types};
use c65_fold::constant;
use std::alloc::{AllocError, Global};

/// Whether an expression is an integer constant expression of value 0.
fn is_zero_constant(e: &TExpr) -> bool
    ensures { result ≡ pointers.is_zero_constant (typed_of e.now) }
{
    match constant(e) {
        Some(value) => value == 0,
        None => false,
    }
}

fn is_plain_void(q: &QType) -> bool
    ensures { result ≡ pointers.is_plain_void (qty_of q.now) }
{
    !q.is_const && !q.is_volatile && is_void(&q.ty)
}

/// Whether a pointer to void is made from an integer constant expression of value 0.
fn is_made_null(e: &TExpr) -> bool
    ensures { result ≡ pointers.is_made_null (typed_of e.now) }
{
    match &e.kind {
        TKind::Null => true,
        TKind::Convert(inner) => is_zero_constant(inner),
        _ => false,
    }
}

/// Whether an expression is a null pointer constant (C90 6.2.2.3): an integer constant expression
/// of value 0, or such an expression cast to `void *`.
pub fn is_null(e: &TExpr) -> bool
    ensures { result ≡ pointers.is_null (typed_of e.now) }
{
    match &e.ty.ty {
        CType::Int(_) => is_zero_constant(e),
        CType::Pointer(target) => is_plain_void(target) && is_made_null(e),
        _ => false,
    }
}

/// Whether two types are compatible without their qualifiers.
pub(crate) fn agree(alloc: Global, types: &Types, a: &QType, b: &QType) -> Result<bool, AllocError>
    ensures { IfOk result (λ same. same ≡ pointers.agree (types_of types.now) (qty_of a.now) (qty_of b.now)) }
{
    let a = unqualified(alloc, a)?;
    let b = unqualified(alloc, b)?;
    match types.compatible(&a, &b) {
        Ok(same) => Ok(same),
        Err(_) => Err(AllocError),
    }
}

/// Whether one of two types is void and the other an object or incomplete type.
pub(crate) fn meet_in_void(a: &QType, b: &QType) -> bool
    ensures { result ≡ pointers.meet_in_void (qty_of a.now) (qty_of b.now) }
{
    (is_void(&a.ty) && !is_function(&b.ty)) || (is_void(&b.ty) && !is_function(&a.ty))
}

/// Whether a type has all the qualifiers of another one.
pub(crate) fn has_qualifiers(a: &QType, b: &QType) -> bool
    ensures { result ≡ pointers.has_qualifiers (qty_of a.now) (qty_of b.now) }
{
    (a.is_const || !b.is_const) && (a.is_volatile || !b.is_volatile)
}

/// The bytes of what a pointer points to, which is to be moved. Refuses `IncompleteType` where that
/// has no size.
pub(crate) fn target_size(types: &Types, pos: Pos, e: &TExpr) -> Result<u32, Refusal>
    ensures { Gives (λ n. n) result (pointers.target_size (types_of types.now) pos (typed_of e.now)) }
{
    match &e.ty.ty {
        CType::Pointer(target) => types.size(&target.ty, pos),
        _ => Err(Refusal::fault(Code::Operands, pos)),
    }
}
