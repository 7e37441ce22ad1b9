// Which of two operands takes the type of the other one (C90 6.3.9, 6.3.15).
ghost use Rattle.std.specs.Prelude.{◌≡◌, IfOk};
ghost use Rattle.c65_ctype.specs.Views.{qty_of, types_of};
ghost use Rattle.c65_csem.specs.Views.{typed_of};
ghost use Rattle.c65_elab_convert.specs.Pairs as pairs;

use crate::classes::is_void;
use crate::pointers::{agree, is_null, meet_in_void};
use c65_csem::TExpr;
use c65_ctype::{CType, QType, Types};
use std::alloc::{AllocError, Global};

/// How two values, of which at least one is no integer, come together.
#[derive(Clone, Copy)]
pub(crate) enum Match {
    /// They point to compatible types.
    Both,
    /// The left one takes the type of the right one.
    Left,
    /// The right one takes the type of the left one.
    Right,
    Neither,
}

/// Two pointers of which none is a null pointer constant.
fn match_in_void(a: &QType, b: &QType) -> Match
    ensures { result ≡ pairs.match_in_void (qty_of a.now) (qty_of b.now) }
{
    if !meet_in_void(a, b) {
        Match::Neither
    } else if is_void(&a.ty) {
        Match::Right
    } else {
        Match::Left
    }
}

/// Two values, of which at least one is no integer.
pub(crate) fn match_pair(
    alloc: Global,
    types: &Types,
    a: &TExpr,
    b: &TExpr,
) -> Result<Match, AllocError>
    ensures { IfOk result (λ m. m ≡ pairs.match_of (types_of types.now) (typed_of a.now) (typed_of b.now)) }
{
    match (&a.ty.ty, &b.ty.ty) {
        (CType::Pointer(q), CType::Pointer(r)) => {
            if agree(alloc, types, q, r)? {
                Ok(Match::Both)
            } else if is_null(a) {
                Ok(Match::Left)
            } else if is_null(b) {
                Ok(Match::Right)
            } else {
                Ok(match_in_void(q, r))
            }
        }
        (CType::Pointer(_), CType::Int(_)) => {
            if is_null(b) {
                Ok(Match::Right)
            } else {
                Ok(Match::Neither)
            }
        }
        (CType::Int(_), CType::Pointer(_)) => {
            if is_null(a) {
                Ok(Match::Left)
            } else {
                Ok(Match::Neither)
            }
        }
        _ => Ok(Match::Neither),
    }
}
