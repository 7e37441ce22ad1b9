// The value of an integer constant expression (C90 6.4).
ghost use Rattle.std.specs.Prelude.{◌≡◌};
ghost use Rattle.c65_ctype.specs.Views.{ty_of};
ghost use Rattle.c65_csem.specs.Views.{typed_of};
ghost use Rattle.c65_fold.specs.Compute.{is_zero};
ghost use Rattle.c65_fold.specs.Constants.{number_type, is_constant, value_of, constant_of};

use crate::compute::{binary_value, truth, unary_value};
use c65_csem::{TExpr, TKind};
use c65_ctype::CType;
use c65_ints::{IntType, wrap};

pub fn number_type(ty: &CType) -> Option<IntType>
    ensures { result ≡ number_type (ty_of ty.now) }
{
    match ty {
        CType::Int(kind) => Some(*kind),
        _ => None,
    }
}

/// Whether an expression has the form of an integer constant expression; its value may be
/// undefined. It takes no memory.
pub fn is_constant(e: &TExpr) -> bool
    ensures { result ≡ is_constant (typed_of e.now) }
{
    if number_type(&e.ty.ty).is_none() {
        return false;
    }
    match &e.kind {
        TKind::Const(_) => true,
        TKind::Convert(a) | TKind::Unary(_, a) => is_constant(a),
        TKind::Binary(_, a, b) | TKind::And(a, b) | TKind::Or(a, b) => {
            is_constant(a) && is_constant(b)
        }
        TKind::Cond(x, a, b) => is_constant(x) && is_constant(a) && is_constant(b),
        _ => false,
    }
}

/// The value of an expression of that form, where it is defined.
fn value_of(e: &TExpr) -> Option<i64>
    ensures { result ≡ value_of (typed_of e.now) }
{
    let kind = number_type(&e.ty.ty);
    match &e.kind {
        TKind::Const(z) => Some(*z),
        TKind::Convert(a) => {
            let kind = kind?;
            Some(wrap(kind, value_of(a)?))
        }
        TKind::Unary(op, a) => {
            let kind = kind?;
            unary_value(*op, kind, value_of(a)?)
        }
        TKind::Binary(op, a, b) => {
            let kind = kind?;
            let x = value_of(a)?;
            let y = value_of(b)?;
            binary_value(*op, kind, x, y)
        }
        TKind::And(a, b) => {
            if value_of(a)? == 0 {
                Some(truth(false))
            } else {
                Some(truth(value_of(b)? != 0))
            }
        }
        TKind::Or(a, b) => {
            if value_of(a)? == 0 {
                Some(truth(value_of(b)? != 0))
            } else {
                Some(truth(true))
            }
        }
        TKind::Cond(x, a, b) => {
            if value_of(x)? == 0 {
                value_of(b)
            } else {
                value_of(a)
            }
        }
        _ => None,
    }
}

/// The value of an integer constant expression. None exactly where the tree is no such expression,
/// or its value is undefined: a division by zero, or a shift by a count that is negative or not
/// below the width, unless it is not evaluated. It takes no memory.
pub fn constant(e: &TExpr) -> Option<i64>
    ensures { result ≡ constant_of (typed_of e.now) }
{
    if is_constant(e) { value_of(e) } else { None }
}
