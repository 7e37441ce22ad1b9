// Calls (C90 6.3.2.2).
ghost use Rattle.std.specs.Prelude.{◌≡◌, option_map, option_copied};
ghost use Rattle.c65_ctype.specs.Views.{ty_of, qty_of, qtys_of, fn_of, types_of};
ghost use Rattle.c65_csem.specs.Views.{typed_of, nodes_of};
ghost use Rattle.c65_csem_check.specs.Expressions;

use crate::sizes::flat_bytes;
use crate::types::{is_plain_of, passes};
use c65_csem::TExpr;
use c65_ctype::{CType, FnType, QType, Types};

/// Whether a call without a prototype passes these arguments.
fn are_passed(types: &Types, arguments: &[TExpr]) -> bool
    ensures { result ≡ Expressions.are_passed (types_of types.now) (nodes_of arguments.now) }
{
    for argument in arguments {
        if !passes(types, &argument.ty) {
            return false;
        }
    }
    true
}

/// Whether a call with a prototype passes these arguments.
fn are_given(types: &Types, parameters: &[QType], variadic: bool, arguments: &[TExpr]) -> bool
    ensures { result ≡ Expressions.are_given (types_of types.now) (qtys_of parameters.now) variadic (nodes_of arguments.now) }
{
    for (i, parameter) in parameters.iter().enumerate() {
        let Some(argument) = arguments.get(i) else {
            return false;
        };
        if !is_plain_of(&argument.ty, parameter) {
            return false;
        }
    }
    if variadic {
        are_passed(types, &arguments[parameters.len()..])
    } else {
        parameters.len() == arguments.len()
    }
}

fn fits(types: &Types, function: &FnType, arguments: &[TExpr]) -> bool
    ensures { result ≡ Expressions.fits_fn (types_of types.now) (fn_of function.now) (nodes_of arguments.now) }
{
    match &function.params {
        Some(parameters) => are_given(types, parameters, function.variadic, arguments),
        None => are_passed(types, arguments),
    }
}

/// Whether the arguments have at most 250 bytes.
fn are_few(types: &Types, arguments: &[TExpr]) -> bool
    ensures { result ≡ Expressions.are_few (types_of types.now) (nodes_of arguments.now) }
{
    let mut left: u32 = 250;
    for argument in arguments {
        let bytes = flat_bytes(types, &argument.ty.ty);
        if bytes > left {
            return false;
        }
        left -= bytes;
    }
    true
}

fn is_call_of(types: &Types, function: &FnType, ty: &QType, arguments: &[TExpr]) -> bool
    ensures { result ≡ Expressions.calls (types_of types.now) (fn_of function.now) (qty_of ty.now) (nodes_of arguments.now) }
{
    is_plain_of(ty, &function.result)
        && fits(types, function, arguments)
        && are_few(types, arguments)
}

fn callee_in(ty: &CType) -> Option<&FnType>
    ensures { option_map fn_of (option_copied result) ≡ Expressions.callee_in (ty_of ty.now) }
{
    match ty {
        CType::Pointer(target) => {
            if target.is_const || target.is_volatile {
                return None;
            }
            match &target.ty {
                CType::Function(function) => Some(&**function),
                _ => None,
            }
        }
        _ => None,
    }
}

/// The function that a pointer without qualifiers points to.
fn callee_of(q: &QType) -> Option<&FnType>
    ensures { option_map fn_of (option_copied result) ≡ Expressions.callee_of (qty_of q.now) }
{
    if q.is_const || q.is_volatile {
        None
    } else {
        callee_in(&q.ty)
    }
}

fn call_by(types: &Types, function: Option<&FnType>, ty: &QType, arguments: &[TExpr]) -> bool
    ensures { result ≡ Expressions.call_by (types_of types.now) (option_map fn_of (option_copied function.entry)) (qty_of ty.now) (nodes_of arguments.now) }
{
    match function {
        Some(function) => is_call_of(types, function, ty, arguments),
        None => false,
    }
}

/// Whether a call of this type meets its rule.
pub fn is_call(types: &Types, ty: &QType, function: &TExpr, arguments: &[TExpr]) -> bool
    ensures { result ≡ Expressions.is_call (types_of types.now) (qty_of ty.now) (typed_of function.now) (nodes_of arguments.now) }
{
    !function.is_place() && call_by(types, callee_of(&function.ty), ty, arguments)
}
