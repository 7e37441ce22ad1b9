// Whether the names of an expression are in scope.
ghost use Rattle.std.specs.Prelude.{◌≡◌, ◌&&◌};
ghost use Rattle.c65_csem.specs.Views.{typed_of, nodes_of, maybe_of, unit_of};
ghost use Rattle.c65_csem_names.specs.Tests;

use crate::marks::is_in_scope;
use c65_csem::{Parts, TExpr, TKind};

fn are_both(a: bool, b: bool) -> bool
    ensures { result ≡ (a && b) }
{
    a && b
}

/// Whether an expression names only objects in scope, and further arguments only where the function has
/// some.
#[cycle(exprs)]
pub fn is_scoped_in(parts: &Parts, variadic: bool, marks: &[bool], e: &TExpr) -> bool
    ensures { result ≡ Tests.is_scoped_in (unit_of parts.now) variadic marks.now (typed_of e.now) }
{
    match &e.kind {
        TKind::Const(_) | TKind::Null | TKind::Literal(_) | TKind::Func(_) => true,
        TKind::Rest => variadic,
        TKind::Object(number) => is_in_scope(parts, marks, *number),
        TKind::Deref(a)
        | TKind::Member(a, _)
        | TKind::Load(a)
        | TKind::Address(a)
        | TKind::Decay(a)
        | TKind::Convert(a)
        | TKind::Unary(_, a)
        | TKind::Step(_, a)
        | TKind::Pack(a) => is_scoped_in(parts, variadic, marks, a),
        TKind::Binary(_, a, b)
        | TKind::And(a, b)
        | TKind::Or(a, b)
        | TKind::Comma(a, b)
        | TKind::Assign(a, b)
        | TKind::AssignOp(_, _, a, b)
        | TKind::AssignStep(_, a, b)
        | TKind::Copy(a, b) => is_scoped_in(parts, variadic, marks, a)
            && is_scoped_in(parts, variadic, marks, b),
        TKind::Cond(x, a, b) => {
            is_scoped_in(parts, variadic, marks, x)
                && is_scoped_in(parts, variadic, marks, a)
                && is_scoped_in(parts, variadic, marks, b)
        }
        TKind::Spill(number, a) => {
            is_in_scope(parts, marks, *number) && is_scoped_in(parts, variadic, marks, a)
        }
        TKind::Call(function, arguments) => {
            let callee: &TExpr = function;
            let given: &[TExpr] = arguments;
            let a = is_scoped_in(parts, variadic, marks, callee);
            let b = are_scoped_in(parts, variadic, marks, given);
            are_both(a, b)
        }
    }
}

#[cycle(exprs)]
fn are_scoped_in(parts: &Parts, variadic: bool, marks: &[bool], arguments: &[TExpr]) -> bool
    ensures { result ≡ Tests.are_scoped_in (unit_of parts.now) variadic marks.now (nodes_of arguments.now) }
{
    for argument in arguments {
        if !is_scoped_in(parts, variadic, marks, argument) {
            return false;
        }
    }
    true
}

pub fn is_scoped_maybe(parts: &Parts, variadic: bool, marks: &[bool], e: &Option<TExpr>) -> bool
    ensures { result ≡ Tests.is_scoped_maybe (unit_of parts.now) variadic marks.now (maybe_of e.now) }
{
    match e {
        Some(e) => is_scoped_in(parts, variadic, marks, e),
        None => true,
    }
}
