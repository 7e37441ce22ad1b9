// Whether an expression is well typed.
ghost use Rattle.std.specs.Prelude.{◌≡◌, ◌&&◌};
ghost use Rattle.c65_csem.specs.Views.{typed_of, nodes_of, unit_of};
ghost use Rattle.c65_csem_check.specs.Expressions;

use crate::calls::is_call;
use crate::nodes::{
    converts, is_address, is_arm, is_assign, is_assign_op, is_assign_step, is_binary, is_choice,
    is_constant, is_copy, is_decay, is_deref, is_func, is_load, is_logical, is_member, is_object,
    is_pack, is_spot, is_step, is_text, is_unary, is_value,
};
use crate::same::same;
use crate::types::{is_plain_pointer, is_plain_small, is_rest, is_usual};
use c65_csem::{Parts, TExpr, TKind};

fn are_all(a: bool, b: bool, c: bool) -> bool
    ensures { result ≡ (a && b && c) }
{
    a && b && c
}

/// Whether each node of an expression meets its rule.
#[cycle(typed)]
pub fn is_typed(parts: &Parts, e: &TExpr) -> bool
    ensures { result ≡ Expressions.is_typed (unit_of parts.now) (typed_of e.now) }
{
    let ty = &e.ty;
    let types = &parts.types;
    match &e.kind {
        TKind::Const(value) => is_constant(ty, *value),
        TKind::Null => is_plain_pointer(ty),
        TKind::Literal(number) => is_text(parts, ty, *number),
        TKind::Object(number) => is_object(parts, ty, *number),
        TKind::Func(number) => is_func(parts, ty, *number),
        TKind::Deref(a) => is_typed(parts, a) && is_deref(ty, a),
        TKind::Member(a, m) => is_typed(parts, a) && is_member(types, ty, &a.ty, *m),
        TKind::Load(a) => is_typed(parts, a) && is_load(ty, a),
        TKind::Address(a) => is_typed(parts, a) && is_address(parts, ty, a),
        TKind::Decay(a) => is_typed(parts, a) && is_decay(ty, a),
        TKind::Convert(a) => is_typed(parts, a) && converts(ty, a),
        TKind::Unary(op, a) => is_typed(parts, a) && is_unary(*op, ty, a),
        TKind::Binary(op, a, b) => {
            is_typed(parts, a) && is_typed(parts, b) && is_binary(types, *op, ty, a, b)
        }
        TKind::And(a, b) | TKind::Or(a, b) => {
            is_typed(parts, a) && is_typed(parts, b) && is_logical(ty, a, b)
        }
        TKind::Cond(x, a, b) => {
            is_typed(parts, x) && is_typed(parts, a) && is_typed(parts, b) && is_choice(ty, x, a, b)
        }
        TKind::Comma(a, b) => is_typed(parts, a) && is_typed(parts, b) && is_arm(ty, b),
        TKind::Assign(a, b) => is_typed(parts, a) && is_typed(parts, b) && is_assign(ty, a, b),
        TKind::AssignOp(op, kind, a, b) => {
            is_typed(parts, a) && is_typed(parts, b) && is_assign_op(*op, *kind, ty, a, b)
        }
        TKind::AssignStep(op, a, b) => {
            is_typed(parts, a) && is_typed(parts, b) && is_assign_step(types, *op, ty, a, b)
        }
        TKind::Step(_, a) => is_typed(parts, a) && is_step(types, ty, a),
        TKind::Copy(a, b) => is_typed(parts, a) && is_typed(parts, b) && is_copy(ty, a, b),
        TKind::Call(_, _) => is_usual(ty) && is_whole_call(parts, e),
        TKind::Pack(_) => false,
        TKind::Spill(number, a) => {
            same(&a.ty, ty)
                && is_plain_small(types, &a.ty)
                && is_whole_call(parts, a)
                && is_spot(parts, ty, *number)
        }
        TKind::Rest => is_rest(ty),
    }
}

/// Whether an expression is a call that meets its rule, whatever it gives.
#[cycle(typed)]
fn is_whole_call(parts: &Parts, e: &TExpr) -> bool
    ensures { result ≡ Expressions.is_whole_call (unit_of parts.now) (typed_of e.now) }
{
    match &e.kind {
        TKind::Call(function, arguments) => {
            let callee: &TExpr = function;
            let given: &[TExpr] = arguments;
            let a = is_typed(parts, callee);
            let b = are_typed(parts, given);
            let c = is_call(&parts.types, &e.ty, callee, given);
            are_all(a, b, c)
        }
        _ => false,
    }
}

#[cycle(typed)]
fn is_packed(parts: &Parts, e: &TExpr) -> bool
    ensures { result ≡ Expressions.is_packed (unit_of parts.now) (typed_of e.now) }
{
    match &e.kind {
        TKind::Pack(a) => is_typed(parts, a) && is_pack(&parts.types, &e.ty, a),
        _ => false,
    }
}

/// Whether an expression may be an argument or a returned value: a value, or the bytes of a structure
/// or union.
#[cycle(typed)]
pub fn is_given(parts: &Parts, e: &TExpr) -> bool
    ensures { result ≡ Expressions.is_given (unit_of parts.now) (typed_of e.now) }
{
    is_packed(parts, e) || (is_typed(parts, e) && is_value(e))
}

#[cycle(typed)]
fn are_typed(parts: &Parts, arguments: &[TExpr]) -> bool
    ensures { result ≡ Expressions.are_typed (unit_of parts.now) (nodes_of arguments.now) }
{
    for argument in arguments {
        if !is_given(parts, argument) {
            return false;
        }
    }
    true
}
