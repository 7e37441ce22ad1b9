// Whether the members that an expression names lie in their structures, and its pointers move by bytes.
ghost use Rattle.std.specs.Prelude.{◌≡◌, ◌&&◌};
ghost use Rattle.c65_ctype.specs.Views.{ty_of, types_of};
ghost use Rattle.c65_csem.specs.Views.{typed_of, nodes_of, maybe_of};
ghost use Rattle.c65_csem_plain.specs.Tests;

use crate::members::{has_step, lies_in};
use c65_base::BinaryOp;
use c65_csem::{TExpr, TKind};
use c65_ctype::{CType, Types};

fn are_both(a: bool, b: bool) -> bool
    ensures { result ≡ (a && b) }
{
    a && b
}

fn has_steps(types: &Types, op: BinaryOp, left: &CType, right: &CType) -> bool
    ensures { result ≡ Tests.has_steps (types_of types.now) op (ty_of left.now) (ty_of right.now) }
{
    match op {
        BinaryOp::Add | BinaryOp::Sub => has_step(types, left) && has_step(types, right),
        _ => true,
    }
}

#[cycle(exprs)]
pub fn is_plain_in(types: &Types, e: &TExpr) -> bool
    ensures { result ≡ Tests.is_plain_in (types_of types.now) (typed_of e.now) }
{
    match &e.kind {
        TKind::Const(_) | TKind::Null | TKind::Literal(_) | TKind::Object(_) | TKind::Func(_) =>
            true,
        TKind::Rest => true,
        TKind::Member(a, member) => lies_in(types, *member, &a.ty.ty) && is_plain_in(types, a),
        TKind::Deref(a)
        | TKind::Load(a)
        | TKind::Address(a)
        | TKind::Decay(a)
        | TKind::Convert(a)
        | TKind::Unary(_, a)
        | TKind::Pack(a)
        | TKind::Spill(_, a) => is_plain_in(types, a),
        TKind::Step(_, a) => has_step(types, &e.ty.ty) && is_plain_in(types, a),
        TKind::Binary(op, a, b) => {
            has_steps(types, *op, &a.ty.ty, &b.ty.ty)
                && is_plain_in(types, a)
                && is_plain_in(types, b)
        }
        TKind::AssignStep(_, a, b) => {
            has_step(types, &e.ty.ty) && is_plain_in(types, a) && is_plain_in(types, b)
        }
        TKind::And(a, b)
        | TKind::Or(a, b)
        | TKind::Comma(a, b)
        | TKind::Assign(a, b)
        | TKind::AssignOp(_, _, a, b)
        | TKind::Copy(a, b) => is_plain_in(types, a) && is_plain_in(types, b),
        TKind::Cond(x, a, b) => {
            is_plain_in(types, x) && is_plain_in(types, a) && is_plain_in(types, b)
        }
        TKind::Call(function, arguments) => {
            let callee: &TExpr = function;
            let given: &[TExpr] = arguments;
            let a = is_plain_in(types, callee);
            let b = are_plain_in(types, given);
            are_both(a, b)
        }
    }
}

#[cycle(exprs)]
fn are_plain_in(types: &Types, arguments: &[TExpr]) -> bool
    ensures { result ≡ Tests.are_plain_in (types_of types.now) (nodes_of arguments.now) }
{
    for argument in arguments {
        if !is_plain_in(types, argument) {
            return false;
        }
    }
    true
}

pub fn is_plain_maybe(types: &Types, e: &Option<TExpr>) -> bool
    ensures { result ≡ Tests.is_plain_maybe (types_of types.now) (maybe_of e.now) }
{
    match e {
        Some(e) => is_plain_in(types, e),
        None => true,
    }
}
