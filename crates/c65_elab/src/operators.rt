// Operators that ask the scope, or that are several in one construct.
ghost use Rattle.std.specs.Prelude.{◌≡◌};
ghost use Rattle.c65_base.specs.Answers.{Gives};
ghost use Rattle.c65_ctype.specs.Views.{types_of};
ghost use Rattle.c65_csem.specs.Views.{typed_of, nodes_of};
ghost use Rattle.c65_elab.specs.Places.{firsts_of};
ghost use Rattle.c65_tree.specs.Trees.{no_exprs};
ghost use Rattle.c65_tree.specs.View.{exprs_from};
ghost use Rattle.c65_elab_scope.specs.Scopes.{scope_of};
ghost use Rattle.c65_elab.specs.Operators.{is_register_class, is_register, on_place, assigning, spilled, called};

use crate::places::firsts;
use c65_base::{BinaryOp, Pos, Refusal, UnaryOp, boxed_beside};
use c65_csem::{Class, TExpr, TKind, is_tag};
use c65_ctype::Types;
use c65_elab_convert::{assign, assign_op, beside, call, unary};
use c65_elab_scope::Scope;
use c65_tree::Expr;
use std::alloc::Global;

fn is_register_class(class: Class) -> bool
    ensures { result ≡ is_register_class class }
{
    match class {
        Class::Register => true,
        _ => false,
    }
}

/// Whether an expression names an object of class register, or a part of one (C90 6.5.1).
fn is_register(scope: &Scope, e: &TExpr) -> bool
    ensures { result ≡ is_register (scope_of scope.now) (typed_of e.now) }
{
    match &e.kind {
        TKind::Object(number) => match scope.object(*number) {
            Some(object) => is_register_class(object.class),
            None => false,
        },
        TKind::Member(object, _) => is_register(scope, object),
        _ => false,
    }
}

/// An operator of one operand (C90 6.3.3).
pub fn on_place(
    alloc: Global,
    scope: &Scope,
    pos: Pos,
    op: UnaryOp,
    e: TExpr,
) -> Result<TExpr, Refusal>
    ensures { Gives typed_of result (on_place (scope_of scope.now) pos op (typed_of e)) }
{
    let register = is_register(scope, &e);
    unary(alloc, scope.types(), pos, op, register, e)
}

/// An assignment, which is compound where there is an operator (C90 6.3.16).
pub fn assigning(
    alloc: Global,
    types: &Types,
    pos: Pos,
    op: Option<BinaryOp>,
    a: TExpr,
    b: TExpr,
) -> Result<TExpr, Refusal>
    ensures { Gives typed_of result (assigning (types_of types.now) pos op (typed_of a) (typed_of b)) }
{
    match op {
        None => assign(alloc, types, pos, a, b),
        Some(op) => assign_op(alloc, types, pos, op, a, b),
    }
}

/// What a call gives: a structure or union is stored in an object without a name (C90 6.3.2.2). It
/// refuses for memory alone.
fn spilled(alloc: Global, scope: &mut Scope, e: TExpr) -> Result<TExpr, Refusal>
    ensures { Gives (λ x. (typed_of x, scope_of scope.new)) result (spilled (scope_of scope.old) (typed_of e)) }
{
    if !is_tag(&e.ty.ty) {
        return Ok(e);
    }
    let (own, e) = beside(e.ty.copy(alloc), e)?;
    let (ty, e) = beside(e.ty.copy(alloc), e)?;
    let (number, (ty, e)) = beside(scope.add_spill(own), (ty, e))?;
    let (e, ty) = boxed_beside(alloc, e, ty)?;
    let kind = TKind::Spill(number, e);
    Ok(TExpr { ty, kind })
}

/// A call of what is typed already, whose arguments are these expressions (C90 6.3.2.2).
pub fn called(
    alloc: Global,
    scope: &mut Scope,
    pos: Pos,
    list: &[Expr],
    f: TExpr,
    arguments: Vec<TExpr>,
) -> Result<TExpr, Refusal>
    ensures { Gives (λ e. (typed_of e, scope_of scope.new)) result (called (scope_of scope.old) pos (firsts_of (exprs_from no_exprs list.now)) (typed_of f) (nodes_of arguments.items)) }
{
    let (firsts, (f, arguments)) = beside(firsts(alloc, list), (f, arguments))?;
    let e = call(alloc, scope.types(), pos, &firsts, f, arguments)?;
    spilled(alloc, scope, e)
}
