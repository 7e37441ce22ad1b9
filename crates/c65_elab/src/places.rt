// Where the arguments of a call begin.
ghost use Rattle.std.specs.Prelude.{◌≡◌, IfOk, map};
ghost use Rattle.c65_tree.specs.Trees.{no_exprs};
ghost use Rattle.c65_tree.specs.View.{expr_of, exprs_from};
ghost use Rattle.c65_elab.specs.Places.{step_first, first_of, firsts_of};

use c65_base::{Pos, StepKind};
use c65_tree::{Expr, ExprKind};
use std::alloc::{AllocError, Global};

/// The place where a step begins: `p` is that of its operator, and `q` where its operand begins.
fn step_first(how: StepKind, p: Pos, q: Pos) -> Pos
    ensures { result ≡ step_first how p q }
{
    match how {
        StepKind::PreInc | StepKind::PreDec => p,
        StepKind::PostInc | StepKind::PostDec => q,
    }
}

/// The place of an expression's first token.
fn first(expr: &Expr) -> Pos
    ensures { result ≡ first_of (expr_of expr.now) }
{
    match &expr.kind {
        ExprKind::Name(_)
        | ExprKind::Number(_, _)
        | ExprKind::Text(_)
        | ExprKind::Paren(_)
        | ExprKind::Unary(_, _)
        | ExprKind::SizeofExpr(_)
        | ExprKind::SizeofType(_)
        | ExprKind::Cast(_, _) => expr.pos,
        ExprKind::Step(how, e) => step_first(*how, expr.pos, first(e)),
        ExprKind::Index(e, _)
        | ExprKind::Call(e, _)
        | ExprKind::Member(e, _, _)
        | ExprKind::Binary(_, e, _)
        | ExprKind::And(e, _)
        | ExprKind::Or(e, _)
        | ExprKind::Cond(e, _, _)
        | ExprKind::Assign(_, e, _)
        | ExprKind::Comma(e, _) => first(e),
    }
}

/// The places where arguments begin.
pub fn firsts(alloc: Global, list: &[Expr]) -> Result<Vec<Pos>, AllocError>
    ensures { IfOk result (λ v. v.items ≡ firsts_of (exprs_from no_exprs list.now)) }
{
    let mut places = Vec::new(alloc);
    for expr in list {
        places.push(first(expr))?;
    }
    Ok(places)
}
