// One function for each kind of expression: from its parts.
ghost use Rattle.std.specs.Prelude.{◌≡◌, IfOk};
ghost use Rattle.c65_tree.specs.Trees;
ghost use Rattle.c65_tree.specs.Trees.{no_exprs};
ghost use Rattle.c65_tree.specs.View.{expr_of, type_of, exprs_from};

use crate::boxes::boxed;
use crate::expr::{Expr, ExprKind, TypeName};
use c65_base::{BinaryOp, Name, Pos, StepKind, Text as Bytes, UnaryOp, boxed_beside, boxed_pair};
use c65_ints::IntType;
use std::alloc::{AllocError, Global};

impl Expr {
    pub fn name(pos: Pos, name: Name) -> Expr
        ensures { expr_of result ≡ Trees.name pos name }
    {
        let kind = ExprKind::Name(name);
        Expr { pos, kind }
    }

    pub fn number(pos: Pos, ty: IntType, value: u32) -> Expr
        ensures { expr_of result ≡ Trees.number pos ty value }
    {
        let kind = ExprKind::Number(ty, value);
        Expr { pos, kind }
    }

    pub fn text(pos: Pos, bytes: Bytes) -> Expr
        ensures { expr_of result ≡ Trees.text pos bytes }
    {
        let kind = ExprKind::Text(bytes);
        Expr { pos, kind }
    }

    pub fn paren(alloc: Global, pos: Pos, e: Expr) -> Result<Expr, AllocError>
        ensures { IfOk result (λ r. expr_of r ≡ Trees.paren pos (expr_of e)) }
    {
        let kind = ExprKind::Paren(boxed(alloc, e)?);
        Ok(Expr { pos, kind })
    }

    pub fn index(alloc: Global, pos: Pos, a: Expr, i: Expr) -> Result<Expr, AllocError>
        ensures { IfOk result (λ r. expr_of r ≡ Trees.index pos (expr_of a) (expr_of i)) }
    {
        let (a, i) = boxed_pair(alloc, a, i)?;
        let kind = ExprKind::Index(a, i);
        Ok(Expr { pos, kind })
    }

    /// A call with its arguments in order.
    pub fn call(alloc: Global, pos: Pos, f: Expr, arguments: Vec<Expr>) -> Result<Expr, AllocError>
        ensures { IfOk result (λ r. expr_of r ≡ Trees.call pos (expr_of f) (exprs_from no_exprs arguments.items)) }
    {
        let (f, arguments) = boxed_beside(alloc, f, arguments)?;
        let kind = ExprKind::Call(f, arguments);
        Ok(Expr { pos, kind })
    }

    /// A member; the flag says that it is reached by `->`.
    pub fn member(
        alloc: Global,
        pos: Pos,
        e: Expr,
        arrow: bool,
        name: Name,
    ) -> Result<Expr, AllocError>
        ensures { IfOk result (λ r. expr_of r ≡ Trees.member pos (expr_of e) arrow name) }
    {
        let kind = ExprKind::Member(boxed(alloc, e)?, arrow, name);
        Ok(Expr { pos, kind })
    }

    pub fn step(alloc: Global, pos: Pos, how: StepKind, e: Expr) -> Result<Expr, AllocError>
        ensures { IfOk result (λ r. expr_of r ≡ Trees.step pos how (expr_of e)) }
    {
        let kind = ExprKind::Step(how, boxed(alloc, e)?);
        Ok(Expr { pos, kind })
    }

    pub fn unary(alloc: Global, pos: Pos, op: UnaryOp, e: Expr) -> Result<Expr, AllocError>
        ensures { IfOk result (λ r. expr_of r ≡ Trees.unary pos op (expr_of e)) }
    {
        let kind = ExprKind::Unary(op, boxed(alloc, e)?);
        Ok(Expr { pos, kind })
    }

    pub fn sizeof_expr(alloc: Global, pos: Pos, e: Expr) -> Result<Expr, AllocError>
        ensures { IfOk result (λ r. expr_of r ≡ Trees.sizeof_expr pos (expr_of e)) }
    {
        let kind = ExprKind::SizeofExpr(boxed(alloc, e)?);
        Ok(Expr { pos, kind })
    }

    pub fn sizeof_type(alloc: Global, pos: Pos, t: TypeName) -> Result<Expr, AllocError>
        ensures { IfOk result (λ r. expr_of r ≡ Trees.sizeof_type pos (type_of t)) }
    {
        let kind = ExprKind::SizeofType(boxed(alloc, t)?);
        Ok(Expr { pos, kind })
    }

    pub fn cast(alloc: Global, pos: Pos, t: TypeName, e: Expr) -> Result<Expr, AllocError>
        ensures { IfOk result (λ r. expr_of r ≡ Trees.cast pos (type_of t) (expr_of e)) }
    {
        let (t, e) = boxed_pair(alloc, t, e)?;
        let kind = ExprKind::Cast(t, e);
        Ok(Expr { pos, kind })
    }

    pub fn binary(
        alloc: Global,
        pos: Pos,
        op: BinaryOp,
        a: Expr,
        b: Expr,
    ) -> Result<Expr, AllocError>
        ensures { IfOk result (λ r. expr_of r ≡ Trees.binary pos op (expr_of a) (expr_of b)) }
    {
        let (a, b) = boxed_pair(alloc, a, b)?;
        let kind = ExprKind::Binary(op, a, b);
        Ok(Expr { pos, kind })
    }

    /// `a && b`
    pub fn and_also(alloc: Global, pos: Pos, a: Expr, b: Expr) -> Result<Expr, AllocError>
        ensures { IfOk result (λ r. expr_of r ≡ Trees.and_also pos (expr_of a) (expr_of b)) }
    {
        let (a, b) = boxed_pair(alloc, a, b)?;
        let kind = ExprKind::And(a, b);
        Ok(Expr { pos, kind })
    }

    /// `a || b`
    pub fn or_else(alloc: Global, pos: Pos, a: Expr, b: Expr) -> Result<Expr, AllocError>
        ensures { IfOk result (λ r. expr_of r ≡ Trees.or_else pos (expr_of a) (expr_of b)) }
    {
        let (a, b) = boxed_pair(alloc, a, b)?;
        let kind = ExprKind::Or(a, b);
        Ok(Expr { pos, kind })
    }

    /// `c ? a : b`
    pub fn conditional(
        alloc: Global,
        pos: Pos,
        c: Expr,
        a: Expr,
        b: Expr,
    ) -> Result<Expr, AllocError>
        ensures { IfOk result (λ r. expr_of r ≡ Trees.conditional pos (expr_of c) (expr_of a) (expr_of b)) }
    {
        let (c, (a, b)) = boxed_beside(alloc, c, (a, b))?;
        let (a, (b, c)) = boxed_beside(alloc, a, (b, c))?;
        let (b, (a, c)) = boxed_beside(alloc, b, (a, c))?;
        let kind = ExprKind::Cond(c, a, b);
        Ok(Expr { pos, kind })
    }

    /// `a = b`, or with an operator a compound assignment.
    pub fn assign(
        alloc: Global,
        pos: Pos,
        op: Option<BinaryOp>,
        a: Expr,
        b: Expr,
    ) -> Result<Expr, AllocError>
        ensures { IfOk result (λ r. expr_of r ≡ Trees.assign pos op (expr_of a) (expr_of b)) }
    {
        let (a, b) = boxed_pair(alloc, a, b)?;
        let kind = ExprKind::Assign(op, a, b);
        Ok(Expr { pos, kind })
    }

    /// `a , b`
    pub fn comma(alloc: Global, pos: Pos, a: Expr, b: Expr) -> Result<Expr, AllocError>
        ensures { IfOk result (λ r. expr_of r ≡ Trees.comma pos (expr_of a) (expr_of b)) }
    {
        let (a, b) = boxed_pair(alloc, a, b)?;
        let kind = ExprKind::Comma(a, b);
        Ok(Expr { pos, kind })
    }
}
