// Expressions with their depth beside them.
ghost use Rattle.std.specs.Prelude.{◌≡◌, ◌+◌, IfOk, min, nat_le};
ghost use Rattle.c65_tree.specs.Trees;
ghost use Rattle.c65_tree.specs.Trees.{no_exprs, and_expr};
ghost use Rattle.c65_tree.specs.Depth.{expr_depth, exprs_depth};
ghost use Rattle.c65_tree.specs.View.{expr_of, exprs_from, type_of};
ghost use Rattle.c65_parse_trees.specs.Levels.{level_of};
ghost use Rattle.c65_parse_trees.specs.Plugs.{infix_tree, prefix_tree};

use crate::measured::{MeasuredExpr, MeasuredExprs, MeasuredType};
use crate::operator::{Infix, Prefix, binary_level, step_level};
use c65_base::{Name, Pos, StepKind, Text as Bytes};
use c65_ints::IntType;
use c65_tree::{Expr, ExprKind, with_expr};
use std::alloc::{AllocError, Global};

impl MeasuredExprs {
    pub fn new(alloc: Global) -> MeasuredExprs
        ensures { exprs_from no_exprs result.exprs.items ≡ no_exprs }
    {
        MeasuredExprs {
            exprs: Vec::new(alloc),
            depth: 0,
        }
    }

    pub fn with(self, e: MeasuredExpr) -> Result<MeasuredExprs, AllocError>
        ensures { IfOk result (λ r. exprs_from no_exprs r.exprs.items ≡ and_expr (exprs_from no_exprs self.exprs.items) (expr_of e.expr)) }
    {
        let depth = self.depth.max(e.depth);
        let exprs = with_expr(self.exprs, e.expr)?;
        Ok(MeasuredExprs { exprs, depth })
    }
}

impl MeasuredExpr {
    /// Whether a node over this expression, with so many constructs open round it, keeps the limit.
    pub fn fits(&self, around: usize, limit: u16) -> bool
        ensures { result ≡ nat_le (expr_depth (expr_of self.now.expr) + (around + 1)) limit }
    {
        let limit = limit as usize;
        around < limit && (self.depth as usize) < limit - around
    }

    pub fn level(&self) -> u32
        ensures { result ≡ level_of (expr_of self.now.expr) }
    {
        match &self.expr.kind {
            ExprKind::Step(how, _) => step_level(*how),
            ExprKind::Unary(_, _) | ExprKind::SizeofExpr(_) | ExprKind::SizeofType(_) => 14,
            ExprKind::Cast(_, _) => 13,
            ExprKind::Binary(op, _, _) => binary_level(*op),
            ExprKind::And(_, _) => 4,
            ExprKind::Or(_, _) => 3,
            ExprKind::Cond(_, _, _) => 2,
            ExprKind::Assign(_, _, _) => 1,
            ExprKind::Comma(_, _) => 0,
            ExprKind::Name(_) => 15,
            ExprKind::Number(_, _) => 15,
            ExprKind::Text(_) => 15,
            ExprKind::Paren(_) => 15,
            ExprKind::Index(_, _) => 15,
            ExprKind::Call(_, _) => 15,
            ExprKind::Member(_, _, _) => 15,
        }
    }

    pub fn name(pos: Pos, name: Name) -> MeasuredExpr
        ensures { expr_of result.expr ≡ Trees.name pos name }
    {
        MeasuredExpr {
            expr: Expr::name(pos, name),
            depth: 1,
        }
    }

    pub fn number(pos: Pos, ty: IntType, value: u32) -> MeasuredExpr
        ensures { expr_of result.expr ≡ Trees.number pos ty value }
    {
        MeasuredExpr {
            expr: Expr::number(pos, ty, value),
            depth: 1,
        }
    }

    pub fn text(alloc: Global, pos: Pos, bytes: &Bytes) -> Result<MeasuredExpr, AllocError>
        ensures { IfOk result (λ r. expr_of r.expr ≡ Trees.text pos bytes.now) }
    {
        let bytes = bytes.copy(alloc)?;
        Ok(MeasuredExpr {
            expr: Expr::text(pos, bytes),
            depth: 1,
        })
    }

    pub fn paren(alloc: Global, pos: Pos, e: MeasuredExpr) -> Result<MeasuredExpr, AllocError>
        ensures { IfOk result (λ r. expr_of r.expr ≡ Trees.paren pos (expr_of e.expr)) }
    {
        let depth = e.depth.saturating_add(1);
        let expr = Expr::paren(alloc, pos, e.expr)?;
        Ok(MeasuredExpr { expr, depth })
    }

    pub fn index(
        alloc: Global,
        pos: Pos,
        a: MeasuredExpr,
        i: MeasuredExpr,
    ) -> Result<MeasuredExpr, AllocError>
        ensures { IfOk result (λ r. expr_of r.expr ≡ Trees.index pos (expr_of a.expr) (expr_of i.expr)) }
    {
        let depth = a.depth.max(i.depth).saturating_add(1);
        let expr = Expr::index(alloc, pos, a.expr, i.expr)?;
        Ok(MeasuredExpr { expr, depth })
    }

    pub fn call(
        alloc: Global,
        pos: Pos,
        f: MeasuredExpr,
        arguments: MeasuredExprs,
    ) -> Result<MeasuredExpr, AllocError>
        ensures { IfOk result (λ r. expr_of r.expr ≡ Trees.call pos (expr_of f.expr) (exprs_from no_exprs arguments.exprs.items)) }
    {
        let depth = f.depth.max(arguments.depth).saturating_add(1);
        let expr = Expr::call(alloc, pos, f.expr, arguments.exprs)?;
        Ok(MeasuredExpr { expr, depth })
    }

    /// A member; the flag says that it is reached by `->`.
    pub fn member(
        alloc: Global,
        pos: Pos,
        e: MeasuredExpr,
        arrow: bool,
        name: Name,
    ) -> Result<MeasuredExpr, AllocError>
        ensures { IfOk result (λ r. expr_of r.expr ≡ Trees.member pos (expr_of e.expr) arrow name) }
    {
        let depth = e.depth.saturating_add(1);
        let expr = Expr::member(alloc, pos, e.expr, arrow, name)?;
        Ok(MeasuredExpr { expr, depth })
    }

    pub fn step(
        alloc: Global,
        pos: Pos,
        how: StepKind,
        e: MeasuredExpr,
    ) -> Result<MeasuredExpr, AllocError>
        ensures { IfOk result (λ r. expr_of r.expr ≡ Trees.step pos how (expr_of e.expr)) }
    {
        let depth = e.depth.saturating_add(1);
        let expr = Expr::step(alloc, pos, how, e.expr)?;
        Ok(MeasuredExpr { expr, depth })
    }

    /// An operator before its operand.
    pub fn prefixed(
        alloc: Global,
        pos: Pos,
        op: Prefix,
        e: MeasuredExpr,
    ) -> Result<MeasuredExpr, AllocError>
        ensures { IfOk result (λ r. expr_of r.expr ≡ prefix_tree pos op (expr_of e.expr)) }
    {
        let depth = e.depth.saturating_add(1);
        let expr = match op {
            Prefix::Unary(unary) => Expr::unary(alloc, pos, unary, e.expr)?,
            Prefix::Step(how) => Expr::step(alloc, pos, how, e.expr)?,
            Prefix::Sizeof => Expr::sizeof_expr(alloc, pos, e.expr)?,
        };
        Ok(MeasuredExpr { expr, depth })
    }

    pub fn sizeof_type(alloc: Global, pos: Pos, t: MeasuredType) -> Result<MeasuredExpr, AllocError>
        ensures { IfOk result (λ r. expr_of r.expr ≡ Trees.sizeof_type pos (type_of t.name)) }
    {
        let depth = t.depth.saturating_add(1);
        let expr = Expr::sizeof_type(alloc, pos, t.name)?;
        Ok(MeasuredExpr { expr, depth })
    }

    pub fn cast(
        alloc: Global,
        pos: Pos,
        t: MeasuredType,
        e: MeasuredExpr,
    ) -> Result<MeasuredExpr, AllocError>
        ensures { IfOk result (λ r. expr_of r.expr ≡ Trees.cast pos (type_of t.name) (expr_of e.expr)) }
    {
        let depth = t.depth.max(e.depth).saturating_add(1);
        let expr = Expr::cast(alloc, pos, t.name, e.expr)?;
        Ok(MeasuredExpr { expr, depth })
    }

    /// An operator between its operands.
    pub fn joined(
        alloc: Global,
        pos: Pos,
        op: Infix,
        a: MeasuredExpr,
        b: MeasuredExpr,
    ) -> Result<MeasuredExpr, AllocError>
        ensures { IfOk result (λ r. expr_of r.expr ≡ infix_tree pos op (expr_of a.expr) (expr_of b.expr)) }
    {
        let depth = a.depth.max(b.depth).saturating_add(1);
        let expr = match op {
            Infix::Binary(binary) => Expr::binary(alloc, pos, binary, a.expr, b.expr)?,
            Infix::And => Expr::and_also(alloc, pos, a.expr, b.expr)?,
            Infix::Or => Expr::or_else(alloc, pos, a.expr, b.expr)?,
            Infix::Assign(binary) => Expr::assign(alloc, pos, binary, a.expr, b.expr)?,
            Infix::Comma => Expr::comma(alloc, pos, a.expr, b.expr)?,
        };
        Ok(MeasuredExpr { expr, depth })
    }

    pub fn conditional(
        alloc: Global,
        pos: Pos,
        c: MeasuredExpr,
        a: MeasuredExpr,
        b: MeasuredExpr,
    ) -> Result<MeasuredExpr, AllocError>
        ensures { IfOk result (λ r. expr_of r.expr ≡ Trees.conditional pos (expr_of c.expr) (expr_of a.expr) (expr_of b.expr)) }
    {
        let depth = c.depth.max(a.depth.max(b.depth)).saturating_add(1);
        let expr = Expr::conditional(alloc, pos, c.expr, a.expr, b.expr)?;
        Ok(MeasuredExpr { expr, depth })
    }
}
