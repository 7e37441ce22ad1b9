// Initialisers and statements, from their parts.
ghost use Rattle.std.specs.Prelude.{◌≡◌, IfOk, map};
ghost use Rattle.c65_tree.specs.Trees;
ghost use Rattle.c65_tree.specs.Trees.{no_inits, no_stmts, no_stmt, a_stmt};
ghost use Rattle.c65_tree.specs.View.{expr_of, init_of, decl_of, stmt_of, inits_from, stmts_from, maybe};

use crate::boxes::boxed;
use crate::expr::Expr;
use crate::stmt::{Decl, InitKind, Initialiser, Stmt, StmtKind};
use c65_base::{Name, Pos, boxed_beside};
use std::alloc::{AllocError, Global};

impl Initialiser {
    pub fn value(pos: Pos, e: Expr) -> Initialiser
        ensures { init_of result ≡ Trees.value pos (expr_of e) }
    {
        let kind = InitKind::Value(e);
        Initialiser { pos, kind }
    }

    /// Initialisers in braces in their order.
    pub fn list(pos: Pos, items: Vec<Initialiser>) -> Initialiser
        ensures { init_of result ≡ Trees.list pos (inits_from no_inits items.items) }
    {
        let kind = InitKind::List(items);
        Initialiser { pos, kind }
    }
}

impl Stmt {
    pub fn label(alloc: Global, pos: Pos, name: Name, s: Stmt) -> Result<Stmt, AllocError>
        ensures { IfOk result (λ r. stmt_of r ≡ Trees.label pos name (stmt_of s)) }
    {
        let kind = StmtKind::Label(name, boxed(alloc, s)?);
        Ok(Stmt { pos, kind })
    }

    pub fn case(alloc: Global, pos: Pos, value: Expr, s: Stmt) -> Result<Stmt, AllocError>
        ensures { IfOk result (λ r. stmt_of r ≡ Trees.case pos (expr_of value) (stmt_of s)) }
    {
        let (s, value) = boxed_beside(alloc, s, value)?;
        let kind = StmtKind::Case(value, s);
        Ok(Stmt { pos, kind })
    }

    pub fn default(alloc: Global, pos: Pos, s: Stmt) -> Result<Stmt, AllocError>
        ensures { IfOk result (λ r. stmt_of r ≡ Trees.default pos (stmt_of s)) }
    {
        let kind = StmtKind::Default(boxed(alloc, s)?);
        Ok(Stmt { pos, kind })
    }

    /// Declarations, and statements behind them.
    pub fn block(pos: Pos, decls: Vec<Decl>, stmts: Vec<Stmt>) -> Stmt
        ensures { stmt_of result ≡ Trees.block pos (map decl_of decls.items) (stmts_from no_stmts stmts.items) }
    {
        let kind = StmtKind::Block(decls, stmts);
        Stmt { pos, kind }
    }

    /// An expression statement, or the empty one.
    pub fn eval(pos: Pos, e: Option<Expr>) -> Stmt
        ensures { stmt_of result ≡ Trees.eval pos (maybe expr_of e) }
    {
        let kind = StmtKind::Eval(e);
        Stmt { pos, kind }
    }

    /// An `if` without an `else`.
    pub fn if_then(alloc: Global, pos: Pos, test: Expr, s: Stmt) -> Result<Stmt, AllocError>
        ensures { IfOk result (λ r. stmt_of r ≡ Trees.if_stmt pos (expr_of test) (stmt_of s) no_stmt) }
    {
        let (s, test) = boxed_beside(alloc, s, test)?;
        let kind = StmtKind::If(test, s, None);
        Ok(Stmt { pos, kind })
    }

    pub fn if_else(
        alloc: Global,
        pos: Pos,
        test: Expr,
        s: Stmt,
        other: Stmt,
    ) -> Result<Stmt, AllocError>
        ensures { IfOk result (λ r. stmt_of r ≡ Trees.if_stmt pos (expr_of test) (stmt_of s) (a_stmt (stmt_of other))) }
    {
        let (s, (test, other)) = boxed_beside(alloc, s, (test, other))?;
        let (other, (test, s)) = boxed_beside(alloc, other, (test, s))?;
        let kind = StmtKind::If(test, s, Some(other));
        Ok(Stmt { pos, kind })
    }

    pub fn switch(alloc: Global, pos: Pos, value: Expr, s: Stmt) -> Result<Stmt, AllocError>
        ensures { IfOk result (λ r. stmt_of r ≡ Trees.switch pos (expr_of value) (stmt_of s)) }
    {
        let (s, value) = boxed_beside(alloc, s, value)?;
        let kind = StmtKind::Switch(value, s);
        Ok(Stmt { pos, kind })
    }

    pub fn while_loop(alloc: Global, pos: Pos, test: Expr, s: Stmt) -> Result<Stmt, AllocError>
        ensures { IfOk result (λ r. stmt_of r ≡ Trees.while pos (expr_of test) (stmt_of s)) }
    {
        let (s, test) = boxed_beside(alloc, s, test)?;
        let kind = StmtKind::While(test, s);
        Ok(Stmt { pos, kind })
    }

    pub fn do_while(alloc: Global, pos: Pos, s: Stmt, test: Expr) -> Result<Stmt, AllocError>
        ensures { IfOk result (λ r. stmt_of r ≡ Trees.do_while pos (stmt_of s) (expr_of test)) }
    {
        let (s, test) = boxed_beside(alloc, s, test)?;
        let kind = StmtKind::DoWhile(s, test);
        Ok(Stmt { pos, kind })
    }

    /// A `for` with what stands in its parentheses.
    pub fn for_loop(
        alloc: Global,
        pos: Pos,
        first: Option<Expr>,
        test: Option<Expr>,
        step: Option<Expr>,
        s: Stmt,
    ) -> Result<Stmt, AllocError>
        ensures { IfOk result (λ r. stmt_of r ≡ Trees.for pos (maybe expr_of first) (maybe expr_of test) (maybe expr_of step) (stmt_of s)) }
    {
        let (s, (first, test, step)) = boxed_beside(alloc, s, (first, test, step))?;
        let kind = StmtKind::For(first, test, step, s);
        Ok(Stmt { pos, kind })
    }

    pub fn goto(pos: Pos, name: Name) -> Stmt
        ensures { stmt_of result ≡ Trees.goto pos name }
    {
        let kind = StmtKind::Goto(name);
        Stmt { pos, kind }
    }

    pub fn continue_loop(pos: Pos) -> Stmt
        ensures { stmt_of result ≡ Trees.continue pos }
    {
        let kind = StmtKind::Continue;
        Stmt { pos, kind }
    }

    pub fn break_out(pos: Pos) -> Stmt
        ensures { stmt_of result ≡ Trees.break pos }
    {
        let kind = StmtKind::Break;
        Stmt { pos, kind }
    }

    /// `return`, with a value or without.
    pub fn give_back(pos: Pos, value: Option<Expr>) -> Stmt
        ensures { stmt_of result ≡ Trees.return pos (maybe expr_of value) }
    {
        let kind = StmtKind::Return(value);
        Stmt { pos, kind }
    }
}
