// Statements (C90 6.6).
ghost use Rattle.std.specs.Prelude.{◌≡◌, IfOk, map};
ghost use Rattle.c65_base.specs.Answers.{Gives};
ghost use Rattle.c65_ctype.specs.Trees.{type_in};
ghost use Rattle.c65_ctype.specs.Views.{qty_of};
ghost use Rattle.c65_csem.specs.Trees as n;
ghost use Rattle.c65_csem.specs.Views.{typed_of, stmt_of};
ghost use Rattle.c65_elab_scope.specs.Scopes.{scope_of};
ghost use Rattle.c65_tree.specs.Trees as t;
ghost use Rattle.c65_tree.specs.Trees.{no_stmts};
ghost use Rattle.c65_tree.specs.View as v;
ghost use Rattle.c65_init.specs.Bodies.{body_of};
ghost use Rattle.c65_init.specs.Statements.{kind_in, head_of, case_in, head_in, switched_on, statement_of, block_in};

use crate::body::{
    Body, case_value, close_loop, close_switch, default_label, label_number, named_label,
    open_loop, open_switch, within_any, within_loop,
};
use crate::declare::block_locals;
use crate::values::{folded, given, maybe_test, maybe_unused, test, unused};
use c65_base::{Name, Pos, Refusal, boxed_beside, boxed_pair};
use c65_csem::{TExpr, TStmt};
use c65_ctype::CType;
use c65_elab::{elab_expr, value_at};
use c65_elab_convert::switch_value;
use c65_elab_scope::Scope;
use c65_ints::IntType;
use c65_tree::{Decl, Expr, Stmt, StmtKind};
use std::alloc::{AllocError, Global};

/// What stands between the parentheses of a `for`.
#[derive(Drop)]
pub struct Head {
    pub first: Option<TExpr>,
    pub until: Option<TExpr>,
    pub next: Option<TExpr>,
}

fn kind_of(e: &TExpr) -> IntType
    ensures { result ≡ kind_in (type_in (qty_of e.now.ty)) }
{
    match &e.ty.ty {
        CType::Int(kind) => *kind,
        CType::Void
        | CType::Pointer(_)
        | CType::Array(_, _)
        | CType::Struct(_)
        | CType::Function(_) => IntType::Int,
    }
}

/// The value of a case label, which is entered into its switch.
#[tactic(auto, using(crate::proofs::Places::place_at))]
fn case_label(
    alloc: Global,
    scope: &mut Scope,
    body: &mut Body,
    e: &Expr,
    pos: Pos,
) -> Result<i64, Refusal>
    ensures { Gives (λ z. ((z, body_of body.new), scope_of scope.new)) result (case_in (v.expr_of e.now) pos (body_of body.old) (scope_of scope.old)) }
{
    let typed = elab_expr(alloc, scope, e)?;
    let known = value_at(&typed, e.pos)?;
    case_value(body, known, pos)
}

fn for_head(
    alloc: Global,
    scope: &mut Scope,
    first: &Option<Expr>,
    until: &Option<Expr>,
    next: &Option<Expr>,
    pos: Pos,
) -> Result<Head, Refusal>
    ensures { Gives (λ x. (head_of x, scope_of scope.new)) result (head_in (v.maybe v.expr_of first.now) (v.maybe v.expr_of until.now) (v.maybe v.expr_of next.now) pos (scope_of scope.old)) }
{
    let first = maybe_unused(alloc, scope, first)?;
    let until = match maybe_test(alloc, scope, until, pos) {
        Ok(until) => until,
        Err(error) => {
            drop(first);
            return Err(error);
        }
    };
    match maybe_unused(alloc, scope, next) {
        Ok(next) => Ok(Head { first, until, next }),
        Err(error) => {
            drop(until);
            drop(first);
            Err(error)
        }
    }
}

/// The value on which a switch depends.
fn switched_on(alloc: Global, scope: &mut Scope, e: &Expr, pos: Pos) -> Result<TExpr, Refusal>
    ensures { Gives (λ x. (typed_of x, scope_of scope.new)) result (switched_on (v.expr_of e.now) pos (scope_of scope.old)) }
{
    let typed = elab_expr(alloc, scope, e)?;
    Ok(folded(switch_value(alloc, scope.types(), pos, typed)?))
}

/// An `if` statement of its parts.
fn if_stmt(alloc: Global, e: TExpr, inner: TStmt, other: TStmt) -> Result<TStmt, AllocError>
    ensures { IfOk result (λ x. stmt_of x ≡ n.if_stmt (typed_of e) (stmt_of inner) (stmt_of other)) }
{
    match boxed_pair(alloc, inner, other) {
        Ok((inner, other)) => Ok(TStmt::If(e, inner, other)),
        Err(error) => {
            drop(e);
            Err(error)
        }
    }
}

/// A statement.
#[cycle(statement)]
pub fn statement(
    alloc: Global,
    scope: &mut Scope,
    body: &mut Body,
    stmt: &Stmt,
) -> Result<TStmt, Refusal>
    ensures { Gives (λ x. ((stmt_of x, body_of body.new), scope_of scope.new)) result (statement_of (v.stmt_of stmt.now) (body_of body.old) (scope_of scope.old)) }
{
    let pos = stmt.pos;
    match &stmt.kind {
        StmtKind::Label(name, inner) => labelled(alloc, scope, body, inner, *name, pos),
        StmtKind::Case(e, inner) => case(alloc, scope, body, inner, e, pos),
        StmtKind::Default(inner) => default(alloc, scope, body, inner, pos),
        StmtKind::Block(decls, stmts) => {
            scope.open(false)?;
            let made = block(alloc, scope, body, stmts, decls)?;
            scope.close();
            Ok(made)
        }
        StmtKind::Eval(e) => match e {
            None => Ok(TStmt::Empty),
            Some(e) => Ok(TStmt::Eval(unused(alloc, scope, e)?)),
        },
        StmtKind::If(e, a, b) => {
            let e = test(alloc, scope, e, pos)?;
            let inner = match statement(alloc, scope, body, a) {
                Ok(inner) => inner,
                Err(error) => {
                    drop(e);
                    return Err(error);
                }
            };
            match b {
                None => Ok(if_stmt(alloc, e, inner, TStmt::Empty)?),
                Some(b) => match statement(alloc, scope, body, b) {
                    Ok(other) => Ok(if_stmt(alloc, e, inner, other)?),
                    Err(error) => {
                        drop(inner);
                        drop(e);
                        Err(error)
                    }
                },
            }
        }
        StmtKind::Switch(e, inner) => switch(alloc, scope, body, inner, e, pos),
        StmtKind::While(e, inner) => while_loop(alloc, scope, body, inner, e, pos),
        StmtKind::DoWhile(inner, e) => do_loop(alloc, scope, body, inner, e, pos),
        StmtKind::For(first, until, next, inner) => {
            for_loop(alloc, scope, body, inner, first, until, next, pos)
        }
        StmtKind::Goto(name) => Ok(TStmt::Goto(named_label(body, *name, pos)?)),
        StmtKind::Continue => {
            within_loop(body, pos)?;
            Ok(TStmt::Continue)
        }
        StmtKind::Break => {
            within_any(body, pos)?;
            Ok(TStmt::Break)
        }
        StmtKind::Return(e) => Ok(TStmt::Return(given(alloc, scope, &body.gives.ty, e, pos)?)),
    }
}

/// A statement with a label.
#[cycle(statement)]
fn labelled(
    alloc: Global,
    scope: &mut Scope,
    body: &mut Body,
    stmt: &Stmt,
    name: Name,
    pos: Pos,
) -> Result<TStmt, Refusal>
    ensures { Gives (λ x. ((stmt_of x, body_of body.new), scope_of scope.new)) result (statement_of (t.label pos name (v.stmt_of stmt.now)) (body_of body.old) (scope_of scope.old)) }
{
    let number = label_number(body, name, pos)?;
    let inner = statement(alloc, scope, body, stmt)?;
    Ok(TStmt::Label(number, Box::new(alloc, inner)?))
}

/// A statement with a case label.
#[cycle(statement)]
fn case(
    alloc: Global,
    scope: &mut Scope,
    body: &mut Body,
    stmt: &Stmt,
    e: &Expr,
    pos: Pos,
) -> Result<TStmt, Refusal>
    ensures { Gives (λ x. ((stmt_of x, body_of body.new), scope_of scope.new)) result (statement_of (t.case pos (v.expr_of e.now) (v.stmt_of stmt.now)) (body_of body.old) (scope_of scope.old)) }
{
    let known = case_label(alloc, scope, body, e, pos)?;
    let inner = statement(alloc, scope, body, stmt)?;
    Ok(TStmt::Case(known, Box::new(alloc, inner)?))
}

/// A statement with a default label.
#[cycle(statement)]
fn default(
    alloc: Global,
    scope: &mut Scope,
    body: &mut Body,
    stmt: &Stmt,
    pos: Pos,
) -> Result<TStmt, Refusal>
    ensures { Gives (λ x. ((stmt_of x, body_of body.new), scope_of scope.new)) result (statement_of (t.default pos (v.stmt_of stmt.now)) (body_of body.old) (scope_of scope.old)) }
{
    default_label(body, pos)?;
    let inner = statement(alloc, scope, body, stmt)?;
    Ok(TStmt::Default(Box::new(alloc, inner)?))
}

/// A switch.
#[cycle(statement)]
fn switch(
    alloc: Global,
    scope: &mut Scope,
    body: &mut Body,
    stmt: &Stmt,
    e: &Expr,
    pos: Pos,
) -> Result<TStmt, Refusal>
    ensures { Gives (λ x. ((stmt_of x, body_of body.new), scope_of scope.new)) result (statement_of (t.switch pos (v.expr_of e.now) (v.stmt_of stmt.now)) (body_of body.old) (scope_of scope.old)) }
{
    let e = switched_on(alloc, scope, e, pos)?;
    let Ok(()) = open_switch(alloc, body, kind_of(&e)) else {
        drop(e);
        return Err(Refusal::OutOfMemory);
    };
    match statement(alloc, scope, body, stmt) {
        Ok(inner) => {
            close_switch(body);
            let (inner, e) = boxed_beside(alloc, inner, e)?;
            Ok(TStmt::Switch(e, inner))
        }
        Err(error) => {
            drop(e);
            Err(error)
        }
    }
}

/// A loop that tests first.
#[cycle(statement)]
fn while_loop(
    alloc: Global,
    scope: &mut Scope,
    body: &mut Body,
    stmt: &Stmt,
    e: &Expr,
    pos: Pos,
) -> Result<TStmt, Refusal>
    ensures { Gives (λ x. ((stmt_of x, body_of body.new), scope_of scope.new)) result (statement_of (t.while pos (v.expr_of e.now) (v.stmt_of stmt.now)) (body_of body.old) (scope_of scope.old)) }
{
    let e = test(alloc, scope, e, pos)?;
    open_loop(body);
    match statement(alloc, scope, body, stmt) {
        Ok(inner) => {
            close_loop(body);
            let (inner, e) = boxed_beside(alloc, inner, e)?;
            Ok(TStmt::While(e, inner))
        }
        Err(error) => {
            drop(e);
            Err(error)
        }
    }
}

/// A loop that tests last.
#[cycle(statement)]
fn do_loop(
    alloc: Global,
    scope: &mut Scope,
    body: &mut Body,
    stmt: &Stmt,
    e: &Expr,
    pos: Pos,
) -> Result<TStmt, Refusal>
    ensures { Gives (λ x. ((stmt_of x, body_of body.new), scope_of scope.new)) result (statement_of (t.do_while pos (v.stmt_of stmt.now) (v.expr_of e.now)) (body_of body.old) (scope_of scope.old)) }
{
    open_loop(body);
    let inner = statement(alloc, scope, body, stmt)?;
    close_loop(body);
    match test(alloc, scope, e, pos) {
        Ok(e) => {
            let (inner, e) = boxed_beside(alloc, inner, e)?;
            Ok(TStmt::DoWhile(inner, e))
        }
        Err(error) => {
            drop(inner);
            Err(error)
        }
    }
}

/// A loop with a head of three parts.
#[cycle(statement)]
fn for_loop(
    alloc: Global,
    scope: &mut Scope,
    body: &mut Body,
    stmt: &Stmt,
    first: &Option<Expr>,
    until: &Option<Expr>,
    next: &Option<Expr>,
    pos: Pos,
) -> Result<TStmt, Refusal>
    ensures { Gives (λ x. ((stmt_of x, body_of body.new), scope_of scope.new)) result (statement_of (t.for pos (v.maybe v.expr_of first.now) (v.maybe v.expr_of until.now) (v.maybe v.expr_of next.now) (v.stmt_of stmt.now)) (body_of body.old) (scope_of scope.old)) }
{
    let head = for_head(alloc, scope, first, until, next, pos)?;
    open_loop(body);
    match statement(alloc, scope, body, stmt) {
        Ok(inner) => {
            close_loop(body);
            let (inner, head) = boxed_beside(alloc, inner, head)?;
            Ok(TStmt::For(head.first, head.until, head.next, inner))
        }
        Err(error) => {
            drop(head);
            Err(error)
        }
    }
}

/// What stands in a block: declarations, and then statements.
#[cycle(statement)]
pub fn block(
    alloc: Global,
    scope: &mut Scope,
    body: &mut Body,
    stmts: &[Stmt],
    decls: &[Decl],
) -> Result<TStmt, Refusal>
    ensures { Gives (λ x. ((stmt_of x, body_of body.new), scope_of scope.new)) result (block_in (map v.decl_of decls.now) (v.stmts_from no_stmts stmts.now) (body_of body.old) (scope_of scope.old)) }
{
    let mut locals = block_locals(alloc, scope, decls)?;
    for stmt in stmts {
        let typed = statement(alloc, scope, body, stmt)?;
        locals.stmts.push(typed)?;
    }
    Ok(TStmt::block(locals.objects, locals.stmts))
}
