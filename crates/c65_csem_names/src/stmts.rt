// Whether the names of a statement are in scope.
ghost use Rattle.std.specs.Prelude.{◌≡◌, IfOk};
ghost use Rattle.c65_csem.specs.Views.{stmt_of, stmts_of, unit_of, func_of};
ghost use Rattle.c65_csem_names.specs.Tests;

use crate::exprs::{is_scoped_in, is_scoped_maybe};
use crate::marks::{enter, is_in_scope, leave};
use c65_csem::{Parts, TFunc, TStmt};
use std::alloc::{AllocError, Global};

/// Whether a statement names an automatic object only inside the object's block. Behind it the same
/// objects are in scope as before.
#[cycle(stmts)]
pub fn is_scoped(
    alloc: Global,
    parts: &Parts,
    variadic: bool,
    marks: &mut Vec<bool>,
    stmt: &TStmt,
) -> Result<bool, AllocError>
    ensures so { IfOk result (λ so. so ≡ Tests.is_scoped (unit_of parts.now) variadic marks.old.items (stmt_of stmt.now)) }
    ensures kept { IfOk result (λ so. marks.new.items ≡ marks.old.items) }
{
    match stmt {
        TStmt::Empty | TStmt::Goto(_) | TStmt::Break | TStmt::Continue => Ok(true),
        TStmt::Eval(e) => Ok(is_scoped_in(parts, variadic, marks, e)),
        TStmt::Set(number, _, e) => {
            Ok(is_in_scope(parts, marks, *number) && is_scoped_in(parts, variadic, marks, e))
        }
        TStmt::Clear(number) => Ok(is_in_scope(parts, marks, *number)),
        TStmt::Block(objects, stmts) => {
            let numbers: &[u32] = objects;
            let inner: &[TStmt] = stmts;
            let fresh = enter(alloc, marks, numbers)?;
            let so = are_scoped(alloc, parts, variadic, marks, inner)?;
            leave(marks, fresh);
            Ok(so)
        }
        TStmt::If(e, a, b) => {
            if !is_scoped_in(parts, variadic, marks, e)
                || !is_scoped(alloc, parts, variadic, marks, a)?
            {
                return Ok(false);
            }
            is_scoped(alloc, parts, variadic, marks, b)
        }
        TStmt::While(e, body) | TStmt::Switch(e, body) => {
            if !is_scoped_in(parts, variadic, marks, e) {
                return Ok(false);
            }
            is_scoped(alloc, parts, variadic, marks, body)
        }
        TStmt::DoWhile(body, e) => {
            if !is_scoped(alloc, parts, variadic, marks, body)? {
                return Ok(false);
            }
            Ok(is_scoped_in(parts, variadic, marks, e))
        }
        TStmt::For(first, test, next, body) => {
            if !is_scoped_maybe(parts, variadic, marks, first)
                || !is_scoped_maybe(parts, variadic, marks, test)
                || !is_scoped_maybe(parts, variadic, marks, next)
            {
                return Ok(false);
            }
            is_scoped(alloc, parts, variadic, marks, body)
        }
        TStmt::Case(_, body) | TStmt::Default(body) | TStmt::Label(_, body) => {
            is_scoped(alloc, parts, variadic, marks, body)
        }
        TStmt::Return(e) => Ok(is_scoped_maybe(parts, variadic, marks, e)),
    }
}

#[cycle(stmts)]
fn are_scoped(
    alloc: Global,
    parts: &Parts,
    variadic: bool,
    marks: &mut Vec<bool>,
    stmts: &[TStmt],
) -> Result<bool, AllocError>
    ensures so { IfOk result (λ so. so ≡ Tests.are_scoped (unit_of parts.now) variadic marks.old.items (stmts_of stmts.now)) }
    ensures kept { IfOk result (λ so. marks.new.items ≡ marks.old.items) }
{
    for stmt in stmts {
        if !is_scoped(alloc, parts, variadic, marks, stmt)? {
            return Ok(false);
        }
    }
    Ok(true)
}
