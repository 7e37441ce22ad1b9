// Whether the initial values of a statement go to objects of its function's blocks, and its expressions are plain.
ghost use Rattle.std.specs.Prelude.{◌≡◌, ◌++◌, OnOk, option_map, option_copied};
ghost use Rattle.c65_ctype.specs.Views.{ty_of};
ghost use Rattle.c65_csem.specs.Views.{typed_of, stmt_of, stmts_of, object_of, unit_of};
ghost use Rattle.c65_csem_plain.specs.Body;
ghost use Rattle.c65_csem_plain.specs.Tests;

use crate::exprs::{is_plain_in, is_plain_maybe};
use c65_csem::{Parts, TExpr, TObject, TStmt, is_scalar, is_tag};
use c65_csem_check::has_number;
use c65_ctype::CType;
use std::alloc::AllocError;

/// Adds the objects of all blocks of a statement.
#[cycle(objects)]
pub fn add_objects(stmt: &TStmt, objects: &mut Vec<u32>) -> Result<(), AllocError>
    ensures { OnOk result (objects.new.items ≡ objects.old.items ++ Body.objects_of (stmt_of stmt.now)) }
{
    match stmt {
        TStmt::Block(own, stmts) => {
            let numbers: &[u32] = own;
            let inner: &[TStmt] = stmts;
            objects.extend_from_slice(numbers)?;
            add_objects_in(inner, objects)
        }
        TStmt::If(_, a, b) => {
            add_objects(a, objects)?;
            add_objects(b, objects)
        }
        TStmt::While(_, body)
        | TStmt::DoWhile(body, _)
        | TStmt::For(_, _, _, body)
        | TStmt::Switch(_, body)
        | TStmt::Case(_, body)
        | TStmt::Default(body)
        | TStmt::Label(_, body) => add_objects(body, objects),
        TStmt::Empty
        | TStmt::Eval(_)
        | TStmt::Set(_, _, _)
        | TStmt::Clear(_)
        | TStmt::Goto(_)
        | TStmt::Break
        | TStmt::Continue
        | TStmt::Return(_) => Ok(()),
    }
}

#[cycle(objects)]
fn add_objects_in(stmts: &[TStmt], objects: &mut Vec<u32>) -> Result<(), AllocError>
    ensures { OnOk result (objects.new.items ≡ objects.old.items ++ Body.objects_in (stmts_of stmts.now)) }
{
    for stmt in stmts {
        add_objects(stmt, objects)?;
    }
    Ok(())
}

/// Whether an object may be set to a value of this type: a structure or union goes into no scalar.
fn takes_part(object: Option<&TObject>, ty: &CType) -> bool
    ensures { result ≡ Tests.takes_part (option_map object_of (option_copied object.entry)) (ty_of ty.now) }
{
    match object {
        Some(object) => !is_tag(ty) || !is_scalar(&object.ty.ty),
        None => true,
    }
}

fn is_plain_set(parts: &Parts, own: &[u32], number: u32, e: &TExpr) -> bool
    ensures { result ≡ Tests.is_plain_set (unit_of parts.now) own.now number (typed_of e.now) }
{
    has_number(own, number)
        && takes_part(parts.objects.get(number as usize), &e.ty.ty)
        && is_plain_in(&parts.types, e)
}

#[cycle(stmts)]
pub fn is_plain_stmt(parts: &Parts, own: &[u32], stmt: &TStmt) -> bool
    ensures { result ≡ Tests.is_plain_stmt (unit_of parts.now) own.now (stmt_of stmt.now) }
{
    let types = &parts.types;
    match stmt {
        TStmt::Empty | TStmt::Goto(_) | TStmt::Break | TStmt::Continue => true,
        TStmt::Eval(e) => is_plain_in(types, e),
        TStmt::Set(number, _, e) => is_plain_set(parts, own, *number, e),
        TStmt::Clear(number) => has_number(own, *number),
        TStmt::Block(_, stmts) => are_plain_stmts(parts, own, stmts),
        TStmt::If(e, a, b) => {
            is_plain_in(types, e) && is_plain_stmt(parts, own, a) && is_plain_stmt(parts, own, b)
        }
        TStmt::While(e, body) | TStmt::Switch(e, body) => {
            is_plain_in(types, e) && is_plain_stmt(parts, own, body)
        }
        TStmt::DoWhile(body, e) => is_plain_stmt(parts, own, body) && is_plain_in(types, e),
        TStmt::For(first, test, next, body) => {
            is_plain_maybe(types, first)
                && is_plain_maybe(types, test)
                && is_plain_maybe(types, next)
                && is_plain_stmt(parts, own, body)
        }
        TStmt::Case(_, body) | TStmt::Default(body) | TStmt::Label(_, body) => {
            is_plain_stmt(parts, own, body)
        }
        TStmt::Return(e) => is_plain_maybe(types, e),
    }
}

#[cycle(stmts)]
fn are_plain_stmts(parts: &Parts, own: &[u32], stmts: &[TStmt]) -> bool
    ensures { result ≡ Tests.are_plain_stmts (unit_of parts.now) own.now (stmts_of stmts.now) }
{
    for stmt in stmts {
        if !is_plain_stmt(parts, own, stmt) {
            return false;
        }
    }
    true
}
