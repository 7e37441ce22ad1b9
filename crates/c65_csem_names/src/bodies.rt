// Whether the bodies of a program name only objects in scope.
ghost use Rattle.std.specs.Prelude.{◌≡◌, IfOk};
ghost use Rattle.c65_csem.specs.Views.{func_of, stmt_of, unit_of};
ghost use Rattle.c65_csem_names.specs.Tests;

use crate::marks::{enter, leave, unmarked};
use crate::stmts::is_scoped;
use c65_csem::{Parts, TFunc, TStmt};
use std::alloc::{AllocError, Global};

/// Whether a body is scoped, where these parameters come into scope first.
fn is_scoped_from(
    alloc: Global,
    parts: &Parts,
    variadic: bool,
    marks: &mut Vec<bool>,
    params: &[u32],
    body: &TStmt,
) -> Result<bool, AllocError>
    ensures so { IfOk result (λ so. so ≡ Tests.is_scoped (unit_of parts.now) variadic (Tests.entered params.now marks.old.items) (stmt_of body.now)) }
    ensures kept { IfOk result (λ so. marks.new.items ≡ marks.old.items) }
{
    let fresh = enter(alloc, marks, params)?;
    let so = is_scoped(alloc, parts, variadic, marks, body)?;
    leave(marks, fresh);
    Ok(so)
}

fn is_scoped_func(
    alloc: Global,
    parts: &Parts,
    marks: &mut Vec<bool>,
    func: &TFunc,
) -> Result<bool, AllocError>
    ensures so { IfOk result (λ so. so ≡ Tests.is_scoped_func (unit_of parts.now) marks.old.items (func_of func.now)) }
    ensures kept { IfOk result (λ so. marks.new.items ≡ marks.old.items) }
{
    match &func.body {
        Some(body) => is_scoped_from(alloc, parts, func.ty.variadic, marks, &func.params, body),
        None => Ok(true),
    }
}

fn are_scoped_funcs(alloc: Global, parts: &Parts, marks: &mut Vec<bool>) -> Result<bool, AllocError>
    ensures { IfOk result (λ so. so ≡ Tests.are_scoped_funcs (unit_of parts.now) marks.old.items (unit_of parts.now).funcs) }
{
    for func in &parts.funcs {
        if !is_scoped_func(alloc, parts, marks, func)? {
            return Ok(false);
        }
    }
    Ok(true)
}

/// Whether each body is scoped, its first scope being that of its function's parameters.
pub fn are_scoped_bodies(alloc: Global, parts: &Parts) -> Result<bool, AllocError>
    ensures { IfOk result (λ so. so ≡ Tests.are_scoped_bodies (unit_of parts.now)) }
{
    let mut marks = unmarked(alloc, parts.objects.len())?;
    are_scoped_funcs(alloc, parts, &mut marks)
}
