// Whether the functions of a program are plain.
ghost use Rattle.std.specs.Prelude.{◌≡◌, IfOk};
ghost use Rattle.c65_csem.specs.Views.{func_of, stmt_of, unit_of};
ghost use Rattle.c65_csem_plain.specs.Tests;

use crate::arms::has_few_arms;
use crate::names::is_named;
use crate::stmts::{add_objects, is_plain_stmt};
use c65_base::Names;
use c65_csem::{Parts, TFunc, TStmt};
use c65_csem_check::{add_labels, are_distinct};
use std::alloc::{AllocError, Global};

/// Whether labels have numbers of their type with room for one more.
fn are_labels(labels: &[u32]) -> bool
    ensures { result ≡ Tests.are_labels labels.now }
{
    for label in labels {
        if *label >= 0xffff_ffff {
            return false;
        }
    }
    true
}

fn is_plain_body(
    alloc: Global,
    parts: &Parts,
    params: &[u32],
    body: &TStmt,
) -> Result<bool, AllocError>
    ensures { IfOk result (λ so. so ≡ Tests.is_plain_body (unit_of parts.now) params.now (stmt_of body.now)) }
{
    let mut own = Vec::new(alloc);
    add_objects(body, &mut own)?;
    let mut objects = Vec::from_slice(alloc, params)?;
    objects.extend_from_slice(&own)?;
    let mut labels = Vec::new(alloc);
    add_labels(body, &mut labels)?;
    Ok(
        are_distinct(&objects)
            && are_labels(&labels)
            && has_few_arms(0, body)
            && is_plain_stmt(parts, &own, body),
    )
}

fn has_plain_body(alloc: Global, parts: &Parts, func: &TFunc) -> Result<bool, AllocError>
    ensures { IfOk result (λ so. so ≡ Tests.has_plain_body (unit_of parts.now) (func_of func.now).params (func_of func.now).body) }
{
    match &func.body {
        Some(body) => is_plain_body(alloc, parts, &func.params, body),
        None => Ok(true),
    }
}

fn is_plain_func(
    alloc: Global,
    names: &Names,
    parts: &Parts,
    func: &TFunc,
) -> Result<bool, AllocError>
    ensures { IfOk result (λ so. so ≡ Tests.is_plain_func names.now (unit_of parts.now) (func_of func.now)) }
{
    if !is_named(names, func.library, func.external, func.name) {
        return Ok(false);
    }
    has_plain_body(alloc, parts, func)
}

pub fn are_plain_funcs(alloc: Global, names: &Names, parts: &Parts) -> Result<bool, AllocError>
    ensures { IfOk result (λ so. so ≡ Tests.are_plain_funcs names.now (unit_of parts.now) (unit_of parts.now).funcs) }
{
    for func in &parts.funcs {
        if !is_plain_func(alloc, names, parts, func)? {
            return Ok(false);
        }
    }
    Ok(true)
}
