// Whether no object is that of two functions.
ghost use Rattle.std.specs.Prelude.{◌≡◌, ◌++◌, [], IfOk, OnOk};
ghost use Rattle.c65_csem.specs.Views.{func_of, unit_of};
ghost use Rattle.c65_csem_plain.specs.Plain.{own_objects, all_own_objects};
ghost use Rattle.c65_csem_plain.specs.Tests;

use crate::stmts::add_objects;
use c65_csem::{Parts, TFunc};
use indexmap::IndexSet;
use std::alloc::{AllocError, Global};

/// Whether no number comes twice.
fn come_once(alloc: Global, numbers: &[u32]) -> Result<bool, AllocError>
    ensures { IfOk result (λ so. so ≡ Tests.come_once [] numbers.now) }
{
    let mut seen = IndexSet::new(alloc);
    for number in numbers {
        let (_, is_new) = seen.insert_full(*number)?;
        if !is_new {
            return Ok(false);
        }
    }
    Ok(true)
}

/// Adds the objects that each call of a function begins.
fn add_own_objects(func: &TFunc, objects: &mut Vec<u32>) -> Result<(), AllocError>
    ensures { OnOk result (objects.new.items ≡ objects.old.items ++ own_objects (func_of func.now).params (func_of func.now).body) }
{
    match &func.body {
        Some(body) => {
            let params: &[u32] = &func.params;
            objects.extend_from_slice(params)?;
            add_objects(body, objects)
        }
        None => Ok(()),
    }
}

/// Whether each object that calls begin is that of one function.
pub fn are_apart(alloc: Global, parts: &Parts) -> Result<bool, AllocError>
    ensures { IfOk result (λ so. so ≡ Tests.come_once [] (all_own_objects (unit_of parts.now).funcs)) }
{
    let mut objects = Vec::new(alloc);
    for func in &parts.funcs {
        add_own_objects(func, &mut objects)?;
    }
    come_once(alloc, &objects)
}
