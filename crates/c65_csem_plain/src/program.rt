// Whether a program is plain.
ghost use Rattle.std.specs.Prelude.{◌≡◌, ◌↔◌, slice_get, IfOk, IsTrue};
ghost use Rattle.c65_csem.specs.Views.{unit_of};
ghost use Rattle.c65_csem_plain.specs.Plain.{IsPlain};
ghost use Rattle.c65_csem_plain.specs.Tests;

use crate::apart::are_apart;
use crate::funcs::are_plain_funcs;
use crate::names::starts;
use crate::objects::{all_bytes, are_plain_objects};
use c65_base::Names;
use c65_csem::{Parts, TProgram};
use std::alloc::{AllocError, Global};

/// Whether all items of a program can be numbered.
fn are_few(parts: &Parts) -> bool
    ensures { result ≡ Tests.are_few (unit_of parts.now) }
{
    let objects = parts.objects.len() as u128;
    let literals = parts.literals.len() as u128;
    let funcs = parts.funcs.len() as u128;
    objects + literals + funcs <= 1 << 32
}

fn is_plain_by(alloc: Global, names: &Names, parts: &Parts, main: u32) -> Result<bool, AllocError>
    ensures { IfOk result (λ so. so ≡ Tests.is_plain names.now (unit_of parts.now) main) }
{
    if !are_plain_objects(names, parts)
        || !all_bytes(parts)
        || !starts(names, parts.funcs.get(main as usize))
        || !are_few(parts)
    {
        return Ok(false);
    }
    if !are_apart(alloc, parts)? {
        return Ok(false);
    }
    are_plain_funcs(alloc, names, parts)
}

/// Whether a program is as each that is made from source: every object has bytes and stands in one
/// block of one function, pointers begin with both their bytes and move by whole objects, members lie in their
/// structures, `main` is external and usual, and the names of the library are the library's. It takes
/// memory for the objects and labels of functions.
pub fn is_plain(alloc: Global, program: &TProgram, names: &Names) -> Result<bool, AllocError>
    ensures { IfOk result (λ so. IsTrue so ↔ IsPlain names.now (unit_of program.now.0) program.now.1) }
{
    let so = is_plain_by(alloc, names, program.unit().parts(), program.main())?;
    Ok(so)
}
