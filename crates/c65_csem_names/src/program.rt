// Whether a program is scoped.
ghost use Rattle.std.specs.Prelude.{◌≡◌, ◌↔◌, option_map, option_copied, slice_get, IfOk, IsTrue};
ghost use Rattle.c65_ctype.specs.Trees.{type_in};
ghost use Rattle.c65_ctype.specs.Views.{ty_of, qty_of};
ghost use Rattle.c65_csem.specs.Views.{object_of, func_of, unit_of};
ghost use Rattle.c65_csem_names.specs.Programs;
ghost use Rattle.c65_csem_names.specs.Programs.{IsScopedProgram};
ghost use Rattle.c65_csem_names.specs.Tests;

use crate::bodies::are_scoped_bodies;
use crate::initial::begin_well;
use crate::library::have_library_types;
use crate::marks::object;
use c65_csem::{Parts, TFunc, TObject, TProgram};
use c65_ctype::{CType, QType};
use c65_ints::IntType;
use std::alloc::{AllocError, Global};

fn is_int(ty: &CType) -> bool
    ensures { result ≡ Programs.is_int (ty_of ty.now) }
{
    match ty {
        CType::Int(IntType::Int) => true,
        _ => false,
    }
}

fn is_pointer(ty: &CType) -> bool
    ensures { result ≡ Programs.is_pointer (ty_of ty.now) }
{
    match ty {
        CType::Pointer(_) => true,
        _ => false,
    }
}

fn has_int(object: Option<&TObject>) -> bool
    ensures { result ≡ Programs.has_type Programs.is_int (option_map object_of (option_copied object.entry)) }
{
    match object {
        Some(object) => is_int(&object.ty.ty),
        None => false,
    }
}

fn has_pointer(object: Option<&TObject>) -> bool
    ensures { result ≡ Programs.has_type Programs.is_pointer (option_map object_of (option_copied object.entry)) }
{
    match object {
        Some(object) => is_pointer(&object.ty.ty),
        None => false,
    }
}

fn has_words(parts: &Parts, count: u32, words: u32) -> bool
    ensures { result ≡ Tests.has_words (unit_of parts.now) count words }
{
    has_int(object(parts, count)) && has_pointer(object(parts, words))
}

/// Whether these may be the parameters of `main`.
fn takes_arguments(parts: &Parts, params: &[u32]) -> bool
    ensures { result ≡ Tests.takes_arguments (unit_of parts.now) params.now }
{
    params.is_empty() || params.len() == 2 && has_words(parts, params[0], params[1])
}

fn gives_int(q: &QType) -> bool
    ensures { result ≡ Programs.is_int (type_in (qty_of q.now)) }
{
    is_int(&q.ty)
}

fn starts_in(parts: &Parts, func: Option<&TFunc>) -> bool
    ensures { result ≡ Tests.starts (unit_of parts.now) (option_map func_of (option_copied func.entry)) }
{
    match func {
        Some(func) => takes_arguments(parts, &func.params) && gives_int(&func.ty.result),
        None => false,
    }
}

fn starts(parts: &Parts, main: u32) -> bool
    ensures { result ≡ Tests.starts (unit_of parts.now) (slice_get (unit_of parts.now).funcs main) }
{
    starts_in(parts, parts.funcs.get(main as usize))
}

fn is_scoped_by(alloc: Global, parts: &Parts, main: u32) -> Result<bool, AllocError>
    ensures { IfOk result (λ so. so ≡ Tests.is_scoped_program (unit_of parts.now) main) }
{
    if !begin_well(parts) || !starts(parts, main) || !have_library_types(alloc, parts)? {
        return Ok(false);
    }
    are_scoped_bodies(alloc, parts)
}

/// Whether each body names only objects in scope, no initial value points to an automatic object or
/// lacks a piece of a pointer, and `main` and the functions of the library have their types. It takes
/// memory for a mark of each object, and for types of the library.
pub fn is_scoped(alloc: Global, program: &TProgram) -> Result<bool, AllocError>
    ensures { IfOk result (λ so. IsTrue so ↔ IsScopedProgram (unit_of program.now.0) program.now.1) }
{
    let so = is_scoped_by(alloc, program.unit().parts(), program.main())?;
    Ok(so)
}
