// Whether the functions of the library have their types (C90 7.1.7, 7.7, 7.9, 7.10, 7.11).
ghost use Rattle.std.specs.Prelude.{◌≡◌, IfOk};
ghost use Rattle.c65_ctype.specs.Views.{fn_of};
ghost use Rattle.c65_csem.specs.Library.{library_type};
ghost use Rattle.c65_csem.specs.Views.{func_of, unit_of};
ghost use Rattle.c65_csem_check.specs.Kinds.{same_fn};
ghost use Rattle.c65_csem_names.specs.Tests;

use c65_base::Library;
use c65_csem::{Parts, TFunc, library_type};
use c65_csem_check::same_function;
use c65_ctype::FnType;
use std::alloc::{AllocError, Global};

fn is_typed_as(
    alloc: Global,
    signed_chars: bool,
    function: Library,
    ty: &FnType,
) -> Result<bool, AllocError>
    ensures { IfOk result (λ so. so ≡ same_fn (fn_of ty.now) (library_type signed_chars function)) }
{
    let wanted = library_type(alloc, signed_chars, function)?;
    Ok(same_function(ty, &wanted))
}

fn has_library_type(alloc: Global, signed_chars: bool, func: &TFunc) -> Result<bool, AllocError>
    ensures { IfOk result (λ so. so ≡ Tests.has_library_type signed_chars (func_of func.now)) }
{
    match func.library {
        Some(function) => is_typed_as(alloc, signed_chars, function, &func.ty),
        None => Ok(true),
    }
}

fn have_types_where(alloc: Global, signed_chars: bool, parts: &Parts) -> Result<bool, AllocError>
    ensures { IfOk result (λ so. so ≡ Tests.have_types_where signed_chars (unit_of parts.now).funcs) }
{
    for func in &parts.funcs {
        if !has_library_type(alloc, signed_chars, func)? {
            return Ok(false);
        }
    }
    Ok(true)
}

/// Whether all have them, where plain char is unsigned or where it is signed.
pub fn have_library_types(alloc: Global, parts: &Parts) -> Result<bool, AllocError>
    ensures { IfOk result (λ so. so ≡ Tests.have_library_types (unit_of parts.now).funcs) }
{
    if have_types_where(alloc, false, parts)? {
        return Ok(true);
    }
    have_types_where(alloc, true, parts)
}
