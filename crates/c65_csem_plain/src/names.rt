// Whether the names of the library are the library's, and the main function is spelled `main` (C90 5.1.2.2.1, 7.1.3).
ghost use Rattle.std.specs.Prelude.{◌≡◌, codes, slice_get, option_map, option_copied};
ghost use Rattle.c65_base.specs.Library.{library_name};
ghost use Rattle.c65_ctype.specs.Views.{fn_of};
ghost use Rattle.c65_csem.specs.Library.{library_at};
ghost use Rattle.c65_csem.specs.Views.{func_of};
ghost use Rattle.c65_csem_plain.specs.Plain;
ghost use Rattle.c65_csem_plain.specs.Tests;

use c65_base::{Library, Name, Names};
use c65_csem::{Class, TFunc, library_named};
use c65_ctype::FnType;

pub fn is_external(class: Class) -> bool
    ensures { result ≡ Plain.is_external class }
{
    match class {
        Class::External | Class::Tentative | Class::Declared => true,
        _ => false,
    }
}

fn is_spelled(names: &Names, name: Name, wanted: &[u8]) -> bool
    ensures { result ≡ Tests.is_spelled (slice_get names.now name.0) wanted.now }
{
    match names.spelling(name) {
        Some(spelling) => spelling == wanted,
        None => false,
    }
}

fn library_at(names: &Names, name: Name) -> Option<Library>
    ensures { result ≡ library_at names.now name.0 }
{
    match names.spelling(name) {
        Some(spelling) => library_named(spelling),
        None => None,
    }
}

/// Whether a name, where it is external, is none of the library's.
fn is_own_name(names: &Names, external: bool, name: Name) -> bool
    ensures { result ≡ Tests.is_own_name names.now external name }
{
    !external || library_at(names, name).is_none()
}

/// Whether a name, where there is one and it is external, is none of the library's.
pub fn has_own_name(names: &Names, external: bool, name: Option<Name>) -> bool
    ensures { result ≡ Tests.has_own_name names.now external name }
{
    match name {
        Some(name) => is_own_name(names, external, name),
        None => true,
    }
}

/// Whether a function of the library is external and has its name, and any other function has its own.
pub fn is_named(names: &Names, library: Option<Library>, external: bool, name: Name) -> bool
    ensures { result ≡ Tests.is_named names.now library external name }
{
    match library {
        Some(library) => external && is_spelled(names, name, library.name()),
        None => is_own_name(names, external, name),
    }
}

fn is_usual(ty: &FnType) -> bool
    ensures { result ≡ Tests.is_usual (fn_of ty.now) }
{
    !ty.variadic && !ty.cdecl
}

fn is_main(names: &Names, func: &TFunc) -> bool
    ensures { result ≡ Tests.is_main names.now (func_of func.now) }
{
    func.external && is_spelled(names, func.name, b"main") && is_usual(&func.ty)
}

pub fn starts(names: &Names, func: Option<&TFunc>) -> bool
    ensures { result ≡ Tests.starts names.now (option_map func_of (option_copied func.entry)) }
{
    match func {
        Some(func) => is_main(names, func),
        None => false,
    }
}
