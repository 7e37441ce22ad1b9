// What a program is refused for, each kind of refusal at its first name.
ghost use Rattle.std.specs.Prelude.{◌≡◌, IfOk, map, option_map, option_copied};
ghost use Rattle.c65_base.specs.declared.refusal.LinkKind.TheVariants.{Undefined, Twice};
ghost use Rattle.c65_ctype.specs.Compatible.{are_compatible};
ghost use Rattle.c65_ctype.specs.Views.{qty_of, fn_of, types_of};
ghost use Rattle.c65_csem.specs.Views.{object_of, func_of};
ghost use Rattle.c65_init_join.specs.Answers.{Gives, Fails, refused_if, refused_at, none_is};
ghost use Rattle.c65_init_join.specs.Checks as tests;
ghost use Rattle.c65_base.specs.declared.names.Name.{Name};
ghost use Rattle.c65_init_join.specs.Items.{items_of};
ghost use Rattle.c65_init_join.specs.Known.{main_named};
ghost use Rattle.c65_init_join.specs.Prototypes.{main_with_words, main_alone};
ghost use Rattle.c65_init_join.specs.Tables.{external_of, table_of};
ghost use Rattle.c65_init_join.specs.Uses.{marks_of};

use crate::agree::{are_compatible, either};
use crate::definition::own_prototype;
use crate::known::{library_named, name_of_main};
use crate::library::{function, main_alone, main_with_words};
use crate::marks::{Marks, is_marked};
use crate::table::{External, Item, Place, Table};
use crate::unit::Unit;
use c65_base::{Library, LinkKind, Name, Names, Refusal, Text};
use c65_csem::{Class, TFunc, TObject};
use c65_ctype::{FnType, QType, Types};
use std::alloc::{AllocError, Global};

/// A refusal with the spelling of a name, where there is a fault.
pub fn refused_if(
    alloc: Global,
    names: &Names,
    kind: LinkKind,
    is_fault: bool,
    name: Name,
) -> Result<(), Refusal>
    ensures { Gives (λ x. tt) result (refused_if names.now kind is_fault name) }
{
    if !is_fault {
        return Ok(());
    }
    match names.spelling(name) {
        Some(spelling) => {
            let name = Text::copy_of(alloc, spelling)?;
            Err(Refusal::Link { kind, name })
        }
        None => Err(Refusal::OutOfMemory),
    }
}

/// The same of what may have no name.
fn refused_at(
    alloc: Global,
    names: &Names,
    kind: LinkKind,
    is_fault: bool,
    name: Option<Name>,
) -> Result<(), Refusal>
    ensures { Gives (λ x. tt) result (refused_at names.now kind is_fault name) }
{
    match name {
        Some(name) => refused_if(alloc, names, kind, is_fault, name),
        None => Ok(()),
    }
}

/// Whether a declaration is of a function.
fn is_func(place: Option<Place>) -> bool
    ensures { result ≡ tests.is_func place }
{
    match place {
        Some(place) => match place.item {
            Item::Func(_) => true,
            Item::Object(_) => false,
        },
        None => false,
    }
}

/// Whether two units define a name, or a unit and the library, or one of them as an object and one
/// as a function.
fn is_twice(external: &External, library: Option<Library>) -> bool
    ensures { result ≡ tests.is_twice library (external_of external.now) }
{
    external.twice
        || external.defined().is_some() && library.is_some()
        || is_func(external.definition) && external.tentative.is_some()
}

fn is_twice_at(table: &Table, names: &Names, name: Name) -> bool
    ensures { result ≡ tests.is_twice_at names.now (table_of table.now) name }
{
    match table.get(name) {
        Some(external) => is_twice(external, library_named(names, name)),
        None => false,
    }
}

/// Refuses the first name that is defined twice.
pub fn check_twice(alloc: Global, table: &Table, names: &Names) -> Result<(), Refusal>
    ensures { Gives (λ x. tt) result (none_is names.now Twice (tests.is_twice_at names.now (table_of table.now)) (table_of table.now).order) }
{
    for name in &table.order {
        let is_twice = is_twice_at(table, names, *name);
        refused_if(alloc, names, LinkKind::Twice, is_twice, *name)?;
    }
    Ok(())
}

fn is_object_defined(table: &Table, object: &TObject) -> bool
    ensures { result ≡ tests.is_object_defined (table_of table.now) (object_of object.now) }
{
    match object.class {
        Class::Declared => table.place_of(object.name).is_some(),
        _ => true,
    }
}

fn is_func_defined(table: &Table, names: &Names, func: &TFunc) -> bool
    ensures { result ≡ tests.is_func_defined names.now (table_of table.now) (func_of func.now) }
{
    func.body.is_some()
        || func.external
            && (library_named(names, func.name).is_some() || table.defined(func.name).is_some())
}

fn check_objects(
    alloc: Global,
    objects: &[TObject],
    marks: &[bool],
    table: &Table,
    names: &Names,
) -> Result<(), Refusal>
    ensures { Gives (λ x. tt) result (tests.objects_defined names.now (table_of table.now) marks.now 0 (map object_of objects.now)) }
{
    for (i, object) in objects.iter().enumerate() {
        let is_fault = is_marked(marks, i) && !is_object_defined(table, object);
        refused_at(alloc, names, LinkKind::Undefined, is_fault, object.name)?;
    }
    Ok(())
}

fn check_funcs(
    alloc: Global,
    funcs: &[TFunc],
    marks: &[bool],
    table: &Table,
    names: &Names,
) -> Result<(), Refusal>
    ensures { Gives (λ x. tt) result (tests.funcs_defined names.now (table_of table.now) marks.now 0 (map func_of funcs.now)) }
{
    for (i, func) in funcs.iter().enumerate() {
        let is_fault = is_marked(marks, i) && !is_func_defined(table, names, func);
        refused_if(alloc, names, LinkKind::Undefined, is_fault, func.name)?;
    }
    Ok(())
}

/// Refuses the first name that a unit uses and that is defined nowhere.
pub fn check_defined(
    alloc: Global,
    unit: &Unit,
    marks: &Marks,
    table: &Table,
    names: &Names,
) -> Result<(), Refusal>
    ensures { Gives (λ x. tt) result (tests.unit_defined names.now (table_of table.now) (marks_of marks.now) (items_of unit.now)) }
{
    check_objects(alloc, &unit.objects, &marks.objects, table, names)?;
    check_funcs(alloc, &unit.funcs, &marks.funcs, table, names)
}

/// Whether a function has parameters.
fn has_words(ty: &FnType) -> bool
    ensures { result ≡ tests.has_words (tests.params_in (fn_of ty.now)) }
{
    match &ty.params {
        Some(params) => {
            let types: &[QType] = params;
            !types.is_empty()
        }
        None => false,
    }
}

/// Whether a type is that of a main function with arguments, where plain char is signed or not.
fn is_main_with_words(
    alloc: Global,
    types: &Types,
    signed_chars: bool,
    ty: &QType,
) -> Result<bool, AllocError>
    ensures { IfOk result (λ so. so ≡ are_compatible (types_of types.now) (qty_of ty.now) (tests.function_type (main_with_words signed_chars))) }
{
    let words = main_with_words(alloc, signed_chars)?;
    let whole = function(alloc, &words)?;
    are_compatible(types, ty, &whole)
}

fn is_main_alone(alloc: Global, types: &Types, ty: &QType) -> Result<bool, AllocError>
    ensures { IfOk result (λ so. so ≡ are_compatible (types_of types.now) (qty_of ty.now) (tests.function_type main_alone)) }
{
    let whole = function(alloc, &main_alone(alloc))?;
    are_compatible(types, ty, &whole)
}

/// Whether a type is that of a main function with arguments.
fn has_main_words(alloc: Global, types: &Types, ty: &QType) -> Result<bool, AllocError>
    ensures { IfOk result (λ so. so ≡ tests.has_main_words (types_of types.now) (qty_of ty.now)) }
{
    let unsigned = is_main_with_words(alloc, types, false, ty)?;
    let signed = is_main_with_words(alloc, types, true, ty)?;
    Ok(either(unsigned, signed))
}

fn is_main_type(
    alloc: Global,
    types: &Types,
    has_words: bool,
    ty: &QType,
) -> Result<bool, AllocError>
    ensures { IfOk result (λ so. so ≡ tests.is_main_type (types_of types.now) has_words (qty_of ty.now)) }
{
    if has_words {
        has_main_words(alloc, types, ty)
    } else {
        is_main_alone(alloc, types, ty)
    }
}

/// Whether a type is one of those that `main` may have.
fn is_main(alloc: Global, types: &Types, ty: &FnType) -> Result<bool, AllocError>
    ensures { IfOk result (λ so. so ≡ tests.is_main (types_of types.now) (fn_of ty.now)) }
{
    let has_words = has_words(ty);
    let whole = function(alloc, ty)?;
    is_main_type(alloc, types, has_words, &whole)
}

/// Where the main function is defined.
fn main_place(table: &Table, names: &Names) -> Option<Place>
    ensures { result ≡ tests.main_place (table_of table.now) (main_named 0 names.now) }
{
    match name_of_main(names) {
        Some(name) => match table.get(name) {
            Some(external) => external.definition,
            None => None,
        },
        None => None,
    }
}

/// The function of a declaration.
fn func_at(units: &[Unit], place: Place) -> Option<&TFunc>
    ensures { option_map func_of (option_copied result) ≡ tests.func_at (map items_of units.now) place }
{
    let unit = units.get(place.unit as usize)?;
    match place.item {
        Item::Func(number) => unit.funcs.get(number as usize),
        Item::Object(_) => None,
    }
}

fn no_main(alloc: Global) -> Refusal
    ensures { Fails result (tests.no_main {A = Name}) }
{
    match Text::copy_of(alloc, b"main") {
        Ok(name) => Refusal::Link {
            kind: LinkKind::Main,
            name,
        },
        Err(_) => Refusal::OutOfMemory,
    }
}

/// The objects of a declaration's unit.
fn objects_at(units: &[Unit], place: Place) -> &[TObject]
    ensures { map object_of result.now ≡ tests.objects_at (map items_of units.now) place }
{
    match units.get(place.unit as usize) {
        Some(unit) => unit.objects.as_slice(),
        None => &[],
    }
}

/// The name of the main function, where this is it. Refuses where it is missing or of another type.
fn main_of(
    alloc: Global,
    types: &Types,
    objects: &[TObject],
    func: Option<&TFunc>,
) -> Result<Name, Refusal>
    ensures { Gives (λ n. n) result (tests.main_of (types_of types.now) (map object_of objects.now) (option_map func_of (option_copied func.entry))) }
{
    let Some(func) = func else {
        return Err(no_main(alloc));
    };
    let ty = own_prototype(alloc, objects, func)?;
    if is_main(alloc, types, &ty)? {
        Ok(func.name)
    } else {
        Err(no_main(alloc))
    }
}

fn main_at(
    alloc: Global,
    units: &[Unit],
    types: &Types,
    place: Option<Place>,
) -> Result<Name, Refusal>
    ensures { Gives (λ n. n) result (tests.main_at (map items_of units.now) (types_of types.now) place) }
{
    match place {
        Some(place) => main_of(
            alloc,
            types,
            objects_at(units, place),
            func_at(units, place),
        ),
        None => Err(no_main(alloc)),
    }
}

/// The main function's name. Refuses where it is missing or of another type.
pub fn main_name(
    alloc: Global,
    units: &[Unit],
    types: &Types,
    table: &Table,
    names: &Names,
) -> Result<Name, Refusal>
    ensures { Gives (λ n. n) result (tests.main_in names.now (map items_of units.now) (types_of types.now) (table_of table.now)) }
{
    main_at(alloc, units, types, main_place(table, names))
}
