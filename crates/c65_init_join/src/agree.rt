// Whether the declarations of a name agree, with each other and with the library (C90 6.1.2.6, 6.5.4.3).
ghost use Rattle.std.specs.Prelude.{◌≡◌, ◌&&◌, ◌||◌, IfOk, map, [], option_map};
ghost use Rattle.c65_base.specs.declared.refusal.LinkKind.TheVariants.{TypesDiffer};
ghost use Rattle.c65_ctype.specs.Compatible.{are_compatible};
ghost use Rattle.c65_ctype.specs.Views.{qty_of, types_of};
ghost use Rattle.c65_csem.specs.Library.{library_type};
ghost use Rattle.c65_csem.specs.Views.{func_of};
ghost use Rattle.c65_init_join.specs.Answers.{Gives, none_is};
ghost use Rattle.c65_init_join.specs.Checks as tests;
ghost use Rattle.c65_init_join.specs.Definitions.{agreeing};
ghost use Rattle.c65_init_join.specs.Items.{items_of};
ghost use Rattle.c65_init_join.specs.Tables.{table_of};

use crate::checks::refused_if;
use crate::definition::agreeing;
use crate::known::library_named;
use crate::library::function;
use crate::table::{Item, Place, Table};
use crate::unit::Unit;
use c65_base::{Library, LinkKind, Name, Names, Refusal};
use c65_csem::{TFunc, library_type};
use c65_ctype::{QType, Types};
use std::alloc::{AllocError, Global};

/// The type with which the other declarations of a function have to agree.
fn type_of(alloc: Global, unit: &Unit, func: &TFunc) -> Result<QType, AllocError>
    ensures { IfOk result (λ q. qty_of q ≡ tests.function_type (agreeing (items_of unit.now).objects (func_of func.now))) }
{
    let ty = agreeing(alloc, &unit.objects, func)?;
    function(alloc, &ty)
}

/// The type of an item.
fn type_in(alloc: Global, unit: &Unit, item: Item) -> Result<Option<QType>, AllocError>
    ensures { IfOk result (λ q. option_map qty_of q ≡ tests.item_in item (items_of unit.now)) }
{
    match item {
        Item::Object(number) => match unit.objects.get(number as usize) {
            Some(object) => Ok(Some(object.ty.copy(alloc)?)),
            None => Ok(None),
        },
        Item::Func(number) => match unit.funcs.get(number as usize) {
            Some(func) => Ok(Some(type_of(alloc, unit, func)?)),
            None => Ok(None),
        },
    }
}

/// The type of a declaration.
fn type_at(alloc: Global, units: &[Unit], place: Place) -> Result<Option<QType>, AllocError>
    ensures { IfOk result (λ q. option_map qty_of q ≡ tests.type_at (map items_of units.now) place) }
{
    match units.get(place.unit as usize) {
        Some(unit) => type_in(alloc, unit, place.item),
        None => Ok(None),
    }
}

pub fn are_compatible(types: &Types, a: &QType, b: &QType) -> Result<bool, AllocError>
    ensures { IfOk result (λ so. so ≡ are_compatible (types_of types.now) (qty_of a.now) (qty_of b.now)) }
{
    match types.compatible(a, b) {
        Ok(so) => Ok(so),
        Err(_) => Err(AllocError),
    }
}

fn both(a: bool, b: bool) -> bool
    ensures { result ≡ (a && b) }
{
    a && b
}

pub fn either(a: bool, b: bool) -> bool
    ensures { result ≡ (a || b) }
{
    a || b
}

/// The type of a function of the library, where plain char is signed or not.
fn library_function(
    alloc: Global,
    signed_chars: bool,
    library: Library,
) -> Result<QType, AllocError>
    ensures { IfOk result (λ q. qty_of q ≡ tests.function_type (library_type signed_chars library)) }
{
    let prototype = library_type(alloc, signed_chars, library)?;
    function(alloc, &prototype)
}

/// Whether a type is that of a function of the library, where plain char is signed or not.
fn is_prototype(
    alloc: Global,
    types: &Types,
    library: Library,
    signed_chars: bool,
    ty: &QType,
) -> Result<bool, AllocError>
    ensures { IfOk result (λ so. so ≡ are_compatible (types_of types.now) (qty_of ty.now) (tests.function_type (library_type signed_chars library))) }
{
    let whole = library_function(alloc, signed_chars, library)?;
    are_compatible(types, ty, &whole)
}

/// Whether a type is that of a function of the library, whatever the sign of plain char.
fn is_of_library(
    alloc: Global,
    types: &Types,
    library: Library,
    ty: &QType,
) -> Result<bool, AllocError>
    ensures { IfOk result (λ so. so ≡ tests.is_of_library (types_of types.now) library (qty_of ty.now)) }
{
    let unsigned = is_prototype(alloc, types, library, false, ty)?;
    let signed = is_prototype(alloc, types, library, true, ty)?;
    Ok(either(unsigned, signed))
}

fn meets_library(
    alloc: Global,
    types: &Types,
    library: Option<Library>,
    ty: &QType,
) -> Result<bool, AllocError>
    ensures { IfOk result (λ so. so ≡ tests.meets_library (types_of types.now) library (qty_of ty.now)) }
{
    match library {
        Some(library) => is_of_library(alloc, types, library, ty),
        None => Ok(true),
    }
}

/// Whether a type is compatible with each of the earlier ones.
fn meets_all(types: &Types, ty: &QType, earlier: &[QType]) -> Result<bool, AllocError>
    ensures { IfOk result (λ so. so ≡ tests.meets_all (types_of types.now) (qty_of ty.now) (map qty_of earlier.now)) }
{
    for other in earlier {
        if !are_compatible(types, other, ty)? {
            return Ok(false);
        }
    }
    Ok(true)
}

/// The types of declarations.
fn types_at(alloc: Global, units: &[Unit], places: &[Place]) -> Result<Vec<QType>, AllocError>
    ensures { IfOk result (λ v. map qty_of v.items ≡ tests.types_at (map items_of units.now) places.now) }
{
    let mut all = Vec::new(alloc);
    for place in places {
        if let Some(ty) = type_at(alloc, units, *place)? {
            all.push(ty)?;
        }
    }
    Ok(all)
}

/// Whether a type is compatible with the earlier ones, and with the library's prototype.
fn fits_all(
    alloc: Global,
    types: &Types,
    library: Option<Library>,
    ty: &QType,
    earlier: &[QType],
) -> Result<bool, AllocError>
    ensures { IfOk result (λ so. so ≡ tests.fits_all (types_of types.now) library (qty_of ty.now) (map qty_of earlier.now)) }
{
    let meets = meets_all(types, ty, earlier)?;
    let of_library = meets_library(alloc, types, library, ty)?;
    Ok(both(meets, of_library))
}

/// Whether each type is compatible with those before it, and with the library's prototype.
#[tactic(auto, using(crate::proofs::TurnLaws::agree_fails))]
fn agree(
    alloc: Global,
    types: &Types,
    library: Option<Library>,
    all: &[QType],
) -> Result<bool, AllocError>
    ensures { IfOk result (λ so. so ≡ tests.agree (types_of types.now) library [] (map qty_of all.now)) }
{
    for (i, ty) in all.iter().enumerate() {
        let fits = fits_all(alloc, types, library, ty, &all[..i])?;
        if !fits {
            return Ok(false);
        }
    }
    Ok(true)
}

/// Whether the types of a name differ.
#[tactic(auto, unfolding(crate::specs::Checks::differs_at))]
fn differs_at(
    alloc: Global,
    units: &[Unit],
    types: &Types,
    table: &Table,
    names: &Names,
    name: Name,
) -> Result<bool, AllocError>
    ensures { IfOk result (λ so. so ≡ tests.differs_at names.now (map items_of units.now) (types_of types.now) (table_of table.now) name) }
{
    match table.get(name) {
        Some(external) => {
            let all = types_at(alloc, units, &external.places)?;
            let so = agree(alloc, types, library_named(names, name), &all)?;
            Ok(!so)
        }
        None => Ok(false),
    }
}

/// Refuses the first name whose types differ.
pub fn check_types(
    alloc: Global,
    units: &[Unit],
    types: &Types,
    table: &Table,
    names: &Names,
) -> Result<(), Refusal>
    ensures { Gives (λ x. tt) result (none_is names.now TypesDiffer (tests.differs_at names.now (map items_of units.now) (types_of types.now) (table_of table.now)) (table_of table.now).order) }
{
    for name in &table.order {
        let differs = differs_at(alloc, units, types, table, names, *name)?;
        refused_if(alloc, names, LinkKind::TypesDiffer, differs, *name)?;
    }
    Ok(())
}

/// Whether declarations of a function of the library say that plain char is signed.
fn is_signed_by(
    alloc: Global,
    types: &Types,
    library: Option<Library>,
    all: &[QType],
) -> Result<bool, AllocError>
    ensures { IfOk result (λ so. so ≡ tests.is_signed_by (types_of types.now) library (map qty_of all.now)) }
{
    match library {
        Some(library) => {
            let unsigned = library_function(alloc, false, library)?;
            let meets = meets_all(types, &unsigned, all)?;
            Ok(!meets)
        }
        None => Ok(false),
    }
}

/// Whether the declarations of a name say that plain char is signed.
#[tactic(auto, unfolding(crate::specs::Checks::is_signed_at))]
fn is_signed_at(
    alloc: Global,
    units: &[Unit],
    types: &Types,
    table: &Table,
    names: &Names,
    name: Name,
) -> Result<bool, AllocError>
    ensures { IfOk result (λ so. so ≡ tests.is_signed_at names.now (map items_of units.now) (types_of types.now) (table_of table.now) name) }
{
    match table.get(name) {
        Some(external) => {
            let all = types_at(alloc, units, &external.places)?;
            is_signed_by(alloc, types, library_named(names, name), &all)
        }
        None => Ok(false),
    }
}

/// Whether plain char is signed, as the declarations of the library's functions say.
pub fn has_signed_chars(
    alloc: Global,
    units: &[Unit],
    types: &Types,
    table: &Table,
    names: &Names,
) -> Result<bool, AllocError>
    ensures { IfOk result (λ so. so ≡ tests.has_signed_chars names.now (map items_of units.now) (types_of types.now) (table_of table.now)) }
{
    for name in &table.order {
        if is_signed_at(alloc, units, types, table, names, *name)? {
            return Ok(true);
        }
    }
    Ok(false)
}
