// The items of all units get their numbers in the program.
ghost use Rattle.std.specs.Prelude.{◌≡◌, IfOk, OnOk, map, ◌+◌};
ghost use Rattle.c65_csem.specs.Views.{object_of, func_of};
ghost use Rattle.c65_init_join.specs.Items.{items_of};
ghost use Rattle.c65_init_join.specs.Numbers as ns;
ghost use Rattle.c65_init_join.specs.Numbers.{numbers_of, assigned_of, counts_of};
ghost use Rattle.c65_init_join.specs.Tables.{external_of, table_of};

use crate::known::library_named;
use crate::numbers::{Numbers, numbered};
use crate::table::{External, Item, Place, Table, is_external, same_place};
use crate::unit::Unit;
use c65_base::{Name, Names};
use c65_csem::{TFunc, TObject};
use std::alloc::{AllocError, Global};

/// How many objects, functions and literals have a number so far.
#[derive(Clone, Copy, Debug)]
pub struct Counts {
    pub objects: u32,
    pub funcs: u32,
    pub literals: u32,
}

/// For the items of one unit: which of them the program keeps, where others stand for the rest, and
/// their numbers; the number of its first literal; and by how much its tags are raised.
#[derive(Drop)]
pub struct Assigned {
    pub kept_objects: Vec<bool>,
    pub kept_funcs: Vec<bool>,
    pub objects: Vec<Option<u32>>,
    pub funcs: Vec<Option<u32>>,
    pub literals: u32,
    pub tags: u32,
}

fn is_at(found: Option<Place>, place: Place) -> bool
    ensures { result ≡ ns.is_at found place }
{
    match found {
        Some(found) => same_place(found, place),
        None => false,
    }
}

/// Whether an object stands for its name in the program.
fn is_kept_object(table: &Table, object: &TObject, place: Place) -> bool
    ensures { result ≡ ns.is_kept_object (table_of table.now) place (object_of object.now) }
{
    if is_external(object) {
        is_at(table.place_of(object.name), place)
    } else {
        true
    }
}

/// Whether a declaration of a function stands for its name. Of a function of the library that is
/// used it is the first one.
fn is_kept_external(external: &External, of_library: bool, place: Place) -> bool
    ensures { result ≡ ns.is_kept_external of_library (external_of external.now) place }
{
    if external.definition.is_some() {
        is_at(external.definition, place)
    } else {
        of_library && external.is_used && is_at(external.places.first().copied(), place)
    }
}

/// Whether a function stands for its name in the program.
fn is_kept_func(table: &Table, names: &Names, func: &TFunc, place: Place) -> bool
    ensures { result ≡ ns.is_kept_func names.now (table_of table.now) place (func_of func.now) }
{
    if !func.external {
        return func.body.is_some();
    }
    match table.get(func.name) {
        Some(external) => {
            is_kept_external(external, library_named(names, func.name).is_some(), place)
        }
        None => false,
    }
}

/// Which objects of a unit stand for their names.
fn kept_objects(
    alloc: Global,
    table: &Table,
    objects: &[TObject],
    unit: u32,
) -> Result<Vec<bool>, AllocError>
    ensures { IfOk result (λ v. v.items ≡ ns.kept_objects (table_of table.now) unit 0 (map object_of objects.now)) }
{
    let mut kept = Vec::new(alloc);
    for (i, object) in objects.iter().enumerate() {
        let item = Item::Object(numbered(i)?);
        kept.push(is_kept_object(table, object, Place { unit, item }))?;
    }
    Ok(kept)
}

/// Which functions of a unit stand for their names.
fn kept_funcs(
    alloc: Global,
    table: &Table,
    names: &Names,
    funcs: &[TFunc],
    unit: u32,
) -> Result<Vec<bool>, AllocError>
    ensures { IfOk result (λ v. v.items ≡ ns.kept_funcs names.now (table_of table.now) unit 0 (map func_of funcs.now)) }
{
    let mut kept = Vec::new(alloc);
    for (i, func) in funcs.iter().enumerate() {
        let item = Item::Func(numbered(i)?);
        kept.push(is_kept_func(table, names, func, Place { unit, item }))?;
    }
    Ok(kept)
}

/// Numbers one after another for the items that are kept, and the next number.
fn given_from(
    alloc: Global,
    first: u32,
    kept: &[bool],
) -> Result<(Vec<Option<u32>>, u32), AllocError>
    ensures given { IfOk result (λ x. x.0.items ≡ ns.given_from first kept.now) }
    ensures next { IfOk result (λ x. x.1 ≡ ns.count_from first kept.now) }
{
    let mut next = first;
    let mut given = Vec::new(alloc);
    for is_kept in kept {
        if *is_kept {
            given.push(Some(next))?;
            let Some(later) = next.checked_add(1) else {
                return Err(AllocError);
            };
            next = later;
        } else {
            given.push(None)?;
        }
    }
    Ok((given, next))
}

/// A name's item has its number.
fn note_number(table: &mut Table, is_external: bool, name: Name, number: Option<u32>)
    ensures { table_of table.new ≡ ns.number_noted is_external number (table_of table.old) name }
{
    if is_external {
        if let Some(number) = number {
            table.set_number(name, number);
        }
    }
}

/// The same of what may have no name.
fn keep_number(table: &mut Table, is_external: bool, name: Option<Name>, number: Option<u32>)
    ensures { table_of table.new ≡ ns.number_kept is_external number (table_of table.old) name }
{
    if let Some(name) = name {
        note_number(table, is_external, name, number);
    }
}

/// The number at a place of a list.
fn given_at(given: &[Option<u32>], at: usize) -> Option<u32>
    ensures { result ≡ ns.given_at given.now at }
{
    match given.get(at) {
        Some(number) => *number,
        None => None,
    }
}

fn note_objects(table: &mut Table, objects: &[TObject], given: &[Option<u32>])
    ensures { table_of table.new ≡ ns.objects_noted given.now 0 (map object_of objects.now) (table_of table.old) }
{
    for (i, object) in objects.iter().enumerate() {
        keep_number(table, is_external(object), object.name, given_at(given, i));
    }
}

fn note_funcs(table: &mut Table, funcs: &[TFunc], given: &[Option<u32>])
    ensures { table_of table.new ≡ ns.funcs_noted given.now 0 (map func_of funcs.now) (table_of table.old) }
{
    for (i, func) in funcs.iter().enumerate() {
        note_number(table, func.external, func.name, given_at(given, i));
    }
}

/// The number behind so many literals.
fn literals_after(first: u32, count: usize) -> Result<u32, AllocError>
    ensures { IfOk result (λ n. n ≡ first + count) }
{
    let count = numbered(count)?;
    match first.checked_add(count) {
        Some(sum) => Ok(sum),
        None => Err(AllocError),
    }
}

/// The numbers of a unit's items that stand for their names.
fn assign(
    alloc: Global,
    table: &Table,
    names: &Names,
    unit: &Unit,
    number: u32,
    counts: &mut Counts,
) -> Result<Assigned, AllocError>
    ensures assigned { IfOk result (λ a. assigned_of a ≡ ns.assigned names.now (table_of table.now) number (counts_of counts.old) (items_of unit.now)) }
    ensures counts { OnOk result (counts_of counts.new ≡ ns.counted names.now (table_of table.now) number (counts_of counts.old) (items_of unit.now)) }
{
    let first = *counts;
    let kept_objects = kept_objects(alloc, table, &unit.objects, number)?;
    let kept_funcs = kept_funcs(alloc, table, names, &unit.funcs, number)?;
    let (objects, next_object) = given_from(alloc, first.objects, &kept_objects)?;
    let (funcs, next_func) = given_from(alloc, first.funcs, &kept_funcs)?;
    *counts = Counts {
        objects: next_object,
        funcs: next_func,
        literals: literals_after(first.literals, unit.literals.len())?,
    };
    Ok(Assigned {
        kept_objects,
        kept_funcs,
        objects,
        funcs,
        literals: first.literals,
        tags: unit.tags,
    })
}

/// The numbers of all items that stand for their names.
pub fn assign_all(
    alloc: Global,
    units: &[Unit],
    table: &mut Table,
    names: &Names,
) -> Result<Vec<Assigned>, AllocError>
    ensures assigned { IfOk result (λ v. map assigned_of v.items ≡ ns.all_assigned names.now 0 ns.no_counts (map items_of units.now) (table_of table.old)) }
    ensures table { OnOk result (table_of table.new ≡ ns.all_noted names.now 0 ns.no_counts (map items_of units.now) (table_of table.old)) }
{
    let mut counts = Counts {
        objects: 0,
        funcs: 0,
        literals: 0,
    };
    let mut all = Vec::new(alloc);
    for (i, unit) in units.iter().enumerate() {
        let number = numbered(i)?;
        let assigned = assign(alloc, table, names, unit, number, &mut counts)?;
        note_objects(table, &unit.objects, &assigned.objects);
        note_funcs(table, &unit.funcs, &assigned.funcs);
        all.push(assigned)?;
    }
    Ok(all)
}

/// The numbers of objects, also of those for which another declaration stands.
fn complete_objects(
    alloc: Global,
    table: &Table,
    objects: &[TObject],
    given: &[Option<u32>],
) -> Result<Vec<Option<u32>>, AllocError>
    ensures { IfOk result (λ v. v.items ≡ ns.completed_objects (table_of table.now) given.now 0 (map object_of objects.now)) }
{
    let mut numbers = Vec::new(alloc);
    for (i, object) in objects.iter().enumerate() {
        let number = if is_external(object) {
            table.number_of(object.name)
        } else {
            given_at(given, i)
        };
        numbers.push(number)?;
    }
    Ok(numbers)
}

/// The numbers of functions, also of those for which another declaration stands.
fn complete_funcs(
    alloc: Global,
    table: &Table,
    funcs: &[TFunc],
    given: &[Option<u32>],
) -> Result<Vec<Option<u32>>, AllocError>
    ensures { IfOk result (λ v. v.items ≡ ns.completed_funcs (table_of table.now) given.now 0 (map func_of funcs.now)) }
{
    let mut numbers = Vec::new(alloc);
    for (i, func) in funcs.iter().enumerate() {
        let number = if func.external {
            table.number(func.name)
        } else {
            given_at(given, i)
        };
        numbers.push(number)?;
    }
    Ok(numbers)
}

/// The numbers of a unit's items, also of those for which another declaration stands.
pub fn complete(
    alloc: Global,
    table: &Table,
    unit: &Unit,
    assigned: &Assigned,
) -> Result<Numbers, AllocError>
    ensures { IfOk result (λ n. numbers_of n ≡ ns.completed (table_of table.now) (items_of unit.now) (assigned_of assigned.now)) }
{
    Ok(Numbers {
        objects: complete_objects(alloc, table, &unit.objects, &assigned.objects)?,
        funcs: complete_funcs(alloc, table, &unit.funcs, &assigned.funcs)?,
        literals: assigned.literals,
        tags: assigned.tags,
    })
}
