// A program of units.
ghost use Rattle.std.specs.Prelude.{◌≡◌, IfOk, OnOk, map, option_map, option_copied, slice_get, ◌++◌};
ghost use Rattle.c65_ctype.specs.Trees.{type_in};
ghost use Rattle.c65_ctype.specs.Sizes.{size_of};
ghost use Rattle.c65_ctype.specs.Views.{qty_of, types_of};
ghost use Rattle.c65_csem.specs.Library.{library_at};
ghost use Rattle.c65_csem.specs.Views.{object_of, func_of, unit_of};
ghost use Rattle.c65_init_join.specs.Answers.{Gives};
ghost use Rattle.c65_init_join.specs.Items.{items_of};
ghost use Rattle.c65_init_join.specs.Joined as rules;
ghost use Rattle.c65_init_join.specs.Numbers.{numbers_of, assigned_of};
ghost use Rattle.c65_init_join.specs.Tables.{table_of};

use crate::agree::{check_types, has_signed_chars};
use crate::assign::{Assigned, assign_all, complete};
use crate::checks::{check_defined, check_twice, main_name};
use crate::known::library_named;
use crate::marks::{is_marked, uses_of};
use crate::numbers::Numbers;
use crate::renumber::{renumber_cells, renumber_objects, renumber_stmt};
use crate::table::Table;
use crate::unit::{Unit, take_apart};
use c65_base::{Library, Name, Names, Pos, Refusal};
use c65_csem::{Cell, Class, Parts, TFunc, TObject, TProgram, TUnit, library_type};
use c65_csem_check::{program_from, unit_from};
use c65_ctype::{QType, Types};
use std::alloc::{AllocError, Global};

/// Refuses names that are used and defined nowhere, and enters which names are used.
fn enter_uses(
    alloc: Global,
    units: &[Unit],
    table: &mut Table,
    names: &Names,
) -> Result<(), Refusal>
    ensures { Gives (λ x. table_of table.new) result (rules.all_used names.now (map items_of units.now) (table_of table.old)) }
{
    for unit in units {
        let marks = uses_of(alloc, unit)?;
        check_defined(alloc, unit, &marks, table, names)?;
        table.enter_uses(unit, &marks);
    }
    Ok(())
}

/// So many zero bytes.
fn zeros(alloc: Global, count: u32) -> Result<Vec<Cell>, AllocError>
    ensures { IfOk result (λ v. v.items ≡ rules.zeros count) }
{
    let mut cells = Vec::new(alloc);
    cells.resize(count as usize, Cell::Byte(0))?;
    Ok(cells)
}

/// The bytes of an object. Each has at most 65,535.
#[tactic(auto, using(crate::proofs::SizeLaws::size_known))]
fn size_of(types: &Types, ty: &QType) -> Result<u32, AllocError>
    ensures { IfOk result (λ n. n ≡ size_of (types_of types.now) (type_in (qty_of ty.now))) }
{
    let Ok(size) = types.size(&ty.ty, Pos { file: 0, line: 0 }) else {
        return Err(AllocError);
    };
    Ok(size)
}

/// An object becomes one of the program. One that is defined without an initialiser begins with zero
/// bytes.
fn finish_object(
    alloc: Global,
    types: &Types,
    numbers: &Numbers,
    object: &mut TObject,
) -> Result<(), AllocError>
    ensures { OnOk result (object_of object.new ≡ rules.finished_object (types_of types.now) (numbers_of numbers.now) (object_of object.old)) }
{
    match object.class {
        Class::Tentative => {
            let size = size_of(types, &object.ty)?;
            let cells = zeros(alloc, size)?;
            object.init = Some(cells);
            object.class = Class::External;
        }
        _ => {
            if let Some(cells) = &mut object.init {
                renumber_cells(numbers, cells)?;
            }
        }
    }
    Ok(())
}

/// The function of the library that a function without a body is.
fn library_for(names: &Names, func: &TFunc) -> Option<Library>
    ensures { result ≡ rules.library_for (func_of func.now).body (library_at names.now func.now.name.0) }
{
    if func.body.is_some() {
        None
    } else {
        library_named(names, func.name)
    }
}

/// A function becomes one of the program. One without a body is of the library.
fn finish_func(
    alloc: Global,
    names: &Names,
    signed_chars: bool,
    numbers: &Numbers,
    func: &mut TFunc,
) -> Result<(), AllocError>
    ensures { OnOk result (func_of func.new ≡ rules.finished_func names.now signed_chars (numbers_of numbers.now) (func_of func.old)) }
{
    let library = library_for(names, func);
    if let Some(body) = &mut func.body {
        renumber_stmt(alloc, numbers, body)?;
    }
    renumber_objects(numbers, &mut func.params)?;
    if let Some(library) = library {
        func.ty = library_type(alloc, signed_chars, library)?;
        func.library = Some(library);
    }
    Ok(())
}

/// Adds an object, where the program keeps it.
fn add_object(
    alloc: Global,
    types: &Types,
    program: &mut Vec<TObject>,
    is_kept: bool,
    numbers: &Numbers,
    object: TObject,
) -> Result<(), AllocError>
    ensures { OnOk result (map object_of program.new.items ≡ map object_of program.old.items ++ map (rules.finished_object (types_of types.now) (numbers_of numbers.now)) (rules.one_if is_kept (object_of object))) }
{
    let mut object = object;
    if is_kept {
        finish_object(alloc, types, numbers, &mut object)?;
        program.push(object)?;
    }
    Ok(())
}

/// Adds the objects that the program keeps.
fn add_objects(
    alloc: Global,
    types: &Types,
    program: &mut Vec<TObject>,
    kept: &[bool],
    numbers: &Numbers,
    objects: Vec<TObject>,
) -> Result<(), AllocError>
    ensures { OnOk result (map object_of program.new.items ≡ map object_of program.old.items ++ map (rules.finished_object (types_of types.now) (numbers_of numbers.now)) (rules.selected kept.now 0 (map object_of objects.items))) }
{
    let mut i: usize = 0;
    for object in objects {
        add_object(alloc, types, program, is_marked(kept, i), numbers, object)?;
        let Some(next) = i.checked_add(1) else {
            return Err(AllocError);
        };
        i = next;
    }
    Ok(())
}

/// Adds a function, where the program keeps it.
fn add_func(
    alloc: Global,
    names: &Names,
    signed_chars: bool,
    program: &mut Vec<TFunc>,
    is_kept: bool,
    numbers: &Numbers,
    func: TFunc,
) -> Result<(), AllocError>
    ensures { OnOk result (map func_of program.new.items ≡ map func_of program.old.items ++ map (rules.finished_func names.now signed_chars (numbers_of numbers.now)) (rules.one_if is_kept (func_of func))) }
{
    let mut func = func;
    if !is_kept {
        drop(func);
        return Ok(());
    }
    match finish_func(alloc, names, signed_chars, numbers, &mut func) {
        Ok(()) => {
            program.push(func)?;
            Ok(())
        }
        Err(error) => {
            drop(func);
            Err(error)
        }
    }
}

/// Adds the functions that the program keeps.
fn add_funcs(
    alloc: Global,
    names: &Names,
    signed_chars: bool,
    program: &mut Vec<TFunc>,
    kept: &[bool],
    numbers: &Numbers,
    funcs: Vec<TFunc>,
) -> Result<(), AllocError>
    ensures { OnOk result (map func_of program.new.items ≡ map func_of program.old.items ++ map (rules.finished_func names.now signed_chars (numbers_of numbers.now)) (rules.selected kept.now 0 (map func_of funcs.items))) }
{
    let mut i: usize = 0;
    for func in funcs {
        add_func(
            alloc,
            names,
            signed_chars,
            program,
            is_marked(kept, i),
            numbers,
            func,
        )?;
        let Some(next) = i.checked_add(1) else {
            return Err(AllocError);
        };
        i = next;
    }
    Ok(())
}

/// Adds the items of a unit that stand for their names.
fn add_unit(
    alloc: Global,
    program: &mut Parts,
    names: &Names,
    signed_chars: bool,
    assigned: &Assigned,
    numbers: &Numbers,
    unit: Unit,
) -> Result<(), AllocError>
    ensures { OnOk result (unit_of program.new ≡ rules.with_items names.now signed_chars (assigned_of assigned.now) (numbers_of numbers.now) (unit_of program.old) (items_of unit)) }
{
    let Unit {
        objects,
        mut literals,
        funcs,
        ..
    } = unit;
    add_objects(
        alloc,
        &program.types,
        &mut program.objects,
        &assigned.kept_objects,
        numbers,
        objects,
    )?;
    add_funcs(
        alloc,
        names,
        signed_chars,
        &mut program.funcs,
        &assigned.kept_funcs,
        numbers,
        funcs,
    )?;
    program.literals.append(&mut literals)?;
    Ok(())
}

/// The numbers of a unit.
fn assigned_at(all: &[Assigned], at: usize) -> Option<&Assigned>
    ensures { option_map assigned_of (option_copied result) ≡ slice_get (map assigned_of all.now) at }
{
    all.get(at)
}

/// The items of all units, with their numbers.
fn put_together(
    alloc: Global,
    types: Types,
    names: &Names,
    signed_chars: bool,
    table: &Table,
    units: Vec<Unit>,
    all: &[Assigned],
) -> Result<Parts, AllocError>
    ensures { IfOk result (λ p. unit_of p ≡ rules.with_all names.now signed_chars (table_of table.now) (rules.no_items (types_of types)) (map items_of units.items) (map assigned_of all.now)) }
{
    let mut program = Parts {
        types,
        objects: Vec::new(alloc),
        literals: Vec::new(alloc),
        funcs: Vec::new(alloc),
    };
    let mut i: usize = 0;
    for unit in units {
        let Some(assigned) = assigned_at(all, i) else {
            return Err(AllocError);
        };
        let numbers = complete(alloc, table, &unit, assigned)?;
        add_unit(
            alloc,
            &mut program,
            names,
            signed_chars,
            assigned,
            &numbers,
            unit,
        )?;
        let Some(next) = i.checked_add(1) else {
            return Err(AllocError);
        };
        i = next;
    }
    Ok(program)
}

/// The program, whose trees are looked at once more.
fn whole(alloc: Global, parts: Parts, main: u32) -> Result<TProgram, AllocError>
    ensures { IfOk result (λ p. p ≡ (parts, main)) }
{
    let Some(unit) = unit_from(alloc, parts)? else {
        return Err(AllocError);
    };
    match program_from(unit, main) {
        Some(program) => Ok(program),
        None => Err(AllocError),
    }
}

/// The program of units whose names were checked.
fn program_of(
    alloc: Global,
    types: Types,
    units: Vec<Unit>,
    table: Table,
    names: &Names,
    main: Name,
) -> Result<TProgram, AllocError>
    ensures { IfOk result (λ p. (unit_of p.0, p.1) ≡ rules.program_by names.now (types_of types) (map items_of units.items) (table_of table) main) }
{
    let mut table = table;
    let signed_chars = has_signed_chars(alloc, &units, &types, &table, names)?;
    let all = assign_all(alloc, &units, &mut table, names)?;
    let parts = put_together(alloc, types, names, signed_chars, &table, units, &all)?;
    match table.number(main) {
        Some(main) => whole(alloc, parts, main),
        None => Err(AllocError),
    }
}

/// The name of the main function of units that may be joined, and what they say of their names.
fn checked(
    alloc: Global,
    types: &Types,
    units: &[Unit],
    names: &Names,
) -> Result<(Table, Name), Refusal>
    ensures { Gives (λ x. (table_of x.0, x.1)) result (rules.checked names.now (types_of types.now) (map items_of units.now)) }
{
    let mut table = Table::of_units(alloc, units, names.len())?;
    check_twice(alloc, &table, names)?;
    check_types(alloc, units, types, &table, names)?;
    enter_uses(alloc, units, &mut table, names)?;
    let main = main_name(alloc, units, types, &table, names)?;
    Ok((table, main))
}

/// A program of the units. Refuses, in this order, `Twice` at the first name of external linkage
/// that two units define, or a unit and the library; `TypesDiffer` at the first one whose types do
/// not agree; `Undefined` at the first name that is used and defined nowhere; and `Main` where
/// `main` is missing or has another type (C90 5.1.2.2.1, 6.1.2.2, 6.7). `names` is the table with
/// which the units were made.
pub fn join(alloc: Global, units: Vec<TUnit>, names: &Names) -> Result<TProgram, Refusal>
    ensures { Gives (λ p. (unit_of p.0, p.1)) result (rules.joined names.now (map unit_of units.items)) }
{
    let mut types = Types::new(alloc);
    let units = take_apart(alloc, &mut types, units)?;
    let (table, main) = checked(alloc, &types, &units, names)?;
    Ok(program_of(alloc, types, units, table, names, main)?)
}
