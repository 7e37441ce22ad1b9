// The units taken apart: their tags are put together, and raised in the types of their items.
ghost use Rattle.std.specs.Prelude.{◌≡◌, IfOk, OnOk, length, map};
ghost use Rattle.c65_ctype.specs.Views.{qty_of, fn_of, types_of};
ghost use Rattle.c65_ctype.specs.Raised.{raised, raised_fn, appended};
ghost use Rattle.c65_csem.specs.Views.{object_of, func_of, unit_of};
ghost use Rattle.c65_init_join.specs.Items.{items_of, raised_object, raised_func, raised_items, all_types, all_items};

use c65_base::Text as Bytes;
use c65_csem::{Parts, TFunc, TObject, TUnit};
use c65_ctype::{FnType, QType, Types};
use std::alloc::{AllocError, Global};

/// A unit without its tags, which are by this number higher in the program.
#[derive(Drop)]
pub struct Unit {
    pub tags: u32,
    pub objects: Vec<TObject>,
    pub literals: Vec<Bytes>,
    pub funcs: Vec<TFunc>,
}

/// The tags of a type are raised. Those of the first unit stay as they are.
pub fn raise_type(alloc: Global, ty: &mut QType, by: u32) -> Result<(), AllocError>
    ensures { OnOk result (qty_of ty.new ≡ raised by (qty_of ty.old)) }
{
    if by > 0 {
        let raised = ty.raised(alloc, by)?;
        *ty = raised;
    }
    Ok(())
}

fn raise_fn(alloc: Global, ty: &mut FnType, by: u32) -> Result<(), AllocError>
    ensures { OnOk result (fn_of ty.new ≡ raised_fn by (fn_of ty.old)) }
{
    if by > 0 {
        let raised = ty.raised(alloc, by)?;
        *ty = raised;
    }
    Ok(())
}

/// The types of objects with their tags raised.
#[tactic(auto, using(crate::proofs::ItemLaws::raised_end))]
fn raise_objects(alloc: Global, objects: &mut Vec<TObject>, by: u32) -> Result<(), AllocError>
    ensures { OnOk result (map object_of objects.new.items ≡ map (raised_object by) (map object_of objects.old.items)) }
{
    for i in 0..objects.len() {
        raise_type(alloc, &mut objects[i].ty, by)?;
    }
    Ok(())
}

/// The types of functions with their tags raised.
#[tactic(auto, using(crate::proofs::ItemLaws::raised_end))]
fn raise_funcs(alloc: Global, funcs: &mut Vec<TFunc>, by: u32) -> Result<(), AllocError>
    ensures { OnOk result (map func_of funcs.new.items ≡ map (raised_func by) (map func_of funcs.old.items)) }
{
    for i in 0..funcs.len() {
        raise_fn(alloc, &mut funcs[i].ty, by)?;
    }
    Ok(())
}

/// The number of tags that are there, by which those of a later table are raised.
fn append(types: &mut Types, later: Types) -> Result<u32, AllocError>
    ensures by { IfOk result (λ by. by ≡ length (types_of types.old).tags) }
    ensures ok { OnOk result (types_of types.new ≡ appended (types_of types.old) (types_of later)) }
{
    match types.append(later) {
        Ok(by) => Ok(by),
        Err(_) => Err(AllocError),
    }
}

/// A unit whose tags are put behind those of earlier units.
fn taken(alloc: Global, types: &mut Types, unit: TUnit) -> Result<Unit, AllocError>
    ensures items { IfOk result (λ u. items_of u ≡ raised_items (length (types_of types.old).tags) (unit_of unit)) }
    ensures types { OnOk result (types_of types.new ≡ appended (types_of types.old) (unit_of unit).types) }
{
    let Parts {
        types: own,
        mut objects,
        literals,
        mut funcs,
    } = unit.into_parts();
    let tags = append(types, own)?;
    raise_objects(alloc, &mut objects, tags)?;
    raise_funcs(alloc, &mut funcs, tags)?;
    Ok(Unit {
        tags,
        objects,
        literals,
        funcs,
    })
}

/// All units, and the tags of all of them.
pub fn take_apart(
    alloc: Global,
    types: &mut Types,
    units: Vec<TUnit>,
) -> Result<Vec<Unit>, AllocError>
    ensures items { IfOk result (λ v. map items_of v.items ≡ all_items (types_of types.old) (map unit_of units.items)) }
    ensures types { OnOk result (types_of types.new ≡ all_types (types_of types.old) (map unit_of units.items)) }
{
    let mut taken_units = Vec::new(alloc);
    for unit in units {
        let unit = taken(alloc, types, unit)?;
        taken_units.push(unit)?;
    }
    Ok(taken_units)
}
