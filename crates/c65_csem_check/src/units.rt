// Whether a unit is well typed, and a program whole (C90 6.7).
ghost use Rattle.std.specs.Prelude.{◌≡◌, ◌↔◌, true, map, option_map, option_copied, slice_get, IfOk, IfSome, IsSome, IsTrue};
ghost use Rattle.c65_ctype.specs.Views.{ty_of, qty_of, qtys_of, fn_of, types_of};
ghost use Rattle.c65_csem.specs.Places;
ghost use Rattle.c65_csem.specs.Units.{IsUnit, IsProgram, may_have_init, is_defined};
ghost use Rattle.c65_csem.specs.Views.{object_of, func_of, stmt_of, unit_of};
ghost use Rattle.c65_csem_check.specs.Kinds;
ghost use Rattle.c65_csem_check.specs.Units;
ghost use Rattle.c65_csem_check.specs.Units.{IsMeasuredUnit};

use crate::labels::add_labels;
use crate::lists::are_distinct;
use crate::nodes::{func, is_auto, object};
use crate::sizes::{measured, same_size};
use crate::stmts::{Around, is_stmt};
use crate::types::{are_alike, is_void};
use c65_csem::{
    Cell, Class, Parts, TFunc, TObject, TProgram, TStmt, TUnit, Target, is_scalar, is_sized,
    is_small,
};
use c65_ctype::{CType, FnType, QType, Types};
use std::alloc::{AllocError, Global};

fn names_target(parts: &Parts, target: Target) -> bool
    ensures { result ≡ Units.names_target (unit_of parts.now) target }
{
    match target {
        Target::Object(i) => (i as usize) < parts.objects.len(),
        Target::Literal(i) => (i as usize) < parts.literals.len(),
        Target::Func(i) => (i as usize) < parts.funcs.len(),
    }
}

fn is_cell(parts: &Parts, cell: Cell) -> bool
    ensures { result ≡ Units.is_cell (unit_of parts.now) cell }
{
    match cell {
        Cell::Byte(_) => true,
        Cell::Piece(target, _, part) => names_target(parts, target) && part <= 1,
    }
}

fn are_cells(parts: &Parts, cells: &[Cell]) -> bool
    ensures { result ≡ Units.are_cells (unit_of parts.now) cells.now }
{
    for cell in cells {
        if !is_cell(parts, *cell) {
            return false;
        }
    }
    true
}

fn is_length(length: usize, size: Option<u32>) -> bool
    ensures { result ≡ Units.is_length length size }
{
    match size {
        Some(size) => length == size as usize,
        None => false,
    }
}

fn may_have_init(class: Class) -> bool
    ensures { result ≡ may_have_init class }
{
    match class {
        Class::External | Class::Static => true,
        _ => false,
    }
}

fn is_init(parts: &Parts, object: &TObject) -> bool
    ensures { result ≡ Units.is_init (unit_of parts.now) (object_of object.now) (object_of object.now).init }
{
    match &object.init {
        Some(cells) => {
            may_have_init(object.class)
                && is_length(cells.len(), measured(&parts.types, &object.ty.ty))
                && are_cells(parts, cells)
        }
        None => true,
    }
}

fn has_size(parts: &Parts, object: &TObject) -> bool
    ensures { result ≡ Units.has_size (unit_of parts.now) (object_of object.now).ty (object_of object.now).class }
{
    match object.class {
        Class::Declared => true,
        _ => is_sized(&parts.types, &object.ty.ty),
    }
}

fn is_object(parts: &Parts, object: &TObject) -> bool
    ensures { result ≡ Units.is_object (unit_of parts.now) (object_of object.now) }
{
    has_size(parts, object)
        && is_init(parts, object)
        && (object.name.is_some() || is_auto(object.class))
}

fn are_objects(parts: &Parts) -> bool
    ensures { result ≡ Units.are_objects (unit_of parts.now) (unit_of parts.now).objects }
{
    for object in &parts.objects {
        if !is_object(parts, object) {
            return false;
        }
    }
    true
}

fn is_framed(class: Class) -> bool
    ensures { result ≡ Places.is_framed class }
{
    match class {
        Class::Auto | Class::Register => true,
        _ => false,
    }
}

fn is_passed(types: &Types, ty: &CType) -> bool
    ensures { result ≡ Places.is_passed (types_of types.now) (ty_of ty.now) }
{
    is_scalar(ty) || is_small(types, ty)
}

fn param_by(types: &Types, object: Option<&TObject>) -> bool
    ensures { result ≡ Units.param_by (types_of types.now) (option_map object_of (option_copied object.entry)) }
{
    match object {
        Some(object) => {
            is_framed(object.class) && is_passed(types, &object.ty.ty) && object.name.is_some()
        }
        None => false,
    }
}

fn are_params(parts: &Parts, params: &[u32]) -> bool
    ensures { result ≡ Units.are_params (unit_of parts.now) params.now }
{
    for param in params {
        if !param_by(&parts.types, object(parts, *param)) {
            return false;
        }
    }
    true
}

fn has_type_of(types: &Types, object: Option<&TObject>, q: &QType) -> bool
    ensures { result ≡ Units.has_type_of (types_of types.now) (option_map object_of (option_copied object.entry)) (qty_of q.now) }
{
    match object {
        Some(object) => are_alike(&object.ty, q) && same_size(types, &object.ty, q),
        None => false,
    }
}

fn params_match(parts: &Parts, types: &[QType], params: &[u32]) -> bool
    ensures { result ≡ Units.params_match (unit_of parts.now) (qtys_of types.now) params.now }
{
    for (i, ty) in types.iter().enumerate() {
        let Some(param) = params.get(i) else {
            return false;
        };
        if !has_type_of(&parts.types, object(parts, *param), ty) {
            return false;
        }
    }
    types.len() == params.len()
}

/// Whether parameters, by the numbers of their objects, have the types that a function's prototype
/// gives them, down to pointers and tags, and its sizes; so they have where there is no prototype. It takes no memory.
pub fn prototype_matches(parts: &Parts, function: &FnType, params: &[u32]) -> bool
    ensures { result ≡ Units.prototype_matches (unit_of parts.now) (fn_of function.now) params.now }
{
    match &function.params {
        Some(types) => params_match(parts, types, params),
        None => true,
    }
}

/// Whether a function may give this type, whatever its qualifiers.
fn gives_result(types: &Types, q: &QType) -> bool
    ensures { result ≡ Kinds.is_result (types_of types.now) (Places.plain_of (qty_of q.now)) }
{
    is_void(&q.ty) || is_scalar(&q.ty) || is_small(types, &q.ty)
}

fn is_body(alloc: Global, parts: &Parts, func: &TFunc, body: &TStmt) -> Result<bool, AllocError>
    ensures { IfOk result (λ so. so ≡ Units.is_body (unit_of parts.now) (func_of func.now) (stmt_of body.now)) }
{
    let params = func.params.as_slice();
    if !are_params(parts, params)
        || !prototype_matches(parts, &func.ty, params)
        || !are_distinct(params)
        || !gives_result(&parts.types, &func.ty.result)
    {
        return Ok(false);
    }
    let mut labels = Vec::new(alloc);
    add_labels(body, &mut labels)?;
    let labels = labels.as_slice();
    if !are_distinct(labels) {
        return Ok(false);
    }
    let at = Around {
        in_loop: false,
        in_switch: None,
    };
    is_stmt(alloc, parts, body, labels, &func.ty.result, at)
}

fn is_func(alloc: Global, parts: &Parts, func: &TFunc) -> Result<bool, AllocError>
    ensures { IfOk result (λ so. so ≡ Units.is_func (unit_of parts.now) (func_of func.now)) }
{
    match &func.body {
        Some(body) => is_body(alloc, parts, func, body),
        None => Ok(func.params.is_empty()),
    }
}

fn are_funcs(alloc: Global, parts: &Parts) -> Result<bool, AllocError>
    ensures { IfOk result (λ so. so ≡ Units.are_funcs (unit_of parts.now) (unit_of parts.now).funcs) }
{
    for func in &parts.funcs {
        if !is_func(alloc, parts, func)? {
            return Ok(false);
        }
    }
    Ok(true)
}

fn is_unit_by(alloc: Global, parts: &Parts) -> Result<bool, AllocError>
    ensures { IfOk result (λ so. so ≡ Units.is_unit (unit_of parts.now)) }
{
    if !are_objects(parts) {
        return Ok(false);
    }
    are_funcs(alloc, parts)
}

/// Whether parts are a unit: each of their trees is well typed, and each number in them names an
/// item. An object above 65,535 bytes is none. It takes memory for the labels of a function.
pub fn is_unit(alloc: Global, parts: &Parts) -> Result<bool, AllocError>
    ensures sound { IfOk result (λ so. so ≡ true → IsUnit (unit_of parts.now)) }
    ensures complete { IfOk result (λ so. IsUnit (unit_of parts.now) → IsMeasuredUnit (unit_of parts.now) → so ≡ true) }
{
    let so = is_unit_by(alloc, parts)?;
    Ok(so)
}

/// A unit of parts; none where they are none.
pub fn unit_from(alloc: Global, parts: Parts) -> Result<Option<TUnit>, AllocError>
    ensures same { IfOk result (λ found. IfSome found (λ unit. unit ≡ parts)) }
    ensures none { IfOk result (λ found. IsUnit (unit_of parts) → IsMeasuredUnit (unit_of parts) → IsSome found) }
{
    if is_unit(alloc, &parts)? {
        Ok(Some(TUnit::new(parts)))
    } else {
        Ok(None)
    }
}

// Programs.

fn are_defined(objects: &[TObject]) -> bool
    ensures { result ≡ Units.are_defined (map object_of objects.now) }
{
    for object in objects {
        if !is_defined(object.class) {
            return false;
        }
    }
    true
}

fn is_defined(class: Class) -> bool
    ensures { result ≡ is_defined class }
{
    match class {
        Class::Tentative | Class::Declared => false,
        _ => true,
    }
}

fn is_whole(func: &TFunc) -> bool
    ensures { result ≡ Units.is_whole (func_of func.now).body (func_of func.now).library }
{
    match (&func.body, &func.library) {
        (None, Some(_)) => true,
        (Some(_), None) => true,
        _ => false,
    }
}

fn are_linked(funcs: &[TFunc]) -> bool
    ensures { result ≡ Units.are_linked (map func_of funcs.now) }
{
    for func in funcs {
        if !is_whole(func) {
            return false;
        }
    }
    true
}

fn starts_in(func: Option<&TFunc>) -> bool
    ensures { result ≡ Units.starts_in (option_map func_of (option_copied func.entry)) }
{
    match func {
        Some(func) => func.body.is_some(),
        None => false,
    }
}

fn is_program_by(parts: &Parts, main: u32) -> bool
    ensures { result ≡ Units.is_program (unit_of parts.now) main }
{
    are_defined(&parts.objects) && are_linked(&parts.funcs) && starts_in(func(parts, main))
}

/// Whether a unit is whole: each function has either a body or is of the library, each object is
/// defined, and the function of this number has a body.
pub fn is_program(unit: &TUnit, main: u32) -> bool
    ensures { IsTrue result ↔ IsProgram (unit_of unit.now) main }
{
    is_program_by(unit.parts(), main)
}

/// A program of a whole unit; none where it is not whole.
pub fn program_from(unit: TUnit, main: u32) -> Option<TProgram>
    ensures same { IfSome result (λ program. program ≡ (unit, main)) }
    ensures none { IsSome result ↔ IsProgram (unit_of unit) main }
{
    if is_program(&unit, main) {
        Some(TProgram::new(unit, main))
    } else {
        None
    }
}
