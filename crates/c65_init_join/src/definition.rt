// The prototype of a function definition (C90 6.7.1).
ghost use Rattle.std.specs.Prelude.{◌≡◌, IfOk, map, slice_get};
ghost use Rattle.c65_ctype.specs.Views.{ty_of, qty_of, fn_of};
ghost use Rattle.c65_csem.specs.Library.{nothing};
ghost use Rattle.c65_csem.specs.Views.{object_of, func_of};
ghost use Rattle.c65_init_join.specs.Definitions as definitions;

use c65_csem::{TFunc, TObject, promoted};
use c65_ctype::{CType, FnType, QType};
use std::alloc::{AllocError, Global};

/// `void`
fn nothing() -> QType
    ensures { qty_of result ≡ nothing }
{
    QType {
        ty: CType::Void,
        is_const: false,
        is_volatile: false,
    }
}

/// The type of an object by its number.
fn parameter_type(alloc: Global, objects: &[TObject], number: u32) -> Result<QType, AllocError>
    ensures { IfOk result (λ q. qty_of q ≡ definitions.parameter_type (slice_get (map object_of objects.now) number)) }
{
    match objects.get(number as usize) {
        Some(object) => object.ty.copy(alloc),
        None => Ok(nothing()),
    }
}

/// The types of parameters, by the numbers of their objects.
fn parameter_types(
    alloc: Global,
    objects: &[TObject],
    params: &[u32],
) -> Result<Vec<QType>, AllocError>
    ensures { IfOk result (λ v. map qty_of v.items ≡ definitions.parameter_types (map object_of objects.now) params.now) }
{
    let mut types = Vec::new(alloc);
    for param in params {
        let ty = parameter_type(alloc, objects, *param)?;
        types.push(ty)?;
    }
    Ok(types)
}

/// The type in which an argument comes to a parameter where there is no prototype.
fn promoted_ty(alloc: Global, ty: &CType) -> Result<CType, AllocError>
    ensures { IfOk result (λ t. ty_of t ≡ definitions.promoted_ty (ty_of ty.now)) }
{
    match ty {
        CType::Int(kind) => Ok(CType::Int(promoted(*kind))),
        _ => ty.copy(alloc),
    }
}

fn promoted_type(alloc: Global, ty: &QType) -> Result<QType, AllocError>
    ensures { IfOk result (λ q. qty_of q ≡ definitions.promoted (qty_of ty.now)) }
{
    Ok(QType {
        ty: promoted_ty(alloc, &ty.ty)?,
        is_const: ty.is_const,
        is_volatile: ty.is_volatile,
    })
}

/// The types in which arguments come to parameters of these types where there is no prototype.
fn promoted_types(alloc: Global, types: &[QType]) -> Result<Vec<QType>, AllocError>
    ensures { IfOk result (λ v. map qty_of v.items ≡ map definitions.promoted (map qty_of types.now)) }
{
    let mut all = Vec::new(alloc);
    for ty in types {
        let ty = promoted_type(alloc, ty)?;
        all.push(ty)?;
    }
    Ok(all)
}

/// A function's type with a prototype of these types.
#[tactic(auto, using(crate::proofs::DefinitionLaws::row_given))]
fn with_row(alloc: Global, ty: &FnType, types: Vec<QType>) -> Result<FnType, AllocError>
    ensures { IfOk result (λ f. fn_of f ≡ definitions.with_row (map qty_of types.items) (fn_of ty.now)) }
{
    match ty.result.copy(alloc) {
        Ok(given) => Ok(FnType::new(given, Some(types), ty.variadic, ty.cdecl)),
        Err(error) => {
            drop(types);
            Err(error)
        }
    }
}

/// The prototype that the parameters of a definition give it.
fn own_types(alloc: Global, objects: &[TObject], func: &TFunc) -> Result<FnType, AllocError>
    ensures { IfOk result (λ f. fn_of f ≡ definitions.with_row (definitions.parameter_types (map object_of objects.now) (func_of func.now).params) (fn_of func.now.ty)) }
{
    let types = parameter_types(alloc, objects, func.params.as_slice())?;
    with_row(alloc, &func.ty, types)
}

/// The prototype that the promoted types of a definition's parameters give it.
fn promoted_row(alloc: Global, objects: &[TObject], func: &TFunc) -> Result<FnType, AllocError>
    ensures { IfOk result (λ f. fn_of f ≡ definitions.with_row (map definitions.promoted (definitions.parameter_types (map object_of objects.now) (func_of func.now).params)) (fn_of func.now.ty)) }
{
    let types = parameter_types(alloc, objects, func.params.as_slice())?;
    let types = promoted_types(alloc, types.as_slice())?;
    with_row(alloc, &func.ty, types)
}

/// The prototype of a definition. One in the old style has that of its parameters.
#[tactic(auto, using(crate::proofs::DefinitionLaws::own_known, crate::proofs::DefinitionLaws::own_unknown))]
pub fn own_prototype(alloc: Global, objects: &[TObject], func: &TFunc) -> Result<FnType, AllocError>
    ensures { IfOk result (λ f. fn_of f ≡ definitions.own_prototype (map object_of objects.now) (func_of func.now).params (func_of func.now).ty) }
{
    match &func.ty.params {
        Some(_) => func.ty.copy(alloc),
        None => own_types(alloc, objects, func),
    }
}

/// The type of a definition with which other declarations have to agree.
#[tactic(auto, using(crate::proofs::DefinitionLaws::defined_known, crate::proofs::DefinitionLaws::defined_unknown))]
fn defined_as(alloc: Global, objects: &[TObject], func: &TFunc) -> Result<FnType, AllocError>
    ensures { IfOk result (λ f. fn_of f ≡ definitions.defined_as (map object_of objects.now) (func_of func.now).params (func_of func.now).ty) }
{
    match &func.ty.params {
        Some(_) => func.ty.copy(alloc),
        None => promoted_row(alloc, objects, func),
    }
}

/// The type with which the other declarations of a function have to agree (C90 6.5.4.3).
pub fn agreeing(alloc: Global, objects: &[TObject], func: &TFunc) -> Result<FnType, AllocError>
    ensures { IfOk result (λ f. fn_of f ≡ definitions.agreeing (map object_of objects.now) (func_of func.now)) }
{
    match &func.body {
        Some(_) => defined_as(alloc, objects, func),
        None => func.ty.copy(alloc),
    }
}
