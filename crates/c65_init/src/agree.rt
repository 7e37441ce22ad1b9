// Whether a prototype and an old-style definition agree (C90 6.5.4.3).
ghost use Rattle.std.specs.Prelude.{◌≡◌, IfOk, Ok, option_map, option_copied, slice_get};
ghost use Rattle.c65_base.specs.Answers.{Gives};
ghost use Rattle.c65_ctype.specs.Views.{qty_of, qtys_of, fn_of, types_of};
ghost use Rattle.c65_ctype.specs.Compatible.{stays};
ghost use Rattle.c65_csem.specs.Views.{func_of, object_of, unit_of};
ghost use Rattle.c65_init.specs.Agreeing;

use c65_base::{Code, Pos, Refusal};
use c65_csem::{Parts, TFunc, TObject, int_type, promoted, unqualified};
use c65_ctype::{CType, FnType, QType, Types};
use c65_ints::IntType;
use std::alloc::{AllocError, Global};

/// The type in which an argument without a prototype comes to an object of this type.
fn passed_as(alloc: Global, ty: &QType) -> Result<QType, AllocError>
    ensures { IfOk result (λ q. qty_of q ≡ Agreeing.passed_as (qty_of ty.now)) }
{
    match &ty.ty {
        CType::Int(kind) => Ok(int_type(promoted(*kind))),
        _ => unqualified(alloc, ty),
    }
}

/// Whether an argument of a type comes as it is where there is no prototype.
fn stays(ty: &QType) -> bool
    ensures { result ≡ stays (qty_of ty.now) }
{
    match ty.ty {
        CType::Int(IntType::SChar | IntType::UChar | IntType::Short | IntType::UShort) => false,
        _ => true,
    }
}

/// The type of a parameter, promoted or as it is.
fn taken_as(alloc: Global, is_promoted: bool, own: &QType) -> Result<QType, AllocError>
    ensures { IfOk result (λ q. qty_of q ≡ Agreeing.taken_as is_promoted (qty_of own.now)) }
{
    if is_promoted {
        passed_as(alloc, own)
    } else {
        unqualified(alloc, own)
    }
}

/// Whether an object of a type takes what a prototype passes in another one.
fn fits(alloc: Global, types: &Types, ty: &QType, own: &QType) -> Result<bool, Refusal>
    ensures { Gives (λ b. b) result (Ok (Agreeing.fits (types_of types.now) (qty_of ty.now) (qty_of own.now))) }
{
    let own = taken_as(alloc, stays(ty), own)?;
    let ty = unqualified(alloc, ty)?;
    types.compatible(&own, &ty)
}

fn takes(
    alloc: Global,
    types: &Types,
    ty: &QType,
    object: Option<&TObject>,
) -> Result<bool, Refusal>
    ensures { Gives (λ b. b) result (Ok (Agreeing.takes (types_of types.now) (qty_of ty.now) (option_map object_of (option_copied object.entry)))) }
{
    match object {
        Some(object) => fits(alloc, types, ty, &object.ty),
        None => Ok(false),
    }
}

/// An object by its number.
fn object(parts: &Parts, number: u32) -> Option<&TObject>
    ensures { option_map object_of (option_copied result) ≡ slice_get (unit_of parts.now).objects number }
{
    parts.objects.get(number as usize)
}

fn all_take(alloc: Global, parts: &Parts, types: &[QType], params: &[u32]) -> Result<bool, Refusal>
    ensures { Gives (λ b. b) result (Ok (Agreeing.all_take (unit_of parts.now) (qtys_of types.now) params.now)) }
{
    for (i, ty) in types.iter().enumerate() {
        let Some(param) = params.get(i) else {
            return Ok(false);
        };
        if !takes(alloc, &parts.types, ty, object(parts, *param))? {
            return Ok(false);
        }
    }
    Ok(types.len() == params.len())
}

/// Whether parameters, by the numbers of their objects, take what a function's prototype passes;
/// so they do where there is none.
fn agrees(alloc: Global, parts: &Parts, function: &FnType, params: &[u32]) -> Result<bool, Refusal>
    ensures { Gives (λ b. b) result (Ok (Agreeing.agree (unit_of parts.now) (fn_of function.now) params.now)) }
{
    match &function.params {
        Some(types) => all_take(alloc, parts, types, params),
        None => Ok(true),
    }
}

/// Refuses `Redeclared` for parameters that do not take what the prototypes before their function's
/// definition pass.
pub fn as_declared(
    alloc: Global,
    parts: &Parts,
    func: Option<&TFunc>,
    params: &[u32],
    pos: Pos,
) -> Result<(), Refusal>
    ensures { Gives (λ x. tt) result (Agreeing.as_declared (unit_of parts.now) params.now pos (option_map func_of (option_copied func.entry))) }
{
    let Some(func) = func else {
        return Ok(());
    };
    if agrees(alloc, parts, &func.ty, params)? {
        Ok(())
    } else {
        Err(Refusal::fault(Code::Redeclared, pos))
    }
}

/// Refuses `Redeclared` for a prototype that passes what the parameters of its function's
/// definition do not take.
pub fn as_defined(
    alloc: Global,
    parts: &Parts,
    func: Option<&TFunc>,
    pos: Pos,
) -> Result<(), Refusal>
    ensures { Gives (λ x. tt) result (Agreeing.as_defined (unit_of parts.now) pos (option_map func_of (option_copied func.entry))) }
{
    let Some(found) = func else {
        return Ok(());
    };
    if found.body.is_none() {
        return Ok(());
    }
    as_declared(alloc, parts, func, found.params.as_slice(), pos)
}
