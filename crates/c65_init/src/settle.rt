// Functions whose definition has no prototype, and a prototype elsewhere (C90 6.5.4.3, 6.7.1).
ghost use Rattle.std.specs.Prelude.{◌≡◌, IfOk, Ok, length, map, option_map, slice_get};
ghost use Rattle.c65_base.specs.Answers.{Gives};
ghost use Rattle.c65_ctype.specs.Views.{fn_of};
ghost use Rattle.c65_csem.specs.Views.{func_of, unit_of};
ghost use Rattle.c65_elab_scope.specs.Parts.{with_func};
ghost use Rattle.c65_elab_scope.specs.Scopes.{scope_of};
ghost use Rattle.c65_init.specs.Settled.{unprototyped, type_settled, function_settled, functions_settled};

use c65_base::Refusal;
use c65_csem::{Parts, TFunc};
use c65_csem_check::prototype_matches;
use c65_ctype::FnType;
use c65_elab_scope::Scope;
use std::alloc::{AllocError, Global};

/// A function's type without its prototype.
#[tactic(auto, using(crate::proofs::Places::unprototyped_is))]
fn unprototyped(alloc: Global, ty: &FnType) -> Result<FnType, AllocError>
    ensures { IfOk result (λ t. fn_of t ≡ unprototyped (fn_of ty.now)) }
{
    let given = ty.result.copy(alloc)?;
    Ok(FnType::new(given, None, false, ty.cdecl))
}

/// The type that a function gets, if it gets another one.
fn type_settled(alloc: Global, parts: &Parts, number: u32) -> Result<Option<FnType>, AllocError>
    ensures { IfOk result (λ t. option_map fn_of t ≡ type_settled (unit_of parts.now) (slice_get (unit_of parts.now).funcs number)) }
{
    let Some(func) = parts.funcs.get(number as usize) else {
        return Ok(None);
    };
    if func.body.is_some() && !prototype_matches(parts, &func.ty, &func.params) {
        let ty = unprototyped(alloc, &func.ty)?;
        return Ok(Some(ty));
    }
    Ok(None)
}

/// A function has this type.
#[tactic(auto, using(crate::proofs::PartLaws::func_typed, crate::proofs::PartLaws::func_untyped))]
fn set_type(funcs: &mut Vec<TFunc>, number: u32, ty: FnType)
    ensures { map func_of funcs.new.items ≡ with_func (map func_of funcs.old.items) number (fn_of ty) }
{
    if let Some(func) = funcs.get_mut(number as usize) {
        func.ty = ty;
    }
}

/// A function that has a body has a type that its parameters match.
fn settle(alloc: Global, scope: &mut Scope, number: u32) -> Result<(), Refusal>
    ensures { Gives (λ x. scope_of scope.new) result (Ok (function_settled (scope_of scope.old) number)) }
{
    match type_settled(alloc, scope.parts(), number)? {
        Some(ty) => {
            set_type(&mut scope.parts.funcs, number, ty);
            Ok(())
        }
        None => Ok(()),
    }
}

/// How many functions were declared.
#[tactic(auto, using(crate::proofs::PartLaws::funcs_many))]
fn func_count(scope: &Scope) -> usize
    ensures { result ≡ length (scope_of scope.now).unit.funcs }
{
    scope.parts().funcs.len()
}

/// Functions that have a body have types that their parameters match.
#[tactic(auto, using(crate::proofs::Lists::functions_next, crate::proofs::Lists::functions_done))]
pub fn settle_functions(alloc: Global, scope: &mut Scope) -> Result<(), Refusal>
    ensures { Gives (λ x. scope_of scope.new) result (Ok (functions_settled (scope_of scope.old))) }
{
    for turn in 0..func_count(scope) {
        settle(alloc, scope, turn.min(0xffff_ffff) as u32)?;
    }
    Ok(())
}
