// Parameters of prototypes (C90 6.5.4.3).
ghost use Rattle.std.specs.Prelude.{◌≡◌, ◌≤◌, ◌&&◌, IfOk, map};
ghost use Rattle.c65_base.specs.Answers.{Gives};
ghost use Rattle.c65_ctype.specs.Views.{ty_of, qty_of, types_of};
ghost use Rattle.c65_tree.specs.View.{specifier_of, specifiers_of};
ghost use Rattle.c65_elab_scope.specs.Scopes.{scope_of};
ghost use Rattle.c65_elab_declare.specs.Declarators.{formal_of};
ghost use Rattle.c65_elab_declare.specs.Prototypes.{storage_at, first_of, storage_place, param_storage, is_nothing, param_form, param_class, param_named, formal_in, own_bytes, more_bytes, is_void_type, has_void, without_void};

use crate::parts::{Formal, adjusted, fault};
use c65_base::{Code, Name, Pos, Refusal, Size};
use c65_ctype::{CType, QType, Types};
use c65_elab_convert::structure_size;
use c65_elab_scope::Scope;
use c65_tree::{Specifier, SpecifierKind, Specifiers, Storage};
use std::alloc::Global;

/// The place of a specifier that is a storage class.
fn storage_at(item: &Specifier) -> Option<Pos>
    ensures { result ≡ storage_at (specifier_of item.now) }
{
    match &item.kind {
        SpecifierKind::Storage(_) => Some(item.pos),
        _ => None,
    }
}

/// The place of the first storage class.
fn first_storage(items: &[Specifier]) -> Option<Pos>
    ensures { result ≡ first_of items.now }
{
    for item in items {
        if let Some(pos) = storage_at(item) {
            return Some(pos);
        }
    }
    None
}

/// The place of the storage class among specifiers.
fn storage_place(specifiers: &Specifiers) -> Pos
    ensures { result ≡ storage_place (specifiers_of specifiers.now) }
{
    match first_storage(&specifiers.items) {
        Some(pos) => pos,
        None => specifiers.pos,
    }
}

/// A parameter has no storage class, or `register`.
pub fn param_storage(storage: Option<Storage>, specifiers: &Specifiers) -> Result<bool, Refusal>
    ensures { Gives (λ b. b) result (param_storage storage (specifiers_of specifiers.now)) }
{
    match storage {
        None => Ok(false),
        Some(Storage::Register) => Ok(true),
        Some(_) => Err(fault(Code::StorageClass, storage_place(specifiers))),
    }
}

/// The parameter of the list `(void)`.
fn is_nothing(name: Option<Name>, ty: &QType, is_register: bool) -> bool
    ensures { result ≡ is_nothing name (qty_of ty.now) is_register }
{
    match &ty.ty {
        CType::Void => name.is_none() && !is_register && !ty.is_const && !ty.is_volatile,
        _ => false,
    }
}

/// Whether the list is `(void)`.
fn is_void_list(sole: bool, name: Option<Name>, ty: &QType, is_register: bool) -> bool
    ensures { result ≡ (sole && is_nothing name (qty_of ty.now) is_register) }
{
    sole && is_nothing(name, ty, is_register)
}

/// A parameter has a size, and a structure or union has at most four bytes, unless the list is
/// `(void)`.
fn param_form(nothing: bool, types: &Types, ty: &QType, pos: Pos) -> Result<(), Refusal>
    ensures { Gives (λ x. tt) result (param_form nothing (types_of types.now) (qty_of ty.now) pos) }
{
    if nothing {
        return Ok(());
    }
    match &ty.ty {
        CType::Struct(_) => {
            structure_size(types, pos, &ty.ty)?;
            Ok(())
        }
        _ => {
            types.size(&ty.ty, pos)?;
            Ok(())
        }
    }
}

/// The storage class of a parameter.
fn param_class(is_register: bool) -> Option<Storage>
    ensures { result ≡ param_class is_register }
{
    if is_register {
        Some(Storage::Register)
    } else {
        None
    }
}

/// Declares the name of a parameter, if it has one.
fn declare_param(
    alloc: Global,
    scope: &mut Scope,
    name: Option<Name>,
    ty: &QType,
    is_register: bool,
    pos: Pos,
) -> Result<(), Refusal>
    ensures { Gives (λ x. scope_of scope.new) result (param_named (scope_of scope.old) name (qty_of ty.now) is_register pos) }
{
    let Some(name) = name else {
        return Ok(());
    };
    let storage = param_class(is_register);
    scope.declare(name, ty.copy(alloc)?, storage, pos)?;
    Ok(())
}

/// A parameter of this name and type; the flag says that it is the only one.
pub fn formal(
    alloc: Global,
    scope: &mut Scope,
    name: Option<Name>,
    ty: QType,
    is_register: bool,
    sole: bool,
    pos: Pos,
) -> Result<Formal, Refusal>
    ensures { Gives (λ x. (formal_of x, scope_of scope.new)) result (formal_in (scope_of scope.old) name (qty_of ty) is_register sole pos) }
{
    let ty = adjusted(alloc, ty)?;
    let nothing = is_void_list(sole, name, &ty, is_register);
    param_form(nothing, scope.types(), &ty, pos)?;
    declare_param(alloc, scope, name, &ty, is_register, pos)?;
    Ok(Formal {
        name,
        ty,
        is_register,
        pos,
    })
}

/// The bytes of a parameter.
fn own_bytes(types: &Types, ty: &CType, pos: Pos) -> Result<u32, Refusal>
    ensures exact { Gives (λ n. n) result (own_bytes (types_of types.now) pos (ty_of ty.now)) }
    ensures small { IfOk result (λ n. n ≤ 65535) }
{
    match ty {
        CType::Void => Ok(0),
        _ => types.size(ty, pos),
    }
}

/// The bytes of the parameters with one more, which are at most 250.
pub fn more_bytes(types: &Types, bytes: u32, formal: &Formal) -> Result<u32, Refusal>
    requires { bytes ≤ 250 }
    ensures exact { Gives (λ n. n) result (more_bytes (types_of types.now) bytes (formal_of formal.now)) }
    ensures few { IfOk result (λ n. n ≤ 250) }
{
    let size = own_bytes(types, &formal.ty.ty, formal.pos)?;
    let bytes = bytes + size;
    if u64::from(bytes) > Size::ArgumentBytes.number() {
        return Err(Refusal::TooLarge {
            limit: Size::ArgumentBytes,
            value: 251,
        });
    }
    Ok(bytes)
}

/// Whether a parameter is of type void.
fn is_void(formal: &Formal) -> bool
    ensures { result ≡ is_void_type (qty_of formal.now.ty) }
{
    match &formal.ty.ty {
        CType::Void => true,
        _ => false,
    }
}

/// Whether there is one parameter, of type void.
#[tactic(auto, using(crate::proofs::Lists::one_void, crate::proofs::Lists::not_one))]
fn has_void(formals: &[Formal]) -> bool
    ensures { result ≡ has_void (map formal_of formals.now) }
{
    if formals.len() == 1 {
        is_void(&formals[0])
    } else {
        false
    }
}

/// The list `(void)` has no parameters.
pub fn without_void(alloc: Global, formals: Vec<Formal>) -> Vec<Formal>
    ensures { map formal_of result.items ≡ without_void (map formal_of formals.items) }
{
    if has_void(&formals) {
        Vec::new(alloc)
    } else {
        formals
    }
}
