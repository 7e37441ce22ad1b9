// The declarations of the parameters of an old-style definition (C90 6.7.1).
ghost use Rattle.std.specs.Prelude.{◌≡◌, IfOk, Some, map};
ghost use Rattle.c65_base.specs.Answers.{Gives};
ghost use Rattle.c65_ctype.specs.Views.{ty_of, qty_of, types_of};
ghost use Rattle.c65_csem.specs.Places;
ghost use Rattle.c65_elab_scope.specs.Scopes.{scope_of};
ghost use Rattle.c65_tree.specs.View.{declarator_of, init_declarator_of, decl_of, init_of, maybe};
ghost use Rattle.c65_init.specs.Parameters.{old_of, not_declared, adjusted, may_be_parameter, old_from, entered_at, entered, old_declarator, no_init, old_one, old_declarators, old_declaration, old_declarations};

use crate::declare::is_empty;
use c65_base::{Code, Name, Pos, Refusal};
use c65_csem::pointer_to;
use c65_ctype::{CType, QType, Types};
use c65_elab::{elab_declarator, elab_specifiers, name_place};
use c65_elab_convert::structure_size;
use c65_elab_declare::param_storage;
use c65_elab_scope::Scope;
use c65_tree::{Decl, Declarator, InitDeclarator, Initialiser};
use std::alloc::{AllocError, Global};

/// A parameter of an old-style definition: its name, its type once it is declared, and whether it
/// is `register`.
#[derive(Drop)]
pub struct Old {
    pub name: Name,
    pub ty: Option<QType>,
    pub is_register: bool,
    pub pos: Pos,
}

/// Parameters by their names, not declared yet.
pub fn no_types(alloc: Global, names: &[(Name, Pos)]) -> Result<Vec<Old>, AllocError>
    ensures { IfOk result (λ v. map old_of v.items ≡ map not_declared names.now) }
{
    let mut list = Vec::new(alloc);
    for (name, pos) in names {
        list.push(Old {
            name: *name,
            ty: None,
            is_register: false,
            pos: *pos,
        })?;
    }
    Ok(list)
}

fn plain(ty: CType) -> QType
    ensures { qty_of result ≡ Places.plain (ty_of ty) }
{
    QType {
        ty,
        is_const: false,
        is_volatile: false,
    }
}

/// The type of a parameter: an array is a pointer to its elements, and a function a pointer to it.
fn adjusted(alloc: Global, ty: QType) -> Result<QType, AllocError>
    ensures { IfOk result (λ x. qty_of x ≡ adjusted (qty_of ty)) }
{
    let QType {
        ty: of,
        is_const,
        is_volatile,
    } = ty;
    match of {
        CType::Array(element, _) => pointer_to(alloc, Box::into_inner(element)),
        CType::Function(function) => pointer_to(alloc, plain(CType::Function(function))),
        CType::Void => Ok(QType {
            ty: CType::Void,
            is_const,
            is_volatile,
        }),
        CType::Int(kind) => Ok(QType {
            ty: CType::Int(kind),
            is_const,
            is_volatile,
        }),
        CType::Pointer(target) => Ok(QType {
            ty: CType::Pointer(target),
            is_const,
            is_volatile,
        }),
        CType::Struct(tag) => Ok(QType {
            ty: CType::Struct(tag),
            is_const,
            is_volatile,
        }),
    }
}

/// Refuses a parameter that is no small structure or union, and one without a size.
fn as_parameter(types: &Types, ty: &CType, pos: Pos) -> Result<(), Refusal>
    ensures { Gives (λ x. tt) result (may_be_parameter (types_of types.now) (ty_of ty.now) pos) }
{
    match ty {
        CType::Struct(_) => {
            structure_size(types, pos, ty)?;
            Ok(())
        }
        CType::Void | CType::Int(_) | CType::Pointer(_) | CType::Array(_, _) | CType::Function(_) =>
            {
                types.size(ty, pos)?;
                Ok(())
            }
    }
}

/// The place of a name among parameters.
fn place_of(list: &[Old], name: Name) -> Option<usize>
    ensures { result ≡ old_from (map old_of list.now) name 0 }
{
    let mut at: usize = 0;
    for old in list {
        if old.name.0 == name.0 {
            return Some(at);
        }
        at += 1;
    }
    None
}

/// Enters the type of a parameter at a place. Refuses `Redeclared` where it has one.
fn enter_at(
    list: &mut Vec<Old>,
    at: usize,
    ty: QType,
    is_register: bool,
    pos: Pos,
) -> Result<(), Refusal>
    ensures { Gives (λ x. map old_of list.new.items) result (entered_at (map old_of list.old.items) (qty_of ty) is_register pos (Some at)) }
{
    let Some(old) = list.get_mut(at) else {
        return Err(Refusal::fault(Code::ParameterList, pos));
    };
    if old.ty.is_some() {
        return Err(Refusal::fault(Code::Redeclared, pos));
    }
    old.ty = Some(ty);
    old.is_register = is_register;
    Ok(())
}

/// Enters the type of a parameter by its name. Refuses `ParameterList` where there is none.
fn enter_old(
    list: &mut Vec<Old>,
    name: Option<Name>,
    ty: QType,
    is_register: bool,
    pos: Pos,
) -> Result<(), Refusal>
    ensures { Gives (λ x. map old_of list.new.items) result (entered (map old_of list.old.items) name (qty_of ty) is_register pos) }
{
    let Some(name) = name else {
        return Err(Refusal::fault(Code::ParameterList, pos));
    };
    match place_of(list, name) {
        Some(at) => enter_at(list, at, ty, is_register, pos),
        None => Err(Refusal::fault(Code::ParameterList, pos)),
    }
}

/// One declarator of an old-style definition's declarations.
fn old_declarator(
    alloc: Global,
    scope: &mut Scope,
    list: &mut Vec<Old>,
    is_register: bool,
    base: &QType,
    item: &Declarator,
) -> Result<(), Refusal>
    ensures { Gives (λ x. (map old_of list.new.items, scope_of scope.new)) result (old_declarator is_register (qty_of base.now) (declarator_of item.now) (map old_of list.old.items) (scope_of scope.old)) }
{
    let pos = name_place(item);
    let (name, ty) = elab_declarator(alloc, scope, base, item)?;
    let ty = adjusted(alloc, ty)?;
    as_parameter(scope.types(), &ty.ty, pos)?;
    enter_old(list, name, ty, is_register, pos)
}

/// No initialiser stands behind a declarator.
#[tactic(auto, using(crate::proofs::Places::init_place_at))]
fn without_init(init: &Option<Initialiser>) -> Result<(), Refusal>
    ensures { Gives (λ x. tt) result (no_init (maybe init_of init.now)) }
{
    match init {
        Some(init) => Err(Refusal::fault(Code::Initialiser, init.pos)),
        None => Ok(()),
    }
}

/// One declarator, without an initialiser.
fn old_one(
    alloc: Global,
    scope: &mut Scope,
    list: &mut Vec<Old>,
    is_register: bool,
    base: &QType,
    item: &InitDeclarator,
) -> Result<(), Refusal>
    ensures { Gives (λ x. (map old_of list.new.items, scope_of scope.new)) result (old_one is_register (qty_of base.now) (init_declarator_of item.now) (map old_of list.old.items) (scope_of scope.old)) }
{
    old_declarator(alloc, scope, list, is_register, base, &item.declarator)?;
    without_init(&item.init)
}

/// The declarators of a declaration, in their order.
fn old_declarators(
    alloc: Global,
    scope: &mut Scope,
    list: &mut Vec<Old>,
    is_register: bool,
    base: &QType,
    items: &[InitDeclarator],
) -> Result<(), Refusal>
    ensures { Gives (λ x. (map old_of list.new.items, scope_of scope.new)) result (old_declarators is_register (qty_of base.now) (map init_declarator_of items.now) (map old_of list.old.items) (scope_of scope.old)) }
{
    for item in items {
        old_one(alloc, scope, list, is_register, base, item)?;
    }
    Ok(())
}

/// Enters what a declaration of an old-style definition declares. Refuses `StorageClass` for one
/// that is not `register`.
fn old_declaration(
    alloc: Global,
    scope: &mut Scope,
    list: &mut Vec<Old>,
    item: &Decl,
) -> Result<(), Refusal>
    ensures { Gives (λ x. (map old_of list.new.items, scope_of scope.new)) result (old_declaration (decl_of item.now) (map old_of list.old.items) (scope_of scope.old)) }
{
    let alone = is_empty(&item.declarators);
    let (storage, base) = elab_specifiers(alloc, scope, &item.specifiers, alone)?;
    let is_register = param_storage(storage, &item.specifiers)?;
    old_declarators(alloc, scope, list, is_register, &base, &item.declarators)
}

/// Enters what the declarations of an old-style definition declare, in their order.
pub fn old_declarations(
    alloc: Global,
    scope: &mut Scope,
    list: &mut Vec<Old>,
    items: &[Decl],
) -> Result<(), Refusal>
    ensures { Gives (λ x. (map old_of list.new.items, scope_of scope.new)) result (old_declarations (map decl_of items.now) (map old_of list.old.items) (scope_of scope.old)) }
{
    for item in items {
        old_declaration(alloc, scope, list, item)?;
    }
    Ok(())
}
