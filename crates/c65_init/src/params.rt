// The parameters of a function definition (C90 6.7.1).
ghost use Rattle.std.specs.Prelude.{◌≡◌, [], map};
ghost use Rattle.c65_base.specs.Answers.{Gives};
ghost use Rattle.c65_ctype.specs.Views.{qty_of};
ghost use Rattle.c65_elab_scope.specs.Scopes.{scope_of};
ghost use Rattle.c65_tree.specs.View.{decl_of};
ghost use Rattle.c65_elab_declare.specs.Declarators.{formal_of, formals_of};
ghost use Rattle.c65_init.specs.Parameters.{old_of, storage_if, parameter_declared, formal_named, formals_declared, type_or_int, olds_declared, from_names, no_declarations, parameters_of};

use crate::old_style::{Old, no_types, old_declarations};
use c65_base::{Code, Name, Pos, Refusal};
use c65_csem::int_type;
use c65_ctype::QType;
use c65_elab::{Entity, Formal, Formals};
use c65_elab_scope::Scope;
use c65_ints::IntType;
use c65_tree::{Decl, Storage};
use std::alloc::Global;

fn storage_of(is_register: bool) -> Option<Storage>
    ensures { result ≡ storage_if is_register }
{
    if is_register {
        Some(Storage::Register)
    } else {
        None
    }
}

/// Declares a parameter, and answers its object.
fn parameter(
    scope: &mut Scope,
    name: Name,
    ty: QType,
    is_register: bool,
    pos: Pos,
) -> Result<u32, Refusal>
    ensures { Gives (λ n. (n, scope_of scope.new)) result (parameter_declared name (qty_of ty) is_register pos (scope_of scope.old)) }
{
    match scope.declare(name, ty, storage_of(is_register), pos)? {
        Entity::Object(number) => Ok(number),
        Entity::Func(_) | Entity::Typedef => Err(Refusal::fault(Code::ParameterList, pos)),
    }
}

/// Declares a parameter of a prototype, which needs a name.
fn formal_parameter(scope: &mut Scope, formal: Formal) -> Result<u32, Refusal>
    ensures { Gives (λ n. (n, scope_of scope.new)) result (formal_named (formal_of formal) formal.name (scope_of scope.old)) }
{
    match formal.name {
        Some(name) => parameter(scope, name, formal.ty, formal.is_register, formal.pos),
        None => Err(Refusal::fault(Code::ParameterList, formal.pos)),
    }
}

/// Declares the parameters of a prototype.
fn from_prototype(
    alloc: Global,
    scope: &mut Scope,
    formals: Vec<Formal>,
) -> Result<Vec<u32>, Refusal>
    ensures { Gives (λ v. (v.items, scope_of scope.new)) result (formals_declared (map formal_of formals.items) [] (scope_of scope.old)) }
{
    let mut objects = Vec::new(alloc);
    for formal in formals {
        let object = formal_parameter(scope, formal)?;
        objects.push(object)?;
    }
    Ok(objects)
}

/// Declares a parameter of an old-style definition, which is an int where it was not declared.
fn old_parameter(scope: &mut Scope, old: Old) -> Result<u32, Refusal>
    ensures { Gives (λ n. (n, scope_of scope.new)) result (parameter_declared old.name (type_or_int (old_of old).ty) old.is_register old.pos (scope_of scope.old)) }
{
    let Old {
        name,
        ty,
        is_register,
        pos,
    } = old;
    match ty {
        Some(ty) => parameter(scope, name, ty, is_register, pos),
        None => parameter(scope, name, int_type(IntType::Int), is_register, pos),
    }
}

/// Declares the parameters of an old-style definition.
fn from_names(
    alloc: Global,
    scope: &mut Scope,
    names: Vec<(Name, Pos)>,
    declarations: &[Decl],
) -> Result<Vec<u32>, Refusal>
    ensures { Gives (λ v. (v.items, scope_of scope.new)) result (from_names names.items (map decl_of declarations.now) (scope_of scope.old)) }
{
    let mut list = no_types(alloc, names.as_slice())?;
    old_declarations(alloc, scope, &mut list, declarations)?;
    old_parameters(alloc, scope, list)
}

/// Declares the parameters of an old-style definition, whose types are known.
fn old_parameters(alloc: Global, scope: &mut Scope, list: Vec<Old>) -> Result<Vec<u32>, Refusal>
    ensures { Gives (λ v. (v.items, scope_of scope.new)) result (olds_declared (map old_of list.items) [] (scope_of scope.old)) }
{
    let mut objects = Vec::new(alloc);
    for old in list {
        let object = old_parameter(scope, old)?;
        objects.push(object)?;
    }
    Ok(objects)
}

/// A prototype with declarations behind it is refused.
fn without_declarations(declarations: &[Decl]) -> Result<(), Refusal>
    ensures { Gives (λ x. tt) result (no_declarations (map decl_of declarations.now)) }
{
    match declarations {
        [first, ..] => Err(Refusal::fault(Code::ParameterList, first.specifiers.pos)),
        [] => Ok(()),
    }
}

/// Declares the parameters of a definition, and answers their objects.
pub fn parameters(
    alloc: Global,
    scope: &mut Scope,
    formals: Formals,
    declarations: &[Decl],
) -> Result<Vec<u32>, Refusal>
    ensures { Gives (λ v. (v.items, scope_of scope.new)) result (parameters_of (formals_of formals) (map decl_of declarations.now) (scope_of scope.old)) }
{
    match formals {
        Formals::Names(names) => from_names(alloc, scope, names, declarations),
        Formals::Types(formals, _) => {
            without_declarations(declarations)?;
            from_prototype(alloc, scope, formals)
        }
        Formals::Unknown => from_names(alloc, scope, Vec::new(alloc), declarations),
    }
}
