// Units (C90 6.7).
ghost use Rattle.std.specs.Prelude.{◌≡◌, IfOk, length, map, slice_get};
ghost use Rattle.c65_base.specs.Answers.{Gives};
ghost use Rattle.c65_ctype.specs.Views.{ty_of};
ghost use Rattle.c65_csem.specs.Units.{IsUnit};
ghost use Rattle.c65_csem.specs.Views.{unit_of};
ghost use Rattle.c65_elab_scope.specs.Scopes.{scope_of};
ghost use Rattle.c65_tree.specs.View as v;
ghost use Rattle.c65_init.specs.Declarations.{locals_of};
ghost use Rattle.c65_init.specs.Units.{item_in, items_in, is_open_type, is_open_class, is_open_array, array_completed, arrays_completed, all_sized, unit_in};

use crate::declare::{Locals, TentativeObject, declaration, needs_size};
use crate::fixed::fix_locals;
use crate::function::definition;
use crate::settle::settle_functions;
use c65_base::{Name, Options, Refusal};
use c65_csem::{Class, TUnit};
use c65_csem_check::unit_from;
use c65_ctype::CType;
use c65_elab_scope::Scope;
use c65_tree::{Item, Unit};
use std::alloc::Global;

/// An external declaration.
fn external(
    alloc: Global,
    scope: &mut Scope,
    locals: &mut Locals,
    item: &Item,
) -> Result<(), Refusal>
    ensures { Gives (λ x. (locals_of locals.new, scope_of scope.new)) result (item_in (v.item_of item.now) (locals_of locals.old) (scope_of scope.old)) }
{
    match item {
        Item::Decl(decl) => declaration(alloc, scope, locals, decl),
        Item::Function(function) => definition(alloc, scope, function),
    }
}

/// External declarations in their order.
fn externals(
    alloc: Global,
    scope: &mut Scope,
    locals: &mut Locals,
    items: &[Item],
) -> Result<(), Refusal>
    ensures { Gives (λ x. (locals_of locals.new, scope_of scope.new)) result (items_in (map v.item_of items.now) (locals_of locals.old) (scope_of scope.old)) }
{
    for item in items {
        external(alloc, scope, locals, item)?;
    }
    Ok(())
}

/// Whether an array whose number of elements is not known is defined by this class.
fn is_open_class(class: Class) -> bool
    ensures { result ≡ is_open_class class }
{
    match class {
        Class::Tentative | Class::Static => true,
        Class::External | Class::Declared | Class::Auto | Class::Register | Class::Fixed => false,
    }
}

/// Whether a type is an array whose number of elements is not known.
fn is_open_type(ty: &CType) -> bool
    ensures { result ≡ is_open_type (ty_of ty.now) }
{
    match ty {
        CType::Array(_, None) => true,
        CType::Array(_, Some(_))
        | CType::Void
        | CType::Int(_)
        | CType::Pointer(_)
        | CType::Struct(_)
        | CType::Function(_) => false,
    }
}

/// Whether an object is an array that is defined without a number of elements.
fn is_open(scope: &Scope, number: u32) -> bool
    ensures { result ≡ is_open_array (slice_get (scope_of scope.now).unit.objects number) }
{
    match scope.object(number) {
        Some(object) => is_open_type(&object.ty.ty) && is_open_class(object.class),
        None => false,
    }
}

/// An array that is defined without a number of elements has one.
fn complete_array(scope: &mut Scope, number: u32)
    ensures { scope_of scope.new ≡ array_completed (scope_of scope.old) number }
{
    if is_open(scope, number) {
        scope.complete(number, 1);
    }
}

/// Arrays that are defined without a number of elements have one (C90 6.7.2).
#[tactic(auto, using(crate::proofs::Lists::arrays_next, crate::proofs::Lists::arrays_done))]
fn complete_arrays(scope: &mut Scope)
    ensures { scope_of scope.new ≡ arrays_completed (scope_of scope.old) }
{
    for turn in 0..object_count(scope) {
        complete_array(scope, turn.min(0xffff_ffff) as u32);
    }
}

/// How many objects were declared.
#[tactic(auto, using(crate::proofs::PartLaws::objects_many))]
fn object_count(scope: &Scope) -> usize
    ensures { result ≡ length (scope_of scope.now).unit.objects }
{
    scope.parts().objects.len()
}

/// Refuses the first tentative definition of an object that has no size.
fn all_sized(scope: &Scope, definitions: &[TentativeObject]) -> Result<(), Refusal>
    ensures { Gives (λ x. tt) result (all_sized definitions.now (scope_of scope.now)) }
{
    for definition in definitions {
        needs_size(scope, definition.object, definition.pos)?;
    }
    Ok(())
}

/// The typed parts of a unit, in which `rest` stands for the further arguments of a function. Refuses its first fault in source order, with codes 301 and 303 to
/// 334, and `Object`, `Members`, `Cases` and `ArgumentBytes`.
pub fn elab_unit(
    alloc: Global,
    unit: &Unit,
    options: &Options,
    rest: Name,
) -> Result<TUnit, Refusal>
    ensures exact { Gives (λ u. unit_of u) result (unit_in (v.unit_of unit.now) options.now rest) }
    ensures typed { IfOk result (λ u. IsUnit (unit_of u)) }
{
    let mut scope = Scope::new(alloc, options, rest)?;
    let mut locals = Locals::none(alloc);
    externals(alloc, &mut scope, &mut locals, &unit.items)?;
    complete_arrays(&mut scope);
    all_sized(&scope, locals.tentative.as_slice())?;
    settle_functions(alloc, &mut scope)?;
    fix_locals(alloc, &mut scope, options)?;
    match unit_from(alloc, scope.into_parts())? {
        Some(unit) => Ok(unit),
        None => Err(Refusal::OutOfMemory),
    }
}
