// Static locals: objects of blocks that have one place for the whole run.
ghost use Rattle.std.specs.Prelude.{◌≡◌, IfOk, Ok, map};
ghost use Rattle.c65_base.specs.Answers.{Gives};
ghost use Rattle.c65_csem.specs.Views.{object_of, func_of, unit_of};
ghost use Rattle.c65_elab_scope.specs.Scopes.{scope_of};
ghost use Rattle.c65_init.specs.Fixed.{marked, parameters_marked, parameter_marks, fixed_class, fixed_at, fixed_from, locals_fixed};

use c65_base::{Name, Options, Refusal};
use c65_csem::{Class, Parts, TFunc, TObject};
use c65_elab_scope::Scope;
use std::alloc::{AllocError, Global};

/// Marks these objects.
fn mark(marks: &mut Vec<bool>, objects: &[u32])
    ensures { marks.new.items ≡ marked marks.old.items objects.now }
{
    for object in objects {
        let at = *object as usize;
        if at < marks.len() {
            marks[at] = true;
        }
    }
}

/// Marks the parameters of functions.
fn mark_parameters(marks: &mut Vec<bool>, funcs: &[TFunc])
    ensures { marks.new.items ≡ parameters_marked marks.old.items (map func_of funcs.now) }
{
    for func in funcs {
        mark(marks, &func.params);
    }
}

/// Which objects are parameters, by their numbers.
#[tactic(auto, using(crate::proofs::PartLaws::objects_many))]
fn parameter_marks(alloc: Global, parts: &Parts) -> Result<Vec<bool>, AllocError>
    ensures { IfOk result (λ v. v.items ≡ parameter_marks (unit_of parts.now)) }
{
    let mut marks = Vec::new(alloc);
    marks.resize(parts.objects.len(), false)?;
    mark_parameters(&mut marks, &parts.funcs);
    Ok(marks)
}

/// The class that an object gets that is no parameter. One without a name keeps its own.
fn fixed_class(honoured: bool, name: Option<Name>, class: Class) -> Class
    ensures { result ≡ fixed_class honoured name class }
{
    match name {
        None => class,
        Some(_) => match class {
            Class::Auto => Class::Fixed,
            Class::Register if !honoured => Class::Fixed,
            _ => class,
        },
    }
}

/// An object that is no parameter gets its class.
#[tactic(auto, using(crate::proofs::PartLaws::object_fixed, crate::proofs::PartLaws::object_not_fixed))]
fn fix(objects: &mut Vec<TObject>, number: usize, honoured: bool)
    ensures { map object_of objects.new.items ≡ fixed_at honoured (map object_of objects.old.items) number }
{
    if let Some(object) = objects.get_mut(number) {
        object.class = fixed_class(honoured, object.name, object.class);
    }
}

/// Objects get their classes; the marks tell which are parameters.
fn fix_objects(objects: &mut Vec<TObject>, marks: &[bool], honoured: bool)
    ensures { map object_of objects.new.items ≡ fixed_from honoured marks.now 0 (map object_of objects.old.items) }
{
    for (number, is_parameter) in marks.iter().enumerate() {
        if !*is_parameter {
            fix(objects, number, honoured);
        }
    }
}

/// With static locals each object of a block gets one place for the whole run, except one marked
/// `register` where that is honoured.
pub fn fix_locals(alloc: Global, scope: &mut Scope, options: &Options) -> Result<(), Refusal>
    ensures { Gives (λ x. scope_of scope.new) result (Ok (locals_fixed options.now (scope_of scope.old))) }
{
    if !options.static_locals {
        return Ok(());
    }
    let marks = parameter_marks(alloc, &scope.parts)?;
    fix_objects(&mut scope.parts.objects, &marks, options.register_vars);
    Ok(())
}
