// Function definitions (C90 6.7.1).
ghost use Rattle.std.specs.Prelude.{◌≡◌, ◌++◌, Ok, IfOk, map, slice_get};
ghost use Rattle.c65_base.specs.Answers.{Gives};
ghost use Rattle.c65_ctype.specs.Views.{ty_of, qty_of};
ghost use Rattle.c65_csem.specs.Views.{stmt_of, func_of};
ghost use Rattle.c65_elab_scope.specs.Scopes.{scope_of};
ghost use Rattle.c65_tree.specs.View as v;
ghost use Rattle.c65_elab_declare.specs.Declarators.{formals_of};
ghost use Rattle.c65_elab_declare.specs.Headings.{heading_of};
ghost use Rattle.c65_init.specs.Bodies.{body_of, new_body};
ghost use Rattle.c65_init.specs.Functions.{function_name, function_number, without_body, function_declared, gives_in, is_variadic, body_in, with_unnamed, with_body, function_finished, enumerators_declared, definition_of};
ghost use Rattle.c65_init.specs.Labels.{labels_of};

use crate::agree::as_declared;
use crate::body::Body;
use crate::labels::add_labels;
use crate::params::parameters;
use crate::stmt::block;
use c65_base::{Code, Pos, Refusal};
use c65_csem::{TFunc, TStmt, unqualified};
use c65_ctype::{CType, QType};
use c65_elab::{Entity, Enumerator, Formals, Heading, elab_heading, elab_specifiers, name_place};
use c65_elab_scope::Scope;
use c65_tree::{Function, Stmt, StmtKind, Storage};
use std::alloc::{AllocError, Global};

/// What a function gives, without qualifiers.
#[tactic(auto, using(crate::proofs::Places::result_is))]
fn gives(alloc: Global, scope: &Scope, number: u32) -> Result<QType, Refusal>
    ensures { Gives qty_of result (Ok (gives_in (slice_get (scope_of scope.now).unit.funcs number))) }
{
    match scope.func(number) {
        Some(func) => Ok(unqualified(alloc, &func.ty.result)?),
        None => Err(Refusal::OutOfMemory),
    }
}

/// Refuses `Redeclared` for a function that has a body.
fn without_body(scope: &Scope, number: u32, pos: Pos) -> Result<(), Refusal>
    ensures { Gives (λ x. tt) result (without_body (slice_get (scope_of scope.now).unit.funcs number) pos) }
{
    let Some(func) = scope.func(number) else {
        return Ok(());
    };
    if func.body.is_some() {
        return Err(Refusal::fault(Code::Redeclared, pos));
    }
    Ok(())
}

/// What the statements of a function's body need to know of it.
fn new_body(alloc: Global, scope: &Scope, number: u32, stmt: &Stmt) -> Result<Body, Refusal>
    ensures { Gives body_of result (Ok (new_body (labels_of (v.stmt_of stmt.now)) (gives_in (slice_get (scope_of scope.now).unit.funcs number)))) }
{
    let mut labels = Vec::new(alloc);
    add_labels(stmt, &mut labels)?;
    let gives = gives(alloc, scope, number)?;
    Ok(Body {
        labels,
        met: 0,
        gives,
        loops: 0,
        switches: Vec::new(alloc),
    })
}

/// The statements of a function's body, in the block of its parameters.
fn body_stmts(
    alloc: Global,
    scope: &mut Scope,
    body: &mut Body,
    stmt: &Stmt,
) -> Result<TStmt, Refusal>
    ensures { Gives (λ x. ((stmt_of x, body_of body.new), scope_of scope.new)) result (body_in (v.stmt_of stmt.now) (body_of body.old) (scope_of scope.old)) }
{
    match &stmt.kind {
        StmtKind::Block(decls, stmts) => block(alloc, scope, body, stmts, decls),
        _ => Err(Refusal::OutOfMemory),
    }
}

/// The objects without names live in the outermost block too, behind the others.
#[tactic(auto, using(crate::proofs::PartLaws::unnamed_behind))]
fn with_unnamed(unnamed: &[u32], body: TStmt) -> Result<TStmt, AllocError>
    ensures { IfOk result (λ x. stmt_of x ≡ with_unnamed unnamed.now (stmt_of body)) }
{
    match body {
        TStmt::Block(mut objects, stmts) => {
            objects.extend_from_slice(unnamed)?;
            Ok(TStmt::block(objects, stmts))
        }
        _ => Ok(body),
    }
}

/// Gives a function its parameters and its body.
#[tactic(auto, using(crate::proofs::PartLaws::func_given, crate::proofs::PartLaws::func_past))]
fn set_body(funcs: &mut Vec<TFunc>, number: u32, params: Vec<u32>, body: TStmt)
    ensures { map func_of funcs.new.items ≡ with_body (map func_of funcs.old.items) number params.items (stmt_of body) }
{
    if let Some(func) = funcs.get_mut(number as usize) {
        func.params = params;
        func.body = Some(body);
    }
}

/// Gives a function of the unit its parameters and its body.
fn finish(scope: &mut Scope, number: u32, params: Vec<u32>, body: TStmt)
    ensures { scope_of scope.new ≡ function_finished (scope_of scope.old) number params.items (stmt_of body) }
{
    set_body(&mut scope.parts.funcs, number, params, body);
}

/// The number of what was declared, which has to be a function.
fn function_number(entity: Entity, pos: Pos) -> Result<u32, Refusal>
    ensures { Gives (λ n. n) result (function_number entity pos) }
{
    match entity {
        Entity::Func(number) => Ok(number),
        Entity::Object(_) | Entity::Typedef => Err(Refusal::fault(Code::TypeForm, pos)),
    }
}

/// Declares a function that is defined, and answers its number, its parameters and their
/// enumeration constants. Refuses `TypeForm` where it is none, and `Redeclared` where it has a body.
fn defined(
    scope: &mut Scope,
    heading: Heading,
    storage: Option<Storage>,
    pos: Pos,
) -> Result<(u32, Formals, Vec<Enumerator>), Refusal>
    ensures exact { Gives (λ x. (x.0, scope_of scope.new)) result (function_declared (heading_of heading) storage pos (scope_of scope.old)) }
    ensures formals { IfOk result (λ x. formals_of x.1 ≡ (heading_of heading).formals) }
    ensures enumerators { IfOk result (λ x. x.2.items ≡ (heading_of heading).enumerators) }
{
    let Heading {
        name,
        ty,
        formals,
        enumerators,
    } = heading;
    let Some(name) = name else {
        return Err(Refusal::fault(Code::TypeForm, pos));
    };
    let entity = scope.declare(name, ty, storage, pos)?;
    let number = function_number(entity, pos)?;
    without_body(scope, number, pos)?;
    Ok((number, formals, enumerators))
}

/// The enumeration constants of the parameters are of the function's block (C90 6.1.2.1).
fn declare_enumerators(scope: &mut Scope, list: &[Enumerator], pos: Pos) -> Result<(), Refusal>
    ensures { Gives (λ x. scope_of scope.new) result (enumerators_declared list.now pos (scope_of scope.old)) }
{
    for enumerator in list {
        scope.declare_enumerator(enumerator.name, enumerator.value, pos)?;
    }
    Ok(())
}

/// Whether a function takes further arguments.
#[tactic(auto, using(crate::proofs::Places::variadic_is))]
fn is_variadic(ty: &CType) -> bool
    ensures { result ≡ is_variadic (ty_of ty.now) }
{
    match ty {
        CType::Function(function) => function.variadic,
        CType::Void | CType::Int(_) | CType::Pointer(_) | CType::Array(_, _) | CType::Struct(_) =>
            false,
    }
}

/// A function definition.
pub fn definition(alloc: Global, scope: &mut Scope, item: &Function) -> Result<(), Refusal>
    ensures { Gives (λ x. scope_of scope.new) result (definition_of (v.function_of item.now) (scope_of scope.old)) }
{
    let pos = name_place(&item.declarator);
    let (storage, base) = elab_specifiers(alloc, scope, &item.specifiers, false)?;
    let heading = elab_heading(alloc, scope, &base, &item.declarator)?;
    let variadic = is_variadic(&heading.ty.ty);
    let (number, formals, enumerators) = defined(scope, heading, storage, pos)?;
    scope.open(variadic)?;
    declare_enumerators(scope, enumerators.as_slice(), pos)?;
    let params = parameters(alloc, scope, formals, item.declarations.as_slice())?;
    as_declared(
        alloc,
        scope.parts(),
        scope.func(number),
        params.as_slice(),
        pos,
    )?;
    let mut known = new_body(alloc, scope, number, &item.body)?;
    drop(scope.take_spills());
    let body = body_stmts(alloc, scope, &mut known, &item.body)?;
    let unnamed = scope.take_spills();
    let body = with_unnamed(unnamed.as_slice(), body)?;
    scope.close();
    finish(scope, number, params, body);
    Ok(())
}
