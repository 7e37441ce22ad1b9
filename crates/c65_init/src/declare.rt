// Declarations of objects, functions and types, with their initialisers (C90 6.5, 6.7.2).
ghost use Rattle.std.specs.Prelude.{◌≡◌, ◌++◌, Ok, OnOk, map, option_map, slice_get, true};
ghost use Rattle.c65_base.specs.Answers.{Gives};
ghost use Rattle.c65_ctype.specs.Views.{ty_of, qty_of};
ghost use Rattle.c65_csem.specs.Places.{is_automatic};
ghost use Rattle.c65_csem.specs.Units.{may_have_init};
ghost use Rattle.c65_csem.specs.Views.{object_of, stmt_of};
ghost use Rattle.c65_elab_scope.specs.Scopes.{scope_of};
ghost use Rattle.c65_tree.specs.View.{init_of, init_declarator_of, decl_of, maybe};
ghost use Rattle.c65_init_cells.specs.Cells.{grown};
ghost use Rattle.c65_init_cells.specs.Sinks.{sink_of};
ghost use Rattle.c65_init.specs.Declarations.{locals_of, no_locals, no_values, is_none_of, class_at, is_static, size_needed, with_tentative, uninitialised_of, is_outer, to_begin, counted_by, is_whole, cleared, with_automatic, defined_as, with_init, with_static, begun_of, initialised_of, entity_alone, entity_given, declarator_begun, declarators_begun, declaration_of, declarations_of};

use crate::agree::as_defined;
use crate::initial::initial;
use c65_base::{Code, Pos, Refusal};
use c65_csem::{Cell, Class, TObject, TStmt};
use c65_ctype::{CType, QType};
use c65_elab::{Entity, elab_declarator, elab_specifiers, name_place};
use c65_elab_scope::Scope;
use c65_init_cells::{Sink, begin_automatic, grow};
use c65_tree::{Decl, InitDeclarator, InitKind, Initialiser, Storage};
use std::alloc::{AllocError, Global};

/// A tentative definition of an object.
#[derive(Clone, Copy)]
pub struct TentativeObject {
    pub object: u32,
    pub pos: Pos,
}

/// What declarations leave to do: in a block the automatic objects, and the statements that begin
/// them; in a unit its tentative definitions, whose size is asked for at its end.
#[derive(Drop)]
pub struct Locals {
    pub objects: Vec<u32>,
    pub stmts: Vec<TStmt>,
    pub tentative: Vec<TentativeObject>,
}

impl Locals {
    /// No objects. It takes no memory.
    pub fn none(alloc: Global) -> Locals
        ensures { locals_of result ≡ no_locals }
    {
        Locals {
            objects: Vec::new(alloc),
            stmts: Vec::new(alloc),
            tentative: Vec::new(alloc),
        }
    }
}

/// A declaration. Automatic objects go into the locals of their block.
pub fn declaration(
    alloc: Global,
    scope: &mut Scope,
    locals: &mut Locals,
    item: &Decl,
) -> Result<(), Refusal>
    ensures { Gives (λ x. (locals_of locals.new, scope_of scope.new)) result (declaration_of (decl_of item.now) (locals_of locals.old) (scope_of scope.old)) }
{
    let alone = is_empty(&item.declarators);
    let (storage, base) = elab_specifiers(alloc, scope, &item.specifiers, alone)?;
    all_declared(alloc, scope, locals, storage, &base, &item.declarators)
}

/// What the declarations of a block begin.
pub fn block_locals(alloc: Global, scope: &mut Scope, items: &[Decl]) -> Result<Locals, Refusal>
    ensures { Gives (λ x. (locals_of x, scope_of scope.new)) result (declarations_of (map decl_of items.now) no_locals (scope_of scope.old)) }
{
    let mut locals = Locals::none(alloc);
    declarations(alloc, scope, &mut locals, items)?;
    Ok(locals)
}

/// Declarations in their order.
fn declarations(
    alloc: Global,
    scope: &mut Scope,
    locals: &mut Locals,
    items: &[Decl],
) -> Result<(), Refusal>
    ensures { Gives (λ x. (locals_of locals.new, scope_of scope.new)) result (declarations_of (map decl_of items.now) (locals_of locals.old) (scope_of scope.old)) }
{
    for item in items {
        declaration(alloc, scope, locals, item)?;
    }
    Ok(())
}

/// Whether there is no declarator.
#[tactic(auto, using(crate::proofs::Lists::none_is))]
pub fn is_empty(items: &[InitDeclarator]) -> bool
    ensures { result ≡ is_none_of (map init_declarator_of items.now) }
{
    items.is_empty()
}

/// What declarators declare, in their order.
fn all_declared(
    alloc: Global,
    scope: &mut Scope,
    locals: &mut Locals,
    storage: Option<Storage>,
    base: &QType,
    items: &[InitDeclarator],
) -> Result<(), Refusal>
    ensures { Gives (λ x. (locals_of locals.new, scope_of scope.new)) result (declarators_begun storage (qty_of base.now) (map init_declarator_of items.now) (locals_of locals.old) (scope_of scope.old)) }
{
    for item in items {
        declared(alloc, scope, locals, storage, base, item)?;
    }
    Ok(())
}

/// What a declarator declares, with its initialiser.
fn declared(
    alloc: Global,
    scope: &mut Scope,
    locals: &mut Locals,
    storage: Option<Storage>,
    base: &QType,
    item: &InitDeclarator,
) -> Result<(), Refusal>
    ensures { Gives (λ x. (locals_of locals.new, scope_of scope.new)) result (declarator_begun storage (qty_of base.now) (init_declarator_of item.now) (locals_of locals.old) (scope_of scope.old)) }
{
    let pos = name_place(&item.declarator);
    let (name, ty) = elab_declarator(alloc, scope, base, &item.declarator)?;
    let Some(name) = name else {
        return Err(Refusal::fault(Code::Specifiers, pos));
    };
    let entity = scope.declare(name, ty, storage, pos)?;
    match &item.init {
        Some(init) => with_init(alloc, scope, locals, storage, entity, init, pos),
        None => without_init(alloc, scope, locals, entity, pos),
    }
}

/// What was declared with an initialiser.
#[tactic(auto, using(crate::proofs::Places::item_place))]
fn with_init(
    alloc: Global,
    scope: &mut Scope,
    locals: &mut Locals,
    storage: Option<Storage>,
    entity: Entity,
    init: &Initialiser,
    pos: Pos,
) -> Result<(), Refusal>
    ensures { Gives (λ x. (locals_of locals.new, scope_of scope.new)) result (entity_given storage (locals_of locals.old) (init_of init.now) pos (scope_of scope.old) entity) }
{
    match entity {
        Entity::Object(number) => begun(alloc, scope, locals, storage, number, init, pos),
        Entity::Func(_) | Entity::Typedef => Err(Refusal::fault(Code::Initialiser, init.pos)),
    }
}

/// What was declared without an initialiser.
fn without_init(
    alloc: Global,
    scope: &Scope,
    locals: &mut Locals,
    entity: Entity,
    pos: Pos,
) -> Result<(), Refusal>
    ensures { Gives (λ x. locals_of locals.new) result (entity_alone (locals_of locals.old) pos (scope_of scope.now) entity) }
{
    match entity {
        Entity::Object(number) => uninitialised(scope, locals, number, pos),
        Entity::Func(number) => as_defined(alloc, scope.parts(), scope.func(number), pos),
        Entity::Typedef => Ok(()),
    }
}

fn is_automatic(class: Class) -> bool
    ensures { result ≡ is_automatic class }
{
    match class {
        Class::Auto | Class::Register | Class::Fixed => true,
        Class::External | Class::Tentative | Class::Declared | Class::Static => false,
    }
}

fn is_static(class: Class) -> bool
    ensures { result ≡ is_static class }
{
    match class {
        Class::Static => true,
        _ => false,
    }
}

fn class_of(scope: &Scope, number: u32) -> Class
    ensures { result ≡ class_at (scope_of scope.now) number }
{
    match scope.object(number) {
        Some(object) => object.class,
        None => Class::Declared,
    }
}

/// The size that an object needs.
pub fn needs_size(scope: &Scope, number: u32, pos: Pos) -> Result<u32, Refusal>
    ensures { Gives (λ n. n) result (size_needed (scope_of scope.now) number pos) }
{
    match scope.object(number) {
        Some(object) => scope.types().size(&object.ty.ty, pos),
        None => Err(Refusal::OutOfMemory),
    }
}

/// A tentative definition is kept for the end of its unit.
fn note_tentative(
    locals: &mut Locals,
    class: Class,
    object: u32,
    pos: Pos,
) -> Result<(), AllocError>
    ensures { OnOk result (locals_of locals.new ≡ with_tentative class (locals_of locals.old) object pos) }
{
    match class {
        Class::Tentative => {
            locals.tentative.push(TentativeObject { object, pos })?;
            Ok(())
        }
        Class::External
        | Class::Declared
        | Class::Static
        | Class::Auto
        | Class::Register
        | Class::Fixed => Ok(()),
    }
}

/// An object without an initialiser. One of a block needs its size.
fn uninitialised(scope: &Scope, locals: &mut Locals, number: u32, pos: Pos) -> Result<(), Refusal>
    ensures { Gives (λ x. locals_of locals.new) result (uninitialised_of (scope_of scope.now) (locals_of locals.old) number pos) }
{
    let class = class_of(scope, number);
    if is_automatic(class) {
        needs_size(scope, number, pos)?;
        locals.objects.push(number)?;
        return Ok(());
    }
    if is_static(class) && scope.block > 0 {
        needs_size(scope, number, pos)?;
        return Ok(());
    }
    note_tentative(locals, class, number, pos)?;
    Ok(())
}

/// Whether a declaration in a block names an object of elsewhere.
fn is_outer(storage: Option<Storage>, block: u32) -> bool
    ensures { result ≡ is_outer storage block }
{
    match storage {
        Some(Storage::Extern) => block > 0,
        _ => false,
    }
}

/// The class and the type of an object that is to be initialised. Refuses `Redeclared` where it was
/// before.
fn to_begin(alloc: Global, scope: &Scope, number: u32, pos: Pos) -> Result<(Class, QType), Refusal>
    ensures { Gives (λ x. (x.0, qty_of x.1)) result (to_begin pos (slice_get (scope_of scope.now).unit.objects number)) }
{
    let Some(object) = scope.object(number) else {
        return Err(Refusal::OutOfMemory);
    };
    if object.init.is_some() {
        return Err(Refusal::fault(Code::Redeclared, pos));
    }
    Ok((object.class, object.ty.copy(alloc)?))
}

/// An array whose number of elements is not known has those of its initialiser.
fn complete(scope: &mut Scope, number: u32, ty: &CType, count: u32)
    ensures { scope_of scope.new ≡ counted_by (ty_of ty.now) (scope_of scope.old) number count }
{
    match ty {
        CType::Array(_, None) => scope.complete(number, count),
        CType::Array(_, Some(_))
        | CType::Void
        | CType::Int(_)
        | CType::Pointer(_)
        | CType::Struct(_)
        | CType::Function(_) => {}
    }
}

/// An object before its first value.
fn no_values(alloc: Global, number: u32, class: Class) -> Sink
    ensures { sink_of result ≡ no_values number class }
{
    Sink {
        object: number,
        is_automatic: is_automatic(class),
        cells: Vec::new(alloc),
        stmts: Vec::new(alloc),
    }
}

/// An object with an initialiser.
#[tactic(auto, using(crate::proofs::Places::item_place))]
fn begun(
    alloc: Global,
    scope: &mut Scope,
    locals: &mut Locals,
    storage: Option<Storage>,
    number: u32,
    init: &Initialiser,
    pos: Pos,
) -> Result<(), Refusal>
    ensures { Gives (λ x. (locals_of locals.new, scope_of scope.new)) result (initialised_of storage (locals_of locals.old) number (init_of init.now) pos (scope_of scope.old)) }
{
    if is_outer(storage, scope.block) {
        return Err(Refusal::fault(Code::Initialiser, init.pos));
    }
    let (class, ty) = to_begin(alloc, scope, number, pos)?;
    begun_as(alloc, scope, locals, number, class, &ty, init, pos)
}

/// An object of a class and a type with its initialiser.
fn begun_as(
    alloc: Global,
    scope: &mut Scope,
    locals: &mut Locals,
    number: u32,
    class: Class,
    ty: &QType,
    init: &Initialiser,
    pos: Pos,
) -> Result<(), Refusal>
    ensures { Gives (λ x. (locals_of locals.new, scope_of scope.new)) result (begun_of (locals_of locals.old) number (init_of init.now) pos (class, qty_of ty.now) (scope_of scope.old)) }
{
    let mut sink = no_values(alloc, number, class);
    let count = initial(alloc, scope, &mut sink, ty, init)?;
    complete(scope, number, &ty.ty, count);
    let size = needs_size(scope, number, pos)?;
    if is_automatic(class) {
        add_automatic(locals, number, ty, init, sink)
    } else {
        finish_static(scope, number, class, size, sink)
    }
}

/// Whether a value begins the whole object.
fn is_whole(ty: &QType, init: &Initialiser) -> bool
    ensures { result ≡ is_whole (ty_of ty.now.ty) (init_of init.now) }
{
    match &ty.ty {
        CType::Int(_) | CType::Pointer(_) => true,
        CType::Struct(_) => match &init.kind {
            InitKind::Value(_) => true,
            InitKind::List(_) => false,
        },
        CType::Void | CType::Array(_, _) | CType::Function(_) => false,
    }
}

/// The statements that begin an automatic object: first all its bytes are zero, unless one value
/// begins all of it.
fn add_automatic(
    locals: &mut Locals,
    number: u32,
    ty: &QType,
    init: &Initialiser,
    sink: Sink,
) -> Result<(), Refusal>
    ensures { Gives (λ x. locals_of locals.new) result (Ok (with_automatic (locals_of locals.old) number (is_whole (ty_of ty.now.ty) (init_of init.now)) (sink_of sink))) }
{
    locals.objects.push(number)?;
    clear_first(&mut locals.stmts, number, is_whole(ty, init))?;
    begin_automatic(sink, &mut locals.stmts)
}

/// The statement by which all bytes of an object become zero, unless one value begins all of it.
fn clear_first(stmts: &mut Vec<TStmt>, number: u32, whole: bool) -> Result<(), Refusal>
    ensures { Gives (λ x. map stmt_of stmts.new.items) result (Ok (map stmt_of stmts.old.items ++ cleared whole number)) }
{
    if whole {
        return Ok(());
    }
    stmts.push(TStmt::Clear(number))?;
    Ok(())
}

/// The class of an object that has an initialiser.
fn defined(class: Class) -> Class
    ensures exact { result ≡ defined_as class }
    ensures may { may_have_init result ≡ true }
{
    match class {
        Class::Static => Class::Static,
        _ => Class::External,
    }
}

/// The first bytes of an object that is there for the whole run.
fn finish_static(
    scope: &mut Scope,
    number: u32,
    class: Class,
    size: u32,
    sink: Sink,
) -> Result<(), Refusal>
    ensures { Gives (λ x. scope_of scope.new) result (Ok (with_static (scope_of scope.old) number class (grown (sink_of sink).cells size))) }
{
    let Sink { mut cells, .. } = sink;
    grow(&mut cells, size as usize)?;
    begin_object(&mut scope.parts.objects, number, class, cells);
    Ok(())
}

/// Gives an object its first bytes.
#[tactic(auto, using(crate::proofs::PartLaws::object_begun, crate::proofs::PartLaws::object_past))]
fn begin_object(objects: &mut Vec<TObject>, number: u32, class: Class, cells: Vec<Cell>)
    ensures { map object_of objects.new.items ≡ with_init (map object_of objects.old.items) number class cells.items }
{
    if let Some(object) = objects.get_mut(number as usize) {
        object.init = Some(cells);
        object.class = defined(class);
    }
}
