// Declarations of functions.
ghost use Rattle.std.specs.Prelude.{◌≡◌, IfOk, Ok, option_map, option_copied, slice_get};
ghost use Rattle.c65_base.specs.Answers.{Gives};
ghost use Rattle.c65_ctype.specs.Trees.{function};
ghost use Rattle.c65_ctype.specs.Views.{qty_of, fn_of, types_of};
ghost use Rattle.c65_csem.specs.Places.{plain};
ghost use Rattle.c65_csem.specs.Views.{func_of};
ghost use Rattle.c65_elab_scope.specs.Scopes.{scope_of};
ghost use Rattle.c65_elab_scope.specs.Declaring.{func_shared, func_linkage, fn_in, joined_fn, func_type_in, func_again, func_linked, func_declared};

use crate::declare::{redeclared, unless};
use crate::meaning::{Bound, Entity, Meaning};
use crate::scope::Scope;
use c65_base::{Code, Name, Pos, Refusal};
use c65_csem::TFunc;
use c65_ctype::{CType, FnType, QType, Types};
use c65_tree::Storage;
use std::alloc::{AllocError, Global};

/// Whether a function has external linkage.
pub fn func_shared(func: Option<&TFunc>) -> bool
    ensures { result ≡ func_shared (option_map func_of (option_copied func.entry)) }
{
    match func {
        Some(func) => func.external,
        None => true,
    }
}

/// Whether a function that is declared with this storage class has external linkage, where so many
/// blocks are open.
fn linkage(storage: Option<Storage>, block: u32, shared: bool, pos: Pos) -> Result<bool, Refusal>
    ensures { Gives (λ b. b) result (func_linkage storage block shared pos) }
{
    let code = Code::StorageClass;
    match storage {
        None | Some(Storage::Extern) => Ok(shared),
        Some(Storage::Static) => {
            if block == 0 {
                Ok(false)
            } else {
                Err(Refusal::At { code, pos })
            }
        }
        Some(_) => Err(Refusal::At { code, pos }),
    }
}

/// A function's type as a type.
fn as_type(alloc: Global, f: &FnType) -> Result<QType, AllocError>
    ensures { IfOk result (λ q. qty_of q ≡ plain (function (fn_of f.now))) }
{
    let f = f.copy(alloc)?;
    Ok(QType {
        ty: CType::Function(Box::new(alloc, f)?),
        is_const: false,
        is_volatile: false,
    })
}

fn function_in(q: QType) -> Option<FnType>
    ensures { option_map fn_of result ≡ fn_in (qty_of q) }
{
    match q.ty {
        CType::Function(function) => Some(Box::into_inner(function)),
        _ => None,
    }
}

/// The composite type of two types of functions; none where they are not compatible.
fn joined_fn(
    alloc: Global,
    types: &Types,
    g: &FnType,
    f: &FnType,
) -> Result<Option<FnType>, Refusal>
    ensures { Gives (option_map fn_of) result (Ok (joined_fn (types_of types.now) (fn_of g.now) (fn_of f.now))) }
{
    let a = as_type(alloc, g)?;
    let b = as_type(alloc, f)?;
    if types.compatible(&a, &b)? {
        Ok(function_in(types.composite(&a, &b)?))
    } else {
        Ok(None)
    }
}

/// The type of a function that is declared once more.
fn func_type_again(
    alloc: Global,
    types: &Types,
    func: Option<&TFunc>,
    ty: &FnType,
    shared: bool,
    pos: Pos,
) -> Result<FnType, Refusal>
    ensures { Gives fn_of result (func_type_in (types_of types.now) (fn_of ty.now) shared pos (option_map func_of (option_copied func.entry))) }
{
    let Some(func) = func else {
        return Err(redeclared(pos));
    };
    if func.external != shared {
        return Err(redeclared(pos));
    }
    match joined_fn(alloc, types, &func.ty, ty)? {
        Some(ty) => Ok(ty),
        None => Err(redeclared(pos)),
    }
}

impl Scope {
    /// A function by its number.
    pub fn func(&self, number: u32) -> Option<&TFunc>
        ensures { option_map func_of (option_copied result) ≡ slice_get (scope_of self.now).unit.funcs number }
    {
        self.parts.funcs.get(number as usize)
    }

    /// A function that was declared before.
    fn func_again(
        &mut self,
        name: Name,
        ty: FnType,
        shared: bool,
        pos: Pos,
        meaning: Meaning,
    ) -> Result<Entity, Refusal>
        ensures { Gives (λ x. (x, scope_of self.new)) result (func_again (scope_of self.old) name (fn_of ty) shared pos meaning) }
    {
        let Meaning::Func(number) = meaning else {
            return Err(redeclared(pos));
        };
        let ty = func_type_again(
            self.alloc,
            &self.parts.types,
            self.func(number),
            &ty,
            shared,
            pos,
        )?;
        self.redeclare_func(number, ty);
        self.bind(name, Meaning::Func(number))?;
        Ok(Entity::Func(number))
    }

    fn link_func(
        &mut self,
        name: Name,
        ty: FnType,
        shared: bool,
        pos: Pos,
        link: Option<Bound>,
    ) -> Result<Entity, Refusal>
        ensures { Gives (λ x. (x, scope_of self.new)) result (func_linked (scope_of self.old) name (fn_of ty) shared pos link) }
    {
        match link {
            Some(bound) => self.func_again(name, ty, shared, pos, bound.meaning),
            None => {
                let number = self.add_func(name, ty, shared)?;
                self.bind_link(name, Meaning::Func(number))?;
                Ok(Entity::Func(number))
            }
        }
    }

    /// A function.
    pub fn declare_function(
        &mut self,
        name: Name,
        ty: FnType,
        storage: Option<Storage>,
        pos: Pos,
    ) -> Result<Entity, Refusal>
        ensures { Gives (λ x. (x, scope_of self.new)) result (func_declared (scope_of self.old) name (fn_of ty) storage pos) }
    {
        let shared = linkage(storage, self.block, self.is_shared(name), pos)?;
        unless(self.has_clash(name), pos)?;
        let link = self.links.find(name);
        self.link_func(name, ty, shared, pos, link)
    }
}
