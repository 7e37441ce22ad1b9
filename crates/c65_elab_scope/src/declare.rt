// Declarations of names, and their linkage.
ghost use Rattle.std.specs.Prelude.{◌≡◌, OnOk};
ghost use Rattle.c65_base.specs.declared.code.Code.TheVariants.{Redeclared, IncompleteType};
ghost use Rattle.c65_base.specs.declared.refusal.Refusal.TheVariants.{At};
ghost use Rattle.c65_base.specs.Answers.{Gives};
ghost use Rattle.c65_ctype.specs.Views.{qty_of};
ghost use Rattle.c65_elab_scope.specs.Scopes.{scope_of, name_bound};
ghost use Rattle.c65_elab_scope.specs.Declaring.{unless, visible, linked, clashes, has_clash, meaning_shared, link_bound, typedef_declared, enumerator_declared, is_typedef, declared};

use crate::function::func_shared;
use crate::meaning::{Bound, Entity, Meaning};
use crate::object::object_shared;
use crate::scope::Scope;
use c65_base::{Code, Name, Pos, Refusal};
use c65_ctype::{CType, QType};
use c65_tree::Storage;
use std::alloc::AllocError;

pub fn redeclared(pos: Pos) -> Refusal
    ensures { result ≡ At Redeclared pos }
{
    Refusal::At {
        code: Code::Redeclared,
        pos,
    }
}

/// Refuses a second declaration.
pub fn unless(clash: bool, pos: Pos) -> Result<(), Refusal>
    ensures { Gives (λ x. tt) result (unless clash pos) }
{
    if clash { Err(redeclared(pos)) } else { Ok(()) }
}

/// The visible declaration of a name, where it has linkage.
fn visible(near: Option<Bound>, link: Option<Bound>) -> Option<Meaning>
    ensures { result ≡ visible near link }
{
    match (near, link) {
        (Some(a), Some(b)) => {
            if a.meaning.is_same(b.meaning) {
                Some(b.meaning)
            } else {
                None
            }
        }
        _ => None,
    }
}

/// Whether a declaration in the same block is of something else.
fn clashes(own: Option<Meaning>, link: Option<Bound>) -> bool
    ensures { result ≡ clashes own link }
{
    match (own, link) {
        (None, _) => false,
        (Some(_), None) => true,
        (Some(a), Some(b)) => !a.is_same(b.meaning),
    }
}

fn is_typedef(storage: Option<Storage>) -> bool
    ensures { result ≡ is_typedef storage }
{
    match storage {
        Some(Storage::Typedef) => true,
        _ => false,
    }
}

impl Scope {
    pub(crate) fn has_clash(&self, name: Name) -> bool
        ensures { result ≡ has_clash (scope_of self.now) name }
    {
        clashes(self.names.find_in(name, self.block), self.links.find(name))
    }

    /// Whether a declaration that follows the visible one has external linkage (C90 6.1.2.2).
    pub(crate) fn is_shared(&self, name: Name) -> bool
        ensures { result ≡ meaning_shared (scope_of self.now) (linked (scope_of self.now) name) }
    {
        match visible(self.names.find(name), self.links.find(name)) {
            Some(Meaning::Object(number)) => object_shared(self.object(number)),
            Some(Meaning::Func(number)) => func_shared(self.func(number)),
            _ => true,
        }
    }

    /// Declares an ordinary identifier in the innermost block.
    pub(crate) fn bind(&mut self, name: Name, meaning: Meaning) -> Result<(), AllocError>
        ensures { OnOk result (scope_of self.new ≡ name_bound (scope_of self.old) name meaning) }
    {
        self.names.bind(name, meaning, self.block)
    }

    /// Declares an ordinary identifier that has linkage.
    pub(crate) fn bind_link(&mut self, name: Name, meaning: Meaning) -> Result<(), AllocError>
        ensures { OnOk result (scope_of self.new ≡ link_bound (scope_of self.old) name meaning) }
    {
        self.links.bind(name, meaning, 0)?;
        self.bind(name, meaning)
    }

    fn declare_typedef(&mut self, name: Name, ty: QType, pos: Pos) -> Result<Entity, Refusal>
        ensures { Gives (λ x. (x, scope_of self.new)) result (typedef_declared (scope_of self.old) name (qty_of ty) pos) }
    {
        unless(self.names.find_in(name, self.block).is_some(), pos)?;
        let number = self.add_typedef(ty)?;
        self.bind(name, Meaning::Typedef(number))?;
        Ok(Entity::Typedef)
    }

    /// Declares an enumeration constant in the innermost block (C90 6.5.2.2). Refuses `Redeclared`
    /// at `pos`.
    pub fn declare_enumerator(&mut self, name: Name, value: i64, pos: Pos) -> Result<(), Refusal>
        ensures { Gives (λ x. scope_of self.new) result (enumerator_declared (scope_of self.old) name value pos) }
    {
        unless(self.names.find_in(name, self.block).is_some(), pos)?;
        self.bind(name, Meaning::Enumerator(value))?;
        Ok(())
    }

    /// Declares a name in the innermost block, and answers what it names, with its number in the
    /// parts (C90 6.1.2, 6.5). Refuses `Redeclared`, `IncompleteType` and `StorageClass` at `pos`, and
    /// `Object`.
    pub fn declare(
        &mut self,
        name: Name,
        ty: QType,
        storage: Option<Storage>,
        pos: Pos,
    ) -> Result<Entity, Refusal>
        ensures { Gives (λ x. (x, scope_of self.new)) result (declared (scope_of self.old) name (qty_of ty) storage pos) }
    {
        if is_typedef(storage) {
            return self.declare_typedef(name, ty, pos);
        }
        match ty.ty {
            CType::Function(function) => self.declare_function(
                name,
                Box::into_inner(function),
                storage,
                pos,
            ),
            CType::Void => Err(Refusal::At {
                code: Code::IncompleteType,
                pos,
            }),
            CType::Int(_) | CType::Pointer(_) | CType::Array(_, _) | CType::Struct(_) => {
                self.declare_object(name, ty, storage, pos)
            }
        }
    }
}
