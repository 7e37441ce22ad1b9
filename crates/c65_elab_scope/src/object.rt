// Declarations of objects.
ghost use Rattle.std.specs.Prelude.{◌≡◌, option_map, option_copied, slice_get};
ghost use Rattle.c65_base.specs.Answers.{Gives};
ghost use Rattle.c65_base.specs.declared.code.Code.TheVariants.{StorageClass};
ghost use Rattle.c65_base.specs.declared.refusal.Refusal.TheVariants.{At};
ghost use Rattle.c65_ctype.specs.Views.{ty_of, qty_of, types_of};
ghost use Rattle.c65_csem.specs.Views.{object_of};
ghost use Rattle.c65_elab_scope.specs.Scopes.{scope_of};
ghost use Rattle.c65_elab_scope.specs.Declaring.{is_shared, object_shared, merged, manner_of, needs_size, needs_size_if, own_declared, object_type_in, object_again, object_linked, shared_declared, object_declared};

use crate::declare::{redeclared, unless};
use crate::meaning::{Bound, Entity, Meaning};
use crate::scope::Scope;
use c65_base::{Code, Name, Pos, Refusal};
use c65_csem::{Class, TObject};
use c65_ctype::{CType, QType, Types};
use c65_tree::Storage;

/// Whether an object belongs to its block or has linkage, and how it is defined.
#[derive(Clone, Copy)]
pub enum Manner {
    Own(Class),
    Shared(Class),
}

fn is_shared(class: Class) -> bool
    ensures { result ≡ is_shared class }
{
    match class {
        Class::Static => false,
        _ => true,
    }
}

/// Whether an object has external linkage, if it has any.
pub fn object_shared(object: Option<&TObject>) -> bool
    ensures { result ≡ object_shared (option_map object_of (option_copied object.entry)) }
{
    match object {
        Some(object) => is_shared(object.class),
        None => true,
    }
}

/// The class of an object that is declared twice.
fn merged(old: Class, new: Class) -> Class
    ensures { result ≡ merged old new }
{
    match old {
        Class::Declared => new,
        _ => old,
    }
}

fn storage_class(pos: Pos) -> Refusal
    ensures { result ≡ At StorageClass pos }
{
    Refusal::At {
        code: Code::StorageClass,
        pos,
    }
}

/// How an object is declared with this storage class, where so many blocks are open.
fn manner_for(
    storage: Option<Storage>,
    block: u32,
    shared: bool,
    pos: Pos,
) -> Result<Manner, Refusal>
    ensures { Gives (λ m. m) result (manner_of storage block shared pos) }
{
    let outside = block == 0;
    match storage {
        None => Ok(if outside {
            Manner::Shared(Class::Tentative)
        } else {
            Manner::Own(Class::Auto)
        }),
        Some(Storage::Extern) => Ok(Manner::Shared(if shared {
            Class::Declared
        } else {
            Class::Static
        })),
        Some(Storage::Static) => Ok(if outside {
            Manner::Shared(Class::Static)
        } else {
            Manner::Own(Class::Static)
        }),
        Some(Storage::Auto) => {
            if outside {
                Err(storage_class(pos))
            } else {
                Ok(Manner::Own(Class::Auto))
            }
        }
        Some(Storage::Register) => {
            if outside {
                Err(storage_class(pos))
            } else {
                Ok(Manner::Own(Class::Register))
            }
        }
        Some(Storage::Typedef) => Err(storage_class(pos)),
    }
}

/// The size of an object, or of the elements of an array whose number is not known yet.
fn needs_size(types: &Types, ty: &CType, pos: Pos) -> Result<u32, Refusal>
    ensures { Gives (λ n. n) result (needs_size (types_of types.now) pos (ty_of ty.now)) }
{
    match ty {
        CType::Array(element, None) => types.size(&element.ty, pos),
        _ => types.size(ty, pos),
    }
}

fn needs_size_if(shared: bool, types: &Types, ty: &CType, pos: Pos) -> Result<u32, Refusal>
    ensures { Gives (λ n. n) result (needs_size_if shared (types_of types.now) pos (ty_of ty.now)) }
{
    if shared {
        Ok(0)
    } else {
        needs_size(types, ty, pos)
    }
}

/// The type and class of an object that is declared once more.
fn object_type_again(
    types: &Types,
    object: Option<&TObject>,
    ty: &QType,
    class: Class,
    pos: Pos,
) -> Result<(QType, Class), Refusal>
    ensures { Gives (λ x. (qty_of x.0, x.1)) result (object_type_in (types_of types.now) (qty_of ty.now) class pos (option_map object_of (option_copied object.entry))) }
{
    let Some(object) = object else {
        return Err(redeclared(pos));
    };
    if is_shared(object.class) != is_shared(class) {
        return Err(redeclared(pos));
    }
    if types.compatible(&object.ty, ty)? {
        Ok((
            types.composite(&object.ty, ty)?,
            merged(object.class, class),
        ))
    } else {
        Err(redeclared(pos))
    }
}

impl Scope {
    /// An object by its number.
    pub fn object(&self, number: u32) -> Option<&TObject>
        ensures { option_map object_of (option_copied result) ≡ slice_get (scope_of self.now).unit.objects number }
    {
        self.parts.objects.get(number as usize)
    }

    /// An object of the innermost block.
    fn declare_own(
        &mut self,
        name: Name,
        ty: QType,
        class: Class,
        pos: Pos,
    ) -> Result<Entity, Refusal>
        ensures { Gives (λ x. (x, scope_of self.new)) result (own_declared (scope_of self.old) name (qty_of ty) class pos) }
    {
        unless(self.names.find_in(name, self.block).is_some(), pos)?;
        needs_size(&self.parts.types, &ty.ty, pos)?;
        let number = self.add_object(Some(name), ty, class)?;
        self.bind(name, Meaning::Object(number))?;
        Ok(Entity::Object(number))
    }

    /// An object that has linkage and was declared before.
    fn object_again(
        &mut self,
        name: Name,
        ty: QType,
        class: Class,
        pos: Pos,
        meaning: Meaning,
    ) -> Result<Entity, Refusal>
        ensures { Gives (λ x. (x, scope_of self.new)) result (object_again (scope_of self.old) name (qty_of ty) class pos meaning) }
    {
        let Meaning::Object(number) = meaning else {
            return Err(redeclared(pos));
        };
        let (ty, class) = object_type_again(
            &self.parts.types,
            self.object(number),
            &ty,
            class,
            pos,
        )?;
        self.redeclare_object(number, ty, class);
        self.bind(name, Meaning::Object(number))?;
        Ok(Entity::Object(number))
    }

    fn link_object(
        &mut self,
        name: Name,
        ty: QType,
        class: Class,
        pos: Pos,
        link: Option<Bound>,
    ) -> Result<Entity, Refusal>
        ensures { Gives (λ x. (x, scope_of self.new)) result (object_linked (scope_of self.old) name (qty_of ty) class pos link) }
    {
        match link {
            Some(bound) => self.object_again(name, ty, class, pos, bound.meaning),
            None => {
                let number = self.add_object(Some(name), ty, class)?;
                self.bind_link(name, Meaning::Object(number))?;
                Ok(Entity::Object(number))
            }
        }
    }

    /// An object that has linkage.
    fn declare_shared(
        &mut self,
        name: Name,
        ty: QType,
        class: Class,
        pos: Pos,
    ) -> Result<Entity, Refusal>
        ensures { Gives (λ x. (x, scope_of self.new)) result (shared_declared (scope_of self.old) name (qty_of ty) class pos) }
    {
        unless(self.has_clash(name), pos)?;
        needs_size_if(is_shared(class), &self.parts.types, &ty.ty, pos)?;
        let link = self.links.find(name);
        self.link_object(name, ty, class, pos, link)
    }

    /// An object (C90 6.5.1, 6.7.2).
    pub(crate) fn declare_object(
        &mut self,
        name: Name,
        ty: QType,
        storage: Option<Storage>,
        pos: Pos,
    ) -> Result<Entity, Refusal>
        ensures { Gives (λ x. (x, scope_of self.new)) result (object_declared (scope_of self.old) name (qty_of ty) storage pos) }
    {
        match manner_for(storage, self.block, self.is_shared(name), pos)? {
            Manner::Own(class) => self.declare_own(name, ty, class, pos),
            Manner::Shared(class) => self.declare_shared(name, ty, class, pos),
        }
    }
}
