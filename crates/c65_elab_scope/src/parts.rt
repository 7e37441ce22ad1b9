// The lists of a unit grow, and what was declared before becomes more definite.
ghost use Rattle.std.specs.Prelude.{◌≡◌, map, take, filter, nat_lt, Ok};
ghost use Rattle.c65_base.specs.Answers.{Gives};
ghost use Rattle.c65_ctype.specs.Views.{ty_of, qty_of, fn_of};
ghost use Rattle.c65_csem.specs.Views.{object_of, func_of};
ghost use Rattle.c65_elab_scope.specs.Scopes.{scope_of};
ghost use Rattle.c65_elab_scope.specs.Parts.{object_added, func_added, typedef_added, literal_added, with_object, with_func, filled, counted_ty, counted, with_count, object_redeclared, func_redeclared, completed, fewer_objects, spill_added, without_spills};

use crate::scope::Scope;
use c65_base::{Name, Refusal, Text as Bytes};
use c65_csem::{Class, TFunc, TObject, int_type};
use c65_ctype::{CType, FnType, QType};
use c65_ints::IntType;
use std::mem;

/// A number for one more item of a list.
fn next_number(length: usize) -> Result<u32, Refusal>
    ensures { Gives (λ n. n) result (Ok length) }
{
    if length > 0xffff_ffff {
        return Err(Refusal::OutOfMemory);
    }
    Ok(length as u32)
}

/// An object has this type and is defined so.
#[tactic(auto, using(crate::proofs::PartLaws::object_set, crate::proofs::PartLaws::object_past))]
fn set_object(objects: &mut Vec<TObject>, number: u32, ty: QType, class: Class)
    ensures { map object_of objects.new.items ≡ with_object (map object_of objects.old.items) number (qty_of ty) class }
{
    if let Some(object) = objects.get_mut(number as usize) {
        object.ty = ty;
        object.class = class;
    }
}

/// A function has this type.
#[tactic(auto, using(crate::proofs::PartLaws::func_set, crate::proofs::PartLaws::func_past))]
fn set_func(funcs: &mut Vec<TFunc>, number: u32, ty: FnType)
    ensures { map func_of funcs.new.items ≡ with_func (map func_of funcs.old.items) number (fn_of ty) }
{
    if let Some(func) = funcs.get_mut(number as usize) {
        func.ty = ty;
    }
}

/// A number where there is none.
fn filled(size: Option<u32>, count: u32) -> Option<u32>
    ensures { result ≡ filled size count }
{
    match size {
        None => Some(count),
        Some(size) => Some(size),
    }
}

fn plain_with_count(ty: CType, count: u32) -> CType
    ensures { ty_of result ≡ counted_ty (ty_of ty) count }
{
    match ty {
        CType::Array(element, size) => {
            let known = size;
            CType::Array(element, filled(known, count))
        }
        other => other,
    }
}

/// An array type whose number of elements is not known has so many.
fn with_count(ty: QType, count: u32) -> QType
    ensures { qty_of result ≡ counted (qty_of ty) count }
{
    let QType {
        ty,
        is_const,
        is_volatile,
    } = ty;
    QType {
        ty: plain_with_count(ty, count),
        is_const,
        is_volatile,
    }
}

/// An array whose number of elements is not known has so many.
#[tactic(auto, using(crate::proofs::PartLaws::count_set, crate::proofs::PartLaws::count_past))]
fn complete_object(objects: &mut Vec<TObject>, number: u32, count: u32)
    ensures { map object_of objects.new.items ≡ with_count (map object_of objects.old.items) number count }
{
    if let Some(object) = objects.get_mut(number as usize) {
        let ty = mem::replace(&mut object.ty, int_type(IntType::Int));
        object.ty = with_count(ty, count);
    }
}

/// Only the first objects stay.
#[tactic(auto, using(crate::proofs::PartLaws::taken))]
fn keep_first(objects: &mut Vec<TObject>, count: usize)
    ensures { map object_of objects.new.items ≡ take count (map object_of objects.old.items) }
{
    objects.truncate(count);
}

/// Only the numbers of those objects stay.
fn keep_spills(spills: &mut Vec<u32>, count: usize)
    ensures { spills.new.items ≡ filter (λ i. nat_lt i count) spills.old.items }
{
    spills.retain(|number| (*number as usize) < count);
}

impl Scope {
    /// One more object, and its number.
    pub(crate) fn add_object(
        &mut self,
        name: Option<Name>,
        ty: QType,
        class: Class,
    ) -> Result<u32, Refusal>
        ensures { Gives (λ n. (n, scope_of self.new)) result (object_added (scope_of self.old) name (qty_of ty) class) }
    {
        let number = next_number(self.parts.objects.len())?;
        let object = TObject {
            name,
            ty,
            class,
            init: None,
        };
        self.parts.objects.push(object)?;
        Ok(number)
    }

    /// One more object without a name, which holds what a call gives, and its number. It refuses for
    /// memory alone.
    pub fn add_spill(&mut self, ty: QType) -> Result<u32, Refusal>
        ensures { Gives (λ n. (n, scope_of self.new)) result (spill_added (scope_of self.old) (qty_of ty)) }
    {
        let number = self.add_object(None, ty, Class::Auto)?;
        self.spills.push(number)?;
        Ok(number)
    }

    /// The objects without a name of a function, which begins or ends. It takes no memory.
    pub fn take_spills(&mut self) -> Vec<u32>
        ensures spills { result.items ≡ (scope_of self.old).spills }
        ensures left { scope_of self.new ≡ without_spills (scope_of self.old) }
    {
        mem::replace(&mut self.spills, Vec::new(self.alloc))
    }

    /// One more function, and its number.
    pub(crate) fn add_func(
        &mut self,
        name: Name,
        ty: FnType,
        external: bool,
    ) -> Result<u32, Refusal>
        ensures { Gives (λ n. (n, scope_of self.new)) result (func_added (scope_of self.old) name (fn_of ty) external) }
    {
        let number = next_number(self.parts.funcs.len())?;
        let func = TFunc {
            name,
            ty,
            external,
            params: Vec::new(self.alloc),
            body: None,
            library: None,
        };
        self.parts.funcs.push(func)?;
        Ok(number)
    }

    /// One more type of a typedef name, and its number.
    pub(crate) fn add_typedef(&mut self, ty: QType) -> Result<u32, Refusal>
        ensures { Gives (λ n. (n, scope_of self.new)) result (typedef_added (scope_of self.old) (qty_of ty)) }
    {
        let number = next_number(self.typedefs.len())?;
        self.typedefs.push(ty)?;
        Ok(number)
    }

    /// One more string literal, and its number. It refuses for memory alone.
    pub fn add_literal(&mut self, bytes: Bytes) -> Result<u32, Refusal>
        ensures { Gives (λ n. (n, scope_of self.new)) result (literal_added (scope_of self.old) bytes) }
    {
        let number = next_number(self.parts.literals.len())?;
        self.parts.literals.push(bytes)?;
        Ok(number)
    }

    /// A later declaration of an object.
    pub(crate) fn redeclare_object(&mut self, number: u32, ty: QType, class: Class)
        ensures { scope_of self.new ≡ object_redeclared (scope_of self.old) number (qty_of ty) class }
    {
        set_object(&mut self.parts.objects, number, ty, class);
    }

    /// A later declaration of a function.
    pub(crate) fn redeclare_func(&mut self, number: u32, ty: FnType)
        ensures { scope_of self.new ≡ func_redeclared (scope_of self.old) number (fn_of ty) }
    {
        set_func(&mut self.parts.funcs, number, ty);
    }

    /// Gives an array object whose number of elements is not known so many. Another object stays as
    /// it is. It takes no memory.
    pub fn complete(&mut self, object: u32, count: u32)
        ensures { scope_of self.new ≡ completed (scope_of self.old) object count }
    {
        complete_object(&mut self.parts.objects, object, count);
    }

    /// Forgets the objects from this number on, which were those of a prototype's parameters, or of
    /// what calls give that are not evaluated.
    pub fn keep_objects(&mut self, count: usize)
        ensures { scope_of self.new ≡ fewer_objects (scope_of self.old) count }
    {
        keep_first(&mut self.parts.objects, count);
        keep_spills(&mut self.spills, count);
    }
}
