// The composite type of two compatible types (C90 6.1.2.6).
ghost use Rattle.std.specs.Prelude.{◌≡◌, IfOk, IfErr, false, option_copied, slice_get};
ghost use Rattle.c65_base.specs.declared.refusal.Refusal.TheVariants.{OutOfMemory};
ghost use Rattle.c65_ctype.specs.Trees.{qual};
ghost use Rattle.c65_ctype.specs.Views.{ty_of, qty_of, fn_of, params_in, types_of};
ghost use Rattle.c65_ctype.specs.Composite.{joined_count, joined_tag, composite_of, composite_ty, composite_fn};

use crate::table::Types;
use crate::types::{CType, FnType, QType};
use c65_base::Refusal;
use std::alloc::{AllocError, Global};

fn joined_count(a: Option<u32>, b: Option<u32>) -> Option<u32>
    ensures { result ≡ joined_count a b }
{
    match a {
        Some(count) => Some(count),
        None => b,
    }
}

fn type_at(types: &[QType], i: usize) -> Option<&QType>
    ensures { option_copied result ≡ slice_get types.now i }
{
    types.get(i)
}

fn copy_params(alloc: Global, params: &Option<Vec<QType>>) -> Result<Option<Vec<QType>>, AllocError>
    ensures { IfOk result (λ o. params_in o ≡ params_in params.now) }
{
    match params {
        None => Ok(None),
        Some(types) => {
            let mut copies = Vec::new(alloc);
            for ty in types {
                let copy = ty.copy(alloc)?;
                copies.push(copy)?;
            }
            Ok(Some(copies))
        }
    }
}

impl Types {
    /// The composite type of two types that are compatible. Refuses for want of memory alone.
    pub fn composite(&self, a: &QType, b: &QType) -> Result<QType, Refusal>
        ensures composite { IfOk result (λ q. qty_of q ≡ composite_of (types_of self.now) (qty_of a.now) (qty_of b.now)) }
        ensures refused { IfErr result (λ e. e ≡ OutOfMemory) }
    {
        Ok(self.composite_of(a, b)?)
    }

    fn joined_tag(&self, s: u32, t: u32) -> u32
        ensures { result ≡ joined_tag (types_of self.now) s t }
    {
        match self.get(s) {
            Some(_) => s,
            None => t,
        }
    }

    #[cycle(composite)]
    fn composite_of(&self, a: &QType, b: &QType) -> Result<QType, AllocError>
        ensures { IfOk result (λ q. qty_of q ≡ composite_of (types_of self.now) (qty_of a.now) (qty_of b.now)) }
    {
        Ok(QType {
            ty: self.composite_ty(&a.ty, &b.ty)?,
            is_const: a.is_const,
            is_volatile: a.is_volatile,
        })
    }

    #[cycle(composite)]
    fn composite_ty(&self, a: &CType, b: &CType) -> Result<CType, AllocError>
        ensures { IfOk result (λ t. ty_of t ≡ composite_ty (types_of self.now) (ty_of a.now) (ty_of b.now)) }
    {
        match (a, b) {
            (CType::Pointer(a), CType::Pointer(b)) => {
                let target = self.composite_of(a, b)?;
                Ok(CType::Pointer(Box::new(self.alloc, target)?))
            }
            (CType::Array(a, m), CType::Array(b, n)) => {
                let element = self.composite_of(a, b)?;
                Ok(CType::Array(Box::new(self.alloc, element)?, joined_count(*m, *n)))
            }
            (CType::Struct(s), CType::Struct(t)) => Ok(CType::Struct(self.joined_tag(*s, *t))),
            (CType::Function(f), CType::Function(g)) => {
                let function = self.composite_fn(f, g)?;
                Ok(CType::Function(Box::new(self.alloc, function)?))
            }
            _ => a.copy(self.alloc),
        }
    }

    #[cycle(composite)]
    fn composite_fn(&self, f: &FnType, g: &FnType) -> Result<FnType, AllocError>
        ensures { IfOk result (λ h. fn_of h ≡ composite_fn (types_of self.now) (fn_of f.now) (fn_of g.now)) }
    {
        let given = self.composite_of(&f.result, &g.result)?;
        match (&f.params, &g.params) {
            (None, _) => {
                let params = copy_params(self.alloc, &g.params)?;
                Ok(FnType::new(given, params, f.variadic, f.cdecl))
            }
            (Some(_), None) => {
                let params = copy_params(self.alloc, &f.params)?;
                Ok(FnType::new(given, params, f.variadic, f.cdecl))
            }
            (Some(a), Some(b)) => {
                let others = b.as_slice();
                let mut params = Vec::new(self.alloc);
                for (i, q) in a.iter().enumerate() {
                    let Some(r) = type_at(others, i) else {
                        return Ok(FnType::new(given, Some(params), f.variadic, f.cdecl));
                    };
                    let ty = self.composite_ty(&q.ty, &r.ty)?;
                    params.push(plain(ty))?;
                }
                Ok(FnType::new(given, Some(params), f.variadic, f.cdecl))
            }
        }
    }
}

/// A type without qualifiers.
fn plain(ty: CType) -> QType
    ensures { qty_of result ≡ qual (ty_of ty) false false }
{
    QType {
        ty,
        is_const: false,
        is_volatile: false,
    }
}
