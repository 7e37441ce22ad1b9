// Types are copied into the trees that hold them.
ghost use Rattle.std.specs.Prelude.{◌≡◌, IfOk};
ghost use Rattle.c65_ctype.specs.Trees.{fn};
ghost use Rattle.c65_ctype.specs.Views.{ty_of, qty_of, fn_of, params_in};

use crate::types::{CType, FnType, QType};
use std::alloc::{AllocError, Global};

impl QType {
    /// The same type once more.
    pub fn copy(&self, alloc: Global) -> Result<QType, AllocError>
        ensures { IfOk result (λ q. qty_of q ≡ qty_of self.now) }
    {
        copied(alloc, self)
    }
}

impl CType {
    /// The same type once more.
    pub fn copy(&self, alloc: Global) -> Result<CType, AllocError>
        ensures { IfOk result (λ t. ty_of t ≡ ty_of self.now) }
    {
        copied_plain(alloc, self)
    }
}

impl FnType {
    /// A function's type of its parts.
    pub fn new(given: QType, params: Option<Vec<QType>>, variadic: bool, cdecl: bool) -> FnType
        ensures { fn_of result ≡ fn (qty_of given) (params_in params) variadic cdecl }
    {
        FnType {
            result: given,
            params,
            variadic,
            cdecl,
        }
    }

    /// The same type once more.
    pub fn copy(&self, alloc: Global) -> Result<FnType, AllocError>
        ensures { IfOk result (λ f. fn_of f ≡ fn_of self.now) }
    {
        copied_fn(alloc, self)
    }
}

#[cycle(copy)]
fn copied(alloc: Global, q: &QType) -> Result<QType, AllocError>
    ensures { IfOk result (λ t. qty_of t ≡ qty_of q.now) }
{
    Ok(QType {
        ty: copied_plain(alloc, &q.ty)?,
        is_const: q.is_const,
        is_volatile: q.is_volatile,
    })
}

#[cycle(copy)]
fn copied_plain(alloc: Global, ty: &CType) -> Result<CType, AllocError>
    ensures { IfOk result (λ t. ty_of t ≡ ty_of ty.now) }
{
    match ty {
        CType::Void => Ok(CType::Void),
        CType::Int(int) => Ok(CType::Int(*int)),
        CType::Pointer(target) => {
            let target = copied(alloc, target)?;
            Ok(CType::Pointer(Box::new(alloc, target)?))
        }
        CType::Array(element, count) => {
            let element = copied(alloc, element)?;
            Ok(CType::Array(Box::new(alloc, element)?, *count))
        }
        CType::Struct(tag) => Ok(CType::Struct(*tag)),
        CType::Function(function) => {
            let function = copied_fn(alloc, function)?;
            Ok(CType::Function(Box::new(alloc, function)?))
        }
    }
}

#[cycle(copy)]
fn copied_fn(alloc: Global, function: &FnType) -> Result<FnType, AllocError>
    ensures { IfOk result (λ f. fn_of f ≡ fn_of function.now) }
{
    let given = copied(alloc, &function.result)?;
    match &function.params {
        None => Ok(FnType::new(given, None, function.variadic, function.cdecl)),
        Some(types) => {
            let mut copies = Vec::new(alloc);
            for ty in types {
                let copy = copied(alloc, ty)?;
                copies.push(copy)?;
            }
            Ok(FnType::new(given, Some(copies), function.variadic, function.cdecl))
        }
    }
}
