// How deep types are.
ghost use Rattle.std.specs.Prelude.{◌≡◌, ◌+◌, min};
ghost use Rattle.c65_ctype.specs.Views.{ty_of, qty_of, fn_of};
ghost use Rattle.c65_ctype.specs.Depth.{ty_depth, qty_depth, fn_depth};

use crate::types::{CType, FnType, QType};

impl QType {
    /// The depth of a type: 1 where it is no derived type, and else one more than that of its
    /// deepest part. It takes no memory.
    pub fn depth(&self) -> u32
        ensures { result ≡ min (qty_depth (qty_of self.now)) 4294967295 }
    {
        depth_of(&self.ty)
    }
}

impl CType {
    /// The depth of a type: 1 where it is no derived type, and else one more than that of its
    /// deepest part. It takes no memory.
    pub fn depth(&self) -> u32
        ensures { result ≡ min (ty_depth (ty_of self.now)) 4294967295 }
    {
        depth_of(self)
    }
}

#[cycle(depth)]
fn depth_of(ty: &CType) -> u32
    ensures { result ≡ min (ty_depth (ty_of ty.now)) 4294967295 }
{
    match ty {
        CType::Void | CType::Int(_) | CType::Struct(_) => 1,
        CType::Pointer(target) => depth_of(&target.ty).saturating_add(1),
        CType::Array(element, _) => depth_of(&element.ty).saturating_add(1),
        CType::Function(function) => depth_in(function).saturating_add(1),
    }
}

/// The depth of the deepest part of a function's type.
#[cycle(depth)]
fn depth_in(function: &FnType) -> u32
    ensures { result ≡ min (fn_depth (fn_of function.now)) 4294967295 }
{
    let given = depth_of(&function.result.ty);
    match &function.params {
        None => given,
        Some(types) => {
            let mut depth: u32 = 0;
            for ty in types {
                depth = depth.max(depth_of(&ty.ty));
            }
            given.max(depth)
        }
    }
}
