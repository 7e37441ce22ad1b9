// Whether two types are the same.
ghost use Rattle.std.specs.Prelude.{◌≡◌};
ghost use Rattle.c65_ctype.specs.Compatible.{same_int, same_bool};
ghost use Rattle.c65_ctype.specs.Views.{ty_of, qty_of, fn_of};
ghost use Rattle.c65_csem_check.specs.Kinds.{equal_count, same, same_ty, same_fn};

use c65_ctype::{CType, FnType, QType};
use c65_ints::IntType;

pub fn same_kind(a: IntType, b: IntType) -> bool
    ensures { result ≡ same_int a b }
{
    a.number() == b.number()
}

pub fn same_bit(a: bool, b: bool) -> bool
    ensures { result ≡ same_bool a b }
{
    if a { b } else { !b }
}

pub fn equal_count(a: Option<u32>, b: Option<u32>) -> bool
    ensures { result ≡ equal_count a b }
{
    match (a, b) {
        (None, None) => true,
        (Some(a), Some(b)) => a == b,
        _ => false,
    }
}

/// Whether two types are the same, with their qualifiers.
#[cycle(same)]
pub fn same(a: &QType, b: &QType) -> bool
    ensures { result ≡ same (qty_of a.now) (qty_of b.now) }
{
    same_bit(a.is_const, b.is_const)
        && same_bit(a.is_volatile, b.is_volatile)
        && same_plain(&a.ty, &b.ty)
}

/// Whether two types without qualifiers are the same.
#[cycle(same)]
pub fn same_plain(a: &CType, b: &CType) -> bool
    ensures { result ≡ same_ty (ty_of a.now) (ty_of b.now) }
{
    match (a, b) {
        (CType::Void, CType::Void) => true,
        (CType::Int(a), CType::Int(b)) => same_kind(*a, *b),
        (CType::Pointer(a), CType::Pointer(b)) => same(a, b),
        (CType::Array(a, m), CType::Array(b, n)) => equal_count(*m, *n) && same(a, b),
        (CType::Struct(m), CType::Struct(n)) => *m == *n,
        (CType::Function(f), CType::Function(g)) => same_function(f, g),
        _ => false,
    }
}

/// Whether two function types are the same.
#[cycle(same)]
pub fn same_function(f: &FnType, g: &FnType) -> bool
    ensures { result ≡ same_fn (fn_of f.now) (fn_of g.now) }
{
    if !same_bit(f.variadic, g.variadic)
        || !same_bit(f.cdecl, g.cdecl)
        || !same(&f.result, &g.result)
    {
        return false;
    }
    match (&f.params, &g.params) {
        (None, None) => true,
        (Some(a), Some(b)) => {
            let others = b.as_slice();
            for (i, q) in a.iter().enumerate() {
                let Some(r) = others.get(i) else {
                    return false;
                };
                if !same(q, r) {
                    return false;
                }
            }
            a.len() == others.len()
        }
        _ => false,
    }
}
