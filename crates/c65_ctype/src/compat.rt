// Two types side by side: they differ, or they meet in some pairs of tags (C90 6.1.2.6).
ghost use Rattle.std.specs.Prelude.{◌≡◌, IfOk, Option, Some, None};
ghost use Rattle.c65_ctype.specs.Views.{ty_of, qty_of, fn_of, params_in, qtys_of, member_of};
ghost use Rattle.c65_ctype.specs.Compatible.{same_count, stays_promoted, all_stay, meet, qualified_meet, functions_meet, lists_meet, same_name, same_width, one_meets, met};

use crate::types::{CType, FnType, Member, QType};
use c65_base::Name;
use c65_ints::IntType;
use std::alloc::AllocError;

/// The tags that two types have at equal places.
pub type Pairs = Vec<(u32, u32)>;

fn same_count(a: Option<u32>, b: Option<u32>) -> bool
    ensures { result ≡ same_count a b }
{
    match (a, b) {
        (Some(a), Some(b)) => a == b,
        _ => true,
    }
}

/// Whether the default argument promotions leave a type as it is (C90 6.3.2.2).
fn stays_promoted(ty: &CType) -> bool
    ensures { result ≡ stays_promoted (ty_of ty.now) }
{
    match ty {
        CType::Int(IntType::SChar | IntType::UChar | IntType::Short | IntType::UShort) => false,
        _ => true,
    }
}

fn all_stay(types: &[QType]) -> bool
    ensures { result ≡ all_stay (qtys_of types.now) }
{
    for q in types {
        if !stays_promoted(&q.ty) {
            return false;
        }
    }
    true
}

/// Adds the pairs of tags in which two types meet. False where the types differ.
#[cycle(meet)]
pub fn qualified_meet(a: &QType, b: &QType, pairs: &mut Pairs) -> Result<bool, AllocError>
    ensures { IfOk result (λ same. met same pairs.new.items ≡ qualified_meet pairs.old.items (qty_of a.now) (qty_of b.now)) }
{
    if a.is_const == b.is_const && a.is_volatile == b.is_volatile {
        meet(&a.ty, &b.ty, pairs)
    } else {
        Ok(false)
    }
}

#[cycle(meet)]
fn meet(a: &CType, b: &CType, pairs: &mut Pairs) -> Result<bool, AllocError>
    ensures { IfOk result (λ same. met same pairs.new.items ≡ meet pairs.old.items (ty_of a.now) (ty_of b.now)) }
{
    match (a, b) {
        (CType::Void, CType::Void) => Ok(true),
        (CType::Int(a), CType::Int(b)) => Ok(a.number() == b.number()),
        (CType::Pointer(a), CType::Pointer(b)) => qualified_meet(a, b, pairs),
        (CType::Array(a, m), CType::Array(b, n)) => {
            if same_count(*m, *n) {
                qualified_meet(a, b, pairs)
            } else {
                Ok(false)
            }
        }
        (CType::Struct(s), CType::Struct(t)) => {
            pairs.push((*s, *t))?;
            Ok(true)
        }
        (CType::Function(f), CType::Function(g)) => functions_meet(f, g, pairs),
        _ => Ok(false),
    }
}

#[cycle(meet)]
fn functions_meet(f: &FnType, g: &FnType, pairs: &mut Pairs) -> Result<bool, AllocError>
    ensures { IfOk result (λ same. met same pairs.new.items ≡ functions_meet pairs.old.items (fn_of f.now) (fn_of g.now)) }
{
    if f.cdecl != g.cdecl || !qualified_meet(&f.result, &g.result, pairs)? {
        return Ok(false);
    }
    match (&f.params, &g.params) {
        (None, None) => Ok(true),
        (None, Some(types)) => Ok(!g.variadic && all_stay(types)),
        (Some(types), None) => Ok(!f.variadic && all_stay(types)),
        (Some(a), Some(b)) => {
            if f.variadic != g.variadic {
                return Ok(false);
            }
            let others = b.as_slice();
            for (i, q) in a.iter().enumerate() {
                let Some(r) = others.get(i) else {
                    return Ok(false);
                };
                if !meet(&q.ty, &r.ty, pairs)? {
                    return Ok(false);
                }
            }
            Ok(a.len() == others.len())
        }
    }
}

fn same_name(a: Option<Name>, b: Option<Name>) -> bool
    ensures { result ≡ same_name a b }
{
    match (a, b) {
        (None, None) => true,
        (Some(a), Some(b)) => a.0 == b.0,
        _ => false,
    }
}

fn same_width(a: Option<(u8, u8)>, b: Option<(u8, u8)>) -> bool
    ensures { result ≡ same_width a b }
{
    match (a, b) {
        (None, None) => true,
        (Some((_, a)), Some((_, b))) => a == b,
        _ => false,
    }
}

/// Adds the pairs of tags in which two members meet. False where the members differ.
pub fn one_meets(a: &Member, b: &Member, pairs: &mut Pairs) -> Result<bool, AllocError>
    ensures { IfOk result (λ same. met same pairs.new.items ≡ one_meets pairs.old.items (member_of a.now) (member_of b.now)) }
{
    if same_name(a.name, b.name) && same_width(a.bits, b.bits) {
        qualified_meet(&a.ty, &b.ty, pairs)
    } else {
        Ok(false)
    }
}
