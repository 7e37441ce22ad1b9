// How many bytes objects take of the software stack.
ghost use Rattle.std.specs.Prelude.{◌≡◌, ◌≤◌, min};
ghost use Rattle.c65_ctype.specs.Views.{ty_of, types_of};
ghost use Rattle.c65_ctype.specs.Sizes.{bytes_of, size_of};
ghost use Rattle.c65_csem.specs.Views.{stmt_of, stmts_of, unit_of};
ghost use Rattle.c65_meaning.specs.Shapes.{object_in};
ghost use Rattle.c65_meaning.specs.Costs.{framed_size, bytes_of_objects, local_bytes, all_local_bytes};
ghost use Rattle.c65_depth.specs.Calls.{most};

use c65_csem::{Class, Parts, TStmt};
use c65_ctype::{CType, Types};
use c65_ints::IntType;

fn integer_bytes(kind: IntType) -> u64
    ensures exact { result ≡ bytes_of kind }
    ensures small { result ≤ 4 }
{
    match kind {
        IntType::SChar | IntType::UChar => 1,
        IntType::Short | IntType::UShort | IntType::Int | IntType::UInt => 2,
        IntType::Long | IntType::ULong => 4,
    }
}

/// The bytes of a type, 0 where it has no size.
pub fn type_bytes(types: &Types, ty: &CType) -> u64
    ensures { result ≡ min (size_of (types_of types.now) (ty_of ty.now)) most }
{
    match ty {
        CType::Void | CType::Function(_) | CType::Array(_, None) => 0,
        CType::Int(kind) => integer_bytes(*kind),
        CType::Pointer(_) => 2,
        CType::Array(element, Some(count)) => {
            type_bytes(types, &element.ty).saturating_mul(*count as u64)
        }
        CType::Struct(tag) => match types.get(*tag) {
            Some(layout) => layout.size as u64,
            None => 0,
        },
    }
}

/// The bytes that an object takes of the stack: none where it has one place for the whole run.
fn framed_bytes(parts: &Parts, object: u32) -> u64
    ensures { result ≡ min (framed_size (types_of parts.now.types) (object_in (unit_of parts.now) object)) most }
{
    match parts.objects.get(object as usize) {
        Some(found) => {
            if found.class == Class::Fixed {
                0
            } else {
                type_bytes(&parts.types, &found.ty.ty)
            }
        }
        None => 0,
    }
}

pub fn bytes_of_objects(parts: &Parts, objects: &[u32]) -> u64
    ensures { result ≡ min (bytes_of_objects (unit_of parts.now) objects.now) most }
{
    let mut bytes: u64 = 0;
    for object in objects {
        bytes = bytes.saturating_add(framed_bytes(parts, *object));
    }
    bytes
}

/// The bytes of all objects of the blocks in a statement.
#[cycle(locals)]
pub fn local_bytes(parts: &Parts, stmt: &TStmt) -> u64
    ensures { result ≡ min (local_bytes (unit_of parts.now) (stmt_of stmt.now)) most }
{
    match stmt {
        TStmt::Block(objects, stmts) => {
            let own: &[u32] = objects;
            let inner: &[TStmt] = stmts;
            let bytes = bytes_of_objects(parts, own);
            bytes.saturating_add(all_local_bytes(parts, inner))
        }
        TStmt::If(_, then, other) => {
            let bytes = local_bytes(parts, then);
            bytes.saturating_add(local_bytes(parts, other))
        }
        TStmt::While(_, body)
        | TStmt::DoWhile(body, _)
        | TStmt::For(_, _, _, body)
        | TStmt::Switch(_, body)
        | TStmt::Case(_, body)
        | TStmt::Default(body)
        | TStmt::Label(_, body) => local_bytes(parts, body),
        TStmt::Empty
        | TStmt::Eval(_)
        | TStmt::Set(_, _, _)
        | TStmt::Clear(_)
        | TStmt::Goto(_)
        | TStmt::Break
        | TStmt::Continue
        | TStmt::Return(_) => 0,
    }
}

#[cycle(locals)]
fn all_local_bytes(parts: &Parts, stmts: &[TStmt]) -> u64
    ensures { result ≡ min (all_local_bytes (unit_of parts.now) (stmts_of stmts.now)) most }
{
    let mut bytes: u64 = 0;
    for stmt in stmts {
        bytes = bytes.saturating_add(local_bytes(parts, stmt));
    }
    bytes
}
