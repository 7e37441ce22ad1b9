// The parts of a declarator, and the types that they make (C90 6.5.4).
ghost use Rattle.std.specs.Prelude.{◌≡◌, ◌∷◌, [], ◌++◌, IfOk, map, nat_lt, Ok};
ghost use Rattle.c65_base.specs.Answers.{Gives};
ghost use Rattle.c65_base.specs.declared.refusal.Refusal.TheVariants.{At};
ghost use Rattle.c65_ctype.specs.Depth.{qty_depth};
ghost use Rattle.c65_ctype.specs.Views.{ty_of, qty_of, qtys_of, types_of, params_in as params_seen};
ghost use Rattle.c65_elab_declare.specs.Declarators.{formal_of, formals_of, part_of, deep, pointed, element_form, size_when, arrayed, formal_tys, params_in, result_form, called, applied, role_behind, built, adjusted};

use c65_base::{Code, Name, Pos, Refusal, Size};
use c65_csem::pointer_to;
use c65_ctype::{CType, FnType, QType, Types};
use c65_elab_convert::structure_size;
use std::alloc::{AllocError, Global};

/// A parameter: its name, its type after adjustment, and its place.
#[derive(Drop)]
pub struct Formal {
    pub name: Option<Name>,
    pub ty: QType,
    pub is_register: bool,
    pub pos: Pos,
}

/// The parameters of a function declarator: none are given, names alone, or a prototype; the flag
/// says that `...` ends it.
#[derive(Drop)]
pub enum Formals {
    Unknown,
    Names(Vec<(Name, Pos)>),
    Types(Vec<Formal>, bool),
}

/// A part of a declarator: a pointer with its qualifiers, an array with the number of its elements,
/// or a function.
#[derive(Drop)]
pub enum Part {
    Pointer(bool, bool),
    Array(Option<u32>, Pos),
    Function(Formals, Pos),
}

pub fn fault(code: Code, pos: Pos) -> Refusal
    ensures { result ≡ At code pos }
{
    Refusal::At { code, pos }
}

/// Whether a type is deeper than 256.
#[tactic(auto, using(crate::proofs::Lists::depth_test))]
fn is_deep(ty: &QType) -> bool
    ensures { result ≡ nat_lt 256 (qty_depth (qty_of ty.now)) }
{
    ty.depth() > 256
}

/// A type that is not too deep.
pub fn within_depth(ty: QType) -> Result<QType, Refusal>
    ensures { Gives qty_of result (deep (qty_of ty)) }
{
    if is_deep(&ty) {
        Err(Refusal::TooLarge {
            limit: Size::Depth,
            value: 257,
        })
    } else {
        Ok(ty)
    }
}

/// A pointer to a type (C90 6.5.4.1).
fn pointer(
    alloc: Global,
    target: QType,
    is_const: bool,
    is_volatile: bool,
) -> Result<QType, Refusal>
    ensures { Gives qty_of result (pointed (qty_of target) is_const is_volatile) }
{
    let target = Box::new(alloc, target)?;
    within_depth(QType {
        ty: CType::Pointer(target),
        is_const,
        is_volatile,
    })
}

/// There is no array of functions or of void.
fn element_form(ty: &CType, pos: Pos) -> Result<(), Refusal>
    ensures { Gives (λ x. tt) result (element_form (ty_of ty.now) pos) }
{
    match ty {
        CType::Void | CType::Function(_) => Err(fault(Code::TypeForm, pos)),
        _ => Ok(()),
    }
}

/// The size of a type, if it is to have one.
fn size_when(needed: bool, types: &Types, ty: &CType, pos: Pos) -> Result<u32, Refusal>
    ensures { Gives (λ n. n) result (size_when needed (types_of types.now) pos (ty_of ty.now)) }
{
    if needed { types.size(ty, pos) } else { Ok(0) }
}

/// An array of a type (C90 6.5.4.2).
fn array(
    alloc: Global,
    types: &Types,
    element: QType,
    count: Option<u32>,
    pos: Pos,
) -> Result<QType, Refusal>
    ensures { Gives qty_of result (arrayed (types_of types.now) (qty_of element) count pos) }
{
    element_form(&element.ty, pos)?;
    types.size(&element.ty, pos)?;
    let ty = CType::Array(Box::new(alloc, element)?, count);
    size_when(count.is_some(), types, &ty, pos)?;
    within_depth(QType {
        ty,
        is_const: false,
        is_volatile: false,
    })
}

/// The types of parameters.
fn formal_types(alloc: Global, formals: &[Formal]) -> Result<Vec<QType>, AllocError>
    ensures { IfOk result (λ v. qtys_of v.items ≡ formal_tys (map formal_of formals.now)) }
{
    let mut types = Vec::new(alloc);
    for formal in formals {
        let copy = formal.ty.copy(alloc)?;
        types.push(copy)?;
    }
    Ok(types)
}

/// The parameters of a function's type. A list of names is one of a definition alone, and says
/// nothing of types (C90 6.5.4.3).
fn params_of(
    alloc: Global,
    formals: &Formals,
    named: bool,
    pos: Pos,
) -> Result<(Option<Vec<QType>>, bool), Refusal>
    ensures { Gives (λ x. (params_seen x.0, x.1)) result (params_in (formals_of formals.now) named pos) }
{
    match formals {
        Formals::Unknown => Ok((None, false)),
        Formals::Names(_) => {
            if named {
                Ok((None, false))
            } else {
                Err(fault(Code::ParameterList, pos))
            }
        }
        Formals::Types(formals, variadic) => Ok((Some(formal_types(alloc, formals)?), *variadic)),
    }
}

/// What a part is in its declarator: the function part that the name is next to, in a definition
/// or not, or another part.
#[derive(Clone, Copy)]
pub struct Role {
    /// `__cdecl__` stands at the function part that comes first.
    pub cdecl: bool,
    /// The first function part may have names alone.
    pub named: bool,
    /// The place of the declarator's name.
    pub name: Pos,
}

/// No function gives a function or an array; a structure or union that it gives has at most four
/// bytes, and is refused at the function's name.
fn result_form(types: &Types, ty: &CType, pos: Pos, name: Pos) -> Result<(), Refusal>
    ensures { Gives (λ x. tt) result (result_form (types_of types.now) (ty_of ty.now) pos name) }
{
    match ty {
        CType::Function(_) | CType::Array(_, _) => Err(fault(Code::TypeForm, pos)),
        CType::Struct(_) => {
            structure_size(types, name, ty)?;
            Ok(())
        }
        _ => Ok(()),
    }
}

/// A function that gives a type (C90 6.5.4.3).
fn function(
    alloc: Global,
    types: &Types,
    given: QType,
    formals: &Formals,
    role: Role,
    pos: Pos,
) -> Result<QType, Refusal>
    ensures { Gives qty_of result (called (types_of types.now) (qty_of given) (formals_of formals.now) role pos) }
{
    result_form(types, &given.ty, pos, role.name)?;
    let (params, variadic) = params_of(alloc, formals, role.named, pos)?;
    let ty = FnType::new(given, params, variadic, role.cdecl);
    within_depth(QType {
        ty: CType::Function(Box::new(alloc, ty)?),
        is_const: false,
        is_volatile: false,
    })
}

/// The type that a part makes of a type.
fn applied(
    alloc: Global,
    types: &Types,
    part: &Part,
    role: Role,
    ty: QType,
) -> Result<QType, Refusal>
    ensures { Gives qty_of result (applied (types_of types.now) (part_of part.now) role (qty_of ty)) }
{
    match part {
        Part::Pointer(is_const, is_volatile) => pointer(alloc, ty, *is_const, *is_volatile),
        Part::Array(count, pos) => array(alloc, types, ty, *count, *pos),
        Part::Function(formals, pos) => function(alloc, types, ty, formals, role, *pos),
    }
}

/// What the parts behind this one are.
fn role_behind(part: &Part, role: Role) -> Role
    ensures { result ≡ role_behind (part_of part.now) role }
{
    match part {
        Part::Function(_, _) => Role {
            cdecl: false,
            named: false,
            name: role.name,
        },
        _ => Role {
            cdecl: role.cdecl,
            named: false,
            name: role.name,
        },
    }
}

/// The type that parts make of a type, from the last to the first.
pub fn built(
    alloc: Global,
    types: &Types,
    base: &QType,
    parts: &[Part],
    role: Role,
) -> Result<QType, Refusal>
    ensures { Gives qty_of result (built (types_of types.now) (qty_of base.now) (map part_of parts.now) role) }
{
    match parts {
        [] => Ok(base.copy(alloc)?),
        [part, rest @ ..] => {
            let ty = built(alloc, types, base, rest, role_behind(part, role))?;
            applied(alloc, types, part, role, ty)
        }
    }
}

/// The type of a parameter: an array is a pointer to its elements, and a function a pointer to it
/// (C90 6.5.4.3).
pub fn adjusted(alloc: Global, ty: QType) -> Result<QType, Refusal>
    ensures { Gives qty_of result (adjusted (qty_of ty)) }
{
    let QType {
        ty,
        is_const,
        is_volatile,
    } = ty;
    match ty {
        CType::Array(element, _) => Ok(pointer_to(alloc, Box::into_inner(element))?),
        CType::Function(function) => {
            let function = QType {
                ty: CType::Function(function),
                is_const,
                is_volatile,
            };
            within_depth(pointer_to(alloc, function)?)
        }
        other => Ok(QType {
            ty: other,
            is_const,
            is_volatile,
        }),
    }
}

/// Parts with one more, which is outside of them.
pub fn with_part(parts: Vec<Part>, part: Part) -> Result<Vec<Part>, Refusal>
    ensures { Gives (λ v. map part_of v.items) result (Ok (map part_of parts.items ++ part_of part ∷ [])) }
{
    let mut parts = parts;
    parts.push(part)?;
    Ok(parts)
}
