// Names, numbers and string literals as expressions (C90 6.3.1).
ghost use Rattle.std.specs.Prelude.{◌≡◌, IfOk, slice_get};
ghost use Rattle.c65_base.specs.Answers.{Gives};
ghost use Rattle.c65_ints.specs.declared.types.IntType.TheVariants.{Int};
ghost use Rattle.c65_ctype.specs.Trees.{int};
ghost use Rattle.c65_ctype.specs.Views.{qty_of};
ghost use Rattle.c65_csem.specs.Places.{plain};
ghost use Rattle.c65_csem.specs.Trees.{node, constant, rest};
ghost use Rattle.c65_csem.specs.Typed.{rest_type};
ghost use Rattle.c65_csem.specs.Views.{typed_of};
ghost use Rattle.c65_elab_scope.specs.Scopes.{scope_of};
ghost use Rattle.c65_tree.specs.View.{expr_of};
ghost use Rattle.c65_elab.specs.Naming.{object_named, func_named, is_rest, named, called_name, called_first, typedef_type, literal_type, literal_typed};

use c65_base::{Code, Name, Pos, Refusal, Text as Bytes};
use c65_csem::{TExpr, TKind, int_type, pointer_to};
use c65_ctype::{CType, FnType, QType};
use c65_elab_declare::fault;
use c65_elab_scope::{Meaning, Scope};
use c65_ints::IntType;
use c65_tree::{Expr, ExprKind};
use std::alloc::{AllocError, Global};

/// A constant of type int.
fn number(value: i64) -> TExpr
    ensures { typed_of result ≡ node (plain (int Int)) (constant value) }
{
    TExpr {
        ty: int_type(IntType::Int),
        kind: TKind::Const(value),
    }
}

/// An object as an expression.
fn object(alloc: Global, scope: &Scope, number: u32, pos: Pos) -> Result<TExpr, Refusal>
    ensures { Gives typed_of result (object_named number pos (slice_get (scope_of scope.now).unit.objects number)) }
{
    match scope.object(number) {
        None => Err(fault(Code::Undeclared, pos)),
        Some(object) => Ok(TExpr {
            ty: object.ty.copy(alloc)?,
            kind: TKind::Object(number),
        }),
    }
}

/// A function as an expression.
fn function(alloc: Global, scope: &Scope, number: u32, pos: Pos) -> Result<TExpr, Refusal>
    ensures { Gives typed_of result (func_named number pos (slice_get (scope_of scope.now).unit.funcs number)) }
{
    match scope.func(number) {
        None => Err(fault(Code::Undeclared, pos)),
        Some(func) => {
            let ty = func.ty.copy(alloc)?;
            Ok(TExpr {
                ty: QType {
                    ty: CType::Function(Box::new(alloc, ty)?),
                    is_const: false,
                    is_volatile: false,
                },
                kind: TKind::Func(number),
            })
        }
    }
}

/// Whether a name is that of the place behind the further arguments, in the body of a variadic
/// function.
fn is_rest(scope: &Scope, name: Name) -> bool
    ensures { result ≡ is_rest (scope_of scope.now) name }
{
    scope.rest.0 == name.0 && scope.variadic.is_some()
}

/// The place behind the further arguments, a pointer to bytes.
fn further(alloc: Global) -> Result<TExpr, AllocError>
    ensures { IfOk result (λ e. typed_of e ≡ node rest_type rest) }
{
    Ok(TExpr {
        ty: pointer_to(alloc, int_type(IntType::UChar))?,
        kind: TKind::Rest,
    })
}

/// A name as an expression.
pub fn named(alloc: Global, scope: &Scope, name: Name, pos: Pos) -> Result<TExpr, Refusal>
    ensures { Gives typed_of result (named (scope_of scope.now) name pos) }
{
    match scope.find(name) {
        None => {
            if is_rest(scope, name) {
                Ok(further(alloc)?)
            } else {
                Err(fault(Code::Undeclared, pos))
            }
        }
        Some(bound) => match bound.meaning {
            Meaning::Object(i) => object(alloc, scope, i, pos),
            Meaning::Func(i) => function(alloc, scope, i, pos),
            Meaning::Enumerator(value) => Ok(number(value)),
            _ => Err(fault(Code::Undeclared, pos)),
        },
    }
}

/// Declares a name that is called and was not declared as a function that gives int and whose
/// parameters are not known (C90 6.3.2.2). The name of the place behind the further arguments is
/// not declared.
fn declare_called(scope: &mut Scope, name: Name, pos: Pos) -> Result<(), Refusal>
    ensures { Gives (λ x. scope_of scope.new) result (called_name (scope_of scope.old) name pos) }
{
    if scope.find(name).is_none() && !is_rest(scope, name) {
        let ty = FnType::new(int_type(IntType::Int), None, false, false);
        scope.declare_function(name, ty, None, pos)?;
    }
    Ok(())
}

/// Declares what is called, where it is a name alone that was not declared.
pub fn declare_first(scope: &mut Scope, f: &Expr) -> Result<(), Refusal>
    ensures { Gives (λ x. scope_of scope.new) result (called_first (expr_of f.now) (scope_of scope.old)) }
{
    match &f.kind {
        ExprKind::Name(name) => declare_called(scope, *name, f.pos),
        _ => Ok(()),
    }
}

/// The type of a typedef name.
pub fn typedef_type(alloc: Global, scope: &Scope, name: Name, pos: Pos) -> Result<QType, Refusal>
    ensures { Gives qty_of result (typedef_type (scope_of scope.now) name pos) }
{
    let Some(bound) = scope.find(name) else {
        return Err(fault(Code::Undeclared, pos));
    };
    let Meaning::Typedef(number) = bound.meaning else {
        return Err(fault(Code::Undeclared, pos));
    };
    match scope.typedef(number) {
        Some(ty) => Ok(ty.copy(alloc)?),
        None => Err(fault(Code::Undeclared, pos)),
    }
}

/// The type of a string literal of so many bytes, without its last zero: an array of plain char.
fn literal_type(alloc: Global, kind: IntType, length: usize) -> Result<QType, AllocError>
    ensures { IfOk result (λ q. qty_of q ≡ literal_type kind length) }
{
    if length >= 0xffff_ffff {
        return Err(AllocError);
    }
    let element = Box::new(alloc, int_type(kind))?;
    Ok(QType {
        ty: CType::Array(element, Some(length as u32 + 1)),
        is_const: false,
        is_volatile: false,
    })
}

/// A string literal, which is an object of its own (C90 6.1.4).
pub fn literal(alloc: Global, scope: &mut Scope, bytes: &Bytes) -> Result<TExpr, Refusal>
    ensures { Gives (λ e. (typed_of e, scope_of scope.new)) result (literal_typed (scope_of scope.old) bytes.now) }
{
    let ty = literal_type(alloc, scope.plain_char(), bytes.len())?;
    let number = scope.add_literal(bytes.copy(alloc)?)?;
    Ok(TExpr {
        ty,
        kind: TKind::Literal(number),
    })
}
