// Expressions as statements and initialisers need them: converted, and folded.
ghost use Rattle.std.specs.Prelude.{◌≡◌};
ghost use Rattle.c65_base.specs.Answers.{Gives};
ghost use Rattle.c65_ctype.specs.Views.{ty_of};
ghost use Rattle.c65_elab_convert.specs.Changes.{assigned_of};
ghost use Rattle.c65_csem.specs.Views.{typed_of, maybe_of};
ghost use Rattle.c65_fold.specs.Folded.{folded};
ghost use Rattle.c65_elab_scope.specs.Scopes.{scope_of};
ghost use Rattle.c65_tree.specs.View.{expr_of, maybe};
ghost use Rattle.c65_init_cells.specs.Parts.{part_of};
ghost use Rattle.c65_init_cells.specs.Sinks.{sink_of};
ghost use Rattle.c65_init.specs.Initials.{leaf_of, whole_set};
ghost use Rattle.c65_init.specs.Values.{value_for, unused_of, maybe_unused, test_of, maybe_test, is_void, given_by, given_of};

use c65_base::{Code, Pos, Refusal};
use c65_csem::TExpr;
use c65_ctype::CType;
use c65_elab::{elab_expr, value_at};
use c65_elab_convert::{assigned, condition, packed, value};
use c65_elab_scope::Scope;
use c65_fold::fold;
use c65_init_cells::{Part, Sink, set, store_number, store_pointer};
use c65_tree::Expr;
use std::alloc::Global;

pub fn folded(e: TExpr) -> TExpr
    ensures { typed_of result ≡ folded (typed_of e) }
{
    let mut e = e;
    fold(&mut e);
    e
}

/// A value as by assignment to a type.
fn converted(
    alloc: Global,
    scope: &Scope,
    ty: &CType,
    typed: TExpr,
    pos: Pos,
) -> Result<TExpr, Refusal>
    ensures { Gives (λ x. typed_of x) result (assigned_of (scope_of scope.now).unit.types pos (ty_of ty.now) (typed_of typed)) }
{
    assigned(alloc, scope.types(), pos, ty, typed)
}

/// The value of an expression as by assignment to a type.
pub fn value_for(
    alloc: Global,
    scope: &mut Scope,
    ty: &CType,
    e: &Expr,
    pos: Pos,
) -> Result<TExpr, Refusal>
    ensures { Gives (λ x. (typed_of x, scope_of scope.new)) result (value_for (ty_of ty.now) (expr_of e.now) pos (scope_of scope.old)) }
{
    let typed = elab_expr(alloc, scope, e)?;
    let value = converted(alloc, scope, ty, typed, pos)?;
    Ok(value)
}

/// Stores a value into an automatic object that it begins as a whole.
pub fn set_whole(
    alloc: Global,
    scope: &mut Scope,
    sink: &mut Sink,
    ty: &CType,
    e: &Expr,
    pos: Pos,
) -> Result<(), Refusal>
    ensures { Gives (λ x. (sink_of sink.new, scope_of scope.new)) result (whole_set (ty_of ty.now) (expr_of e.now) pos (sink_of sink.old, scope_of scope.old)) }
{
    let value = value_for(alloc, scope, ty, e, pos)?;
    set(sink, 0, value)
}

/// The constant value of a part that is a scalar.
pub fn leaf(
    alloc: Global,
    scope: &mut Scope,
    sink: &mut Sink,
    part: &Part,
    e: &Expr,
    pos: Pos,
) -> Result<(), Refusal>
    ensures { Gives (λ x. (sink_of sink.new, scope_of scope.new)) result (leaf_of (part_of part.now) (expr_of e.now) pos (sink_of sink.old, scope_of scope.old)) }
{
    let value = value_for(alloc, scope, &part.ty.ty, e, pos)?;
    match &part.ty.ty {
        CType::Int(kind) => match value_at(&value, pos) {
            Ok(known) => store_number(sink, part.offset, *kind, part.bits, value, known),
            Err(error) => {
                drop(value);
                Err(error)
            }
        },
        CType::Void
        | CType::Pointer(_)
        | CType::Array(_, _)
        | CType::Struct(_)
        | CType::Function(_) => store_pointer(scope.parts(), sink, part.offset, value, pos),
    }
}

/// An expression whose value is not used.
pub fn unused(alloc: Global, scope: &mut Scope, e: &Expr) -> Result<TExpr, Refusal>
    ensures { Gives (λ x. (typed_of x, scope_of scope.new)) result (unused_of (expr_of e.now) (scope_of scope.old)) }
{
    let typed = elab_expr(alloc, scope, e)?;
    Ok(folded(value(alloc, typed)?))
}

pub fn maybe_unused(
    alloc: Global,
    scope: &mut Scope,
    e: &Option<Expr>,
) -> Result<Option<TExpr>, Refusal>
    ensures { Gives (λ x. (maybe_of x, scope_of scope.new)) result (maybe_unused (maybe expr_of e.now) (scope_of scope.old)) }
{
    match e {
        Some(e) => Ok(Some(unused(alloc, scope, e)?)),
        None => Ok(None),
    }
}

/// A condition of a statement.
pub fn test(alloc: Global, scope: &mut Scope, e: &Expr, pos: Pos) -> Result<TExpr, Refusal>
    ensures { Gives (λ x. (typed_of x, scope_of scope.new)) result (test_of (expr_of e.now) pos (scope_of scope.old)) }
{
    let typed = elab_expr(alloc, scope, e)?;
    Ok(folded(condition(alloc, pos, typed)?))
}

pub fn maybe_test(
    alloc: Global,
    scope: &mut Scope,
    e: &Option<Expr>,
    pos: Pos,
) -> Result<Option<TExpr>, Refusal>
    ensures { Gives (λ x. (maybe_of x, scope_of scope.new)) result (maybe_test (maybe expr_of e.now) pos (scope_of scope.old)) }
{
    match e {
        Some(e) => Ok(Some(test(alloc, scope, e, pos)?)),
        None => Ok(None),
    }
}

fn is_void(ty: &CType) -> bool
    ensures { result ≡ is_void (ty_of ty.now) }
{
    match ty {
        CType::Void => true,
        CType::Int(_)
        | CType::Pointer(_)
        | CType::Array(_, _)
        | CType::Struct(_)
        | CType::Function(_) => false,
    }
}

/// The value that a function of this result gives. Refuses `ReturnValue` where it gives none.
fn given_value(
    alloc: Global,
    scope: &mut Scope,
    gives: &CType,
    e: &Expr,
    pos: Pos,
) -> Result<TExpr, Refusal>
    ensures { Gives (λ x. (typed_of x, scope_of scope.new)) result (given_by (ty_of gives.now) (expr_of e.now) pos (scope_of scope.old)) }
{
    let typed = elab_expr(alloc, scope, e)?;
    if is_void(gives) {
        drop(typed);
        return Err(Refusal::fault(Code::ReturnValue, pos));
    }
    let value = converted(alloc, scope, gives, typed, pos)?;
    let passed = packed(alloc, value)?;
    Ok(folded(passed))
}

/// The value that a function gives, if it gives one.
pub fn given(
    alloc: Global,
    scope: &mut Scope,
    gives: &CType,
    e: &Option<Expr>,
    pos: Pos,
) -> Result<Option<TExpr>, Refusal>
    ensures { Gives (λ x. (maybe_of x, scope_of scope.new)) result (given_of (ty_of gives.now) (maybe expr_of e.now) pos (scope_of scope.old)) }
{
    match e {
        Some(e) => Ok(Some(given_value(alloc, scope, gives, e, pos)?)),
        None => Ok(None),
    }
}
