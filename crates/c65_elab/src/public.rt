// What the crate gives.
ghost use Rattle.c65_base.specs.Answers.{Gives};
ghost use Rattle.c65_ctype.specs.Views.{qty_of};
ghost use Rattle.c65_csem.specs.Views.{typed_of};
ghost use Rattle.c65_elab_declare.specs.Headings.{heading_of};
ghost use Rattle.c65_elab_scope.specs.Scopes.{scope_of};
ghost use Rattle.c65_tree.specs.View.{expr_of, specifiers_of, declarator_of};
ghost use Rattle.c65_elab.specs.Headings.{declarator_in, headed};
ghost use Rattle.c65_elab.specs.Typing.{typed, specified};

use crate::blocks::{leave_parameters, object_count};
use crate::elab::{expression, parts, specifiers};
use c65_base::{Name, Refusal};
use c65_csem::TExpr;
use c65_ctype::QType;
use c65_elab_declare::{Heading, heading_of, shaped, shaped_for};
use c65_elab_scope::Scope;
use c65_tree::{Declarator, Expr, Specifiers, Storage};
use std::alloc::Global;

/// The storage class and the type that specifiers name; it enters their tags and enumeration
/// constants into the scope. The flag says that no declarator follows.
pub fn elab_specifiers(
    alloc: Global,
    scope: &mut Scope,
    list: &Specifiers,
    alone: bool,
) -> Result<(Option<Storage>, QType), Refusal>
    ensures { Gives (λ x. ((x.0, qty_of x.1), scope_of scope.new)) result (specified (specifiers_of list.now) alone (scope_of scope.old)) }
{
    specifiers(alloc, scope, list, alone)
}

/// The name of a declarator, if there is one, and the type that it makes of `base`.
pub fn elab_declarator(
    alloc: Global,
    scope: &mut Scope,
    base: &QType,
    item: &Declarator,
) -> Result<(Option<Name>, QType), Refusal>
    ensures { Gives (λ x. ((x.0, qty_of x.1), scope_of scope.new)) result (declarator_in (qty_of base.now) (declarator_of item.now) (scope_of scope.old)) }
{
    let (name, list) = parts(alloc, scope, item, false)?;
    let ty = shaped(alloc, scope.types(), base, item, &list)?;
    Ok((name, ty))
}

/// The name, the type and the parameters of a function that is defined by this declarator (C90
/// 6.7.1). The names and the enumeration constants of the parameters are not declared yet; their
/// tags are of the next block that is opened (C90 6.1.2.1). Refuses as `elab_declarator` does, but for a list of names, and
/// `TypeForm` where the declarator declares no function.
pub fn elab_heading(
    alloc: Global,
    scope: &mut Scope,
    base: &QType,
    item: &Declarator,
) -> Result<Heading, Refusal>
    ensures { Gives (λ h. (heading_of h, scope_of scope.new)) result (headed (qty_of base.now) (declarator_of item.now) (scope_of scope.old)) }
{
    let block = scope.block;
    let objects = object_count(scope);
    let (name, list) = parts(alloc, scope, item, true)?;
    let enumerators = leave_parameters(alloc, scope, block, objects)?;
    let ty = shaped_for(alloc, scope.types(), base, item, &list, true)?;
    heading_of(name, ty, list, enumerators, item.pos)
}

/// The typed tree of an expression.
pub fn elab_expr(alloc: Global, scope: &mut Scope, expr: &Expr) -> Result<TExpr, Refusal>
    ensures { Gives (λ e. (typed_of e, scope_of scope.new)) result (typed (expr_of expr.now) (scope_of scope.old)) }
{
    expression(alloc, scope, expr)
}
