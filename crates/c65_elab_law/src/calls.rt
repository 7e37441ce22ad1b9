// The calls that type trees, with what the laws say of their answers. Their own contracts are exact by an equation for
// each construct; these add that a tree is well typed behind it, and that the scope stays one.
ghost use Rattle.std.specs.Prelude.{IfOk};
ghost use Rattle.c65_csem.specs.Views.{typed_of};
ghost use Rattle.c65_elab_scope.specs.Scopes.{scope_of};
ghost use Rattle.c65_tree.specs.View.{expr_of, specifiers_of, declarator_of};
ghost use Rattle.c65_elab_law.specs.Numbers.{IsRanged, AreRangedSpecifiers, IsRangedDeclarator};
ghost use Rattle.c65_elab_law.specs.Scoped.{IsScope, Keeps, IsAnswer};

use c65_base::{Name, Refusal};
use c65_csem::TExpr;
use c65_ctype::QType;
use c65_elab::{Heading, Scope, elab_declarator, elab_expr, elab_heading, elab_specifiers};
use c65_tree::{Declarator, Expr, Specifiers, Storage};
use std::alloc::Global;

/// The typed tree of an expression (C90 6.3).
pub fn typed_expression(alloc: Global, scope: &mut Scope, expr: &Expr) -> Result<TExpr, Refusal>
    requires scoped { IsScope (scope_of scope.old) }
    requires ranged { IsRanged (expr_of expr.now) }
    ensures { IfOk result (λ e. IsAnswer (scope_of scope.old) (typed_of e, scope_of scope.new)) }
{
    elab_expr(alloc, scope, expr)
}

/// The storage class and the type of declaration specifiers (C90 6.5).
pub fn typed_specifiers(
    alloc: Global,
    scope: &mut Scope,
    list: &Specifiers,
    alone: bool,
) -> Result<(Option<Storage>, QType), Refusal>
    requires scoped { IsScope (scope_of scope.old) }
    requires ranged { AreRangedSpecifiers (specifiers_of list.now) }
    ensures { IfOk result (λ x. Keeps (scope_of scope.old) (scope_of scope.new)) }
{
    elab_specifiers(alloc, scope, list, alone)
}

/// The name and the type of a declarator (C90 6.5.4).
pub fn typed_declarator(
    alloc: Global,
    scope: &mut Scope,
    base: &QType,
    item: &Declarator,
) -> Result<(Option<Name>, QType), Refusal>
    requires scoped { IsScope (scope_of scope.old) }
    requires ranged { IsRangedDeclarator (declarator_of item.now) }
    ensures { IfOk result (λ x. Keeps (scope_of scope.old) (scope_of scope.new)) }
{
    elab_declarator(alloc, scope, base, item)
}

/// The declarator of a function definition (C90 6.7.1).
pub fn typed_heading(
    alloc: Global,
    scope: &mut Scope,
    base: &QType,
    item: &Declarator,
) -> Result<Heading, Refusal>
    requires scoped { IsScope (scope_of scope.old) }
    requires ranged { IsRangedDeclarator (declarator_of item.now) }
    ensures { IfOk result (λ h. Keeps (scope_of scope.old) (scope_of scope.new)) }
{
    elab_heading(alloc, scope, base, item)
}
