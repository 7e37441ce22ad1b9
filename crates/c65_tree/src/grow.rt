// One more tree behind others.
ghost use Rattle.std.specs.Prelude.{◌≡◌, IfOk};
ghost use Rattle.c65_tree.specs.Trees.{no_exprs, and_expr, no_specifiers, and_specifier, no_more_members, no_more_enumerators, no_member_decls, no_more_params, no_inits, and_init, no_stmts, and_stmt};
ghost use Rattle.c65_tree.specs.View.{expr_of, specifier_of, init_of, stmt_of, exprs_from, specifiers_from, members_from, member_decls_from, enumerators_from, params_from, inits_from, stmts_from, with_member_decl, with_member, with_enumerator, with_param};

use crate::boxes::with_last;
use crate::expr::{Enumerator, Expr, MemberDecl, MemberDeclarator, Param, Specifier};
use crate::stmt::{Initialiser, Stmt};
use std::alloc::AllocError;

pub fn with_expr(list: Vec<Expr>, e: Expr) -> Result<Vec<Expr>, AllocError>
    ensures { IfOk result (λ r. exprs_from no_exprs r.items ≡ and_expr (exprs_from no_exprs list.items) (expr_of e)) }
{
    with_last(list, e)
}

pub fn with_specifier(list: Vec<Specifier>, q: Specifier) -> Result<Vec<Specifier>, AllocError>
    ensures { IfOk result (λ r. specifiers_from no_specifiers r.items ≡ and_specifier (specifiers_from no_specifiers list.items) (specifier_of q)) }
{
    with_last(list, q)
}

pub fn with_param(list: Vec<Param>, param: Param) -> Result<Vec<Param>, AllocError>
    ensures { IfOk result (λ r. params_from no_more_params r.items ≡ with_param (params_from no_more_params list.items) param) }
{
    with_last(list, param)
}

pub fn with_enumerator(
    list: Vec<Enumerator>,
    enumerator: Enumerator,
) -> Result<Vec<Enumerator>, AllocError>
    ensures { IfOk result (λ r. enumerators_from no_more_enumerators r.items ≡ with_enumerator (enumerators_from no_more_enumerators list.items) enumerator) }
{
    with_last(list, enumerator)
}

pub fn with_member(
    list: Vec<MemberDeclarator>,
    member: MemberDeclarator,
) -> Result<Vec<MemberDeclarator>, AllocError>
    ensures { IfOk result (λ r. members_from no_more_members r.items ≡ with_member (members_from no_more_members list.items) member) }
{
    with_last(list, member)
}

pub fn with_member_decl(
    list: Vec<MemberDecl>,
    decl: MemberDecl,
) -> Result<Vec<MemberDecl>, AllocError>
    ensures { IfOk result (λ r. member_decls_from no_member_decls r.items ≡ with_member_decl (member_decls_from no_member_decls list.items) decl) }
{
    with_last(list, decl)
}

pub fn with_init(list: Vec<Initialiser>, init: Initialiser) -> Result<Vec<Initialiser>, AllocError>
    ensures { IfOk result (λ r. inits_from no_inits r.items ≡ and_init (inits_from no_inits list.items) (init_of init)) }
{
    with_last(list, init)
}

pub fn with_stmt(list: Vec<Stmt>, stmt: Stmt) -> Result<Vec<Stmt>, AllocError>
    ensures { IfOk result (λ r. stmts_from no_stmts r.items ≡ and_stmt (stmts_from no_stmts list.items) (stmt_of stmt)) }
{
    with_last(list, stmt)
}
