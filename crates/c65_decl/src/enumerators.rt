// The enumerators that trees declare (C90 6.5.2.2), behind names that were met before. What stands
// among the parameters inside a tree is declared for these alone.
ghost use Rattle.std.specs.Prelude.{◌≡◌, IfOk};
ghost use Rattle.c65_tree.specs.View.{expr_of, type_of, specifiers_of, specifier_of, declarator_of};
ghost use Rattle.c65_decl.specs.Enumerators;
ghost use Rattle.c65_decl.specs.Enumerators.{each, one_expr, one_specifier, one_member_decl, one_member, one_enumerator, in_option, in_option_declarator};

use c65_base::Name;
use c65_tree::{
    Declarator, DeclaratorKind, Enumerator, Expr, ExprKind, MemberDecl, MemberDeclarator,
    Specifier, SpecifierKind, Specifiers, TypeName,
};
use std::alloc::AllocError;

#[cycle(enumerators)]
fn in_expr(names: Vec<Name>, expr: &Expr) -> Result<Vec<Name>, AllocError>
    ensures { IfOk result (λ r. r.items ≡ Enumerators.in_expr names.items (expr_of expr.now)) }
{
    match &expr.kind {
        ExprKind::Name(_) | ExprKind::Number(_, _) | ExprKind::Text(_) => Ok(names),
        ExprKind::Paren(e)
        | ExprKind::Member(e, _, _)
        | ExprKind::Step(_, e)
        | ExprKind::Unary(_, e)
        | ExprKind::SizeofExpr(e) => in_expr(names, e),
        ExprKind::Index(a, b)
        | ExprKind::Binary(_, a, b)
        | ExprKind::And(a, b)
        | ExprKind::Or(a, b)
        | ExprKind::Assign(_, a, b)
        | ExprKind::Comma(a, b) => {
            let names = in_expr(names, a)?;
            in_expr(names, b)
        }
        ExprKind::Cond(c, a, b) => {
            let names = in_expr(names, c)?;
            let names = in_expr(names, a)?;
            in_expr(names, b)
        }
        ExprKind::Call(f, arguments) => {
            let names = in_expr(names, f)?;
            in_exprs(names, arguments)
        }
        ExprKind::SizeofType(t) => in_type(names, t),
        ExprKind::Cast(t, e) => {
            let names = in_type(names, t)?;
            in_expr(names, e)
        }
    }
}

#[cycle(enumerators)]
fn in_exprs(names: Vec<Name>, exprs: &[Expr]) -> Result<Vec<Name>, AllocError>
    ensures { IfOk result (λ r. r.items ≡ each one_expr names.items exprs.now) }
{
    let mut all = names;
    for e in exprs {
        all = in_expr(all, e)?;
    }
    Ok(all)
}

#[cycle(enumerators)]
fn in_optional(names: Vec<Name>, expr: &Option<Expr>) -> Result<Vec<Name>, AllocError>
    ensures { IfOk result (λ r. r.items ≡ in_option names.items expr.now) }
{
    match expr {
        Some(e) => in_expr(names, e),
        None => Ok(names),
    }
}

#[cycle(enumerators)]
fn in_type(names: Vec<Name>, name: &TypeName) -> Result<Vec<Name>, AllocError>
    ensures { IfOk result (λ r. r.items ≡ Enumerators.in_type names.items (type_of name.now)) }
{
    let names = in_specifiers(names, &name.specifiers)?;
    in_declarator(names, &name.declarator)
}

#[cycle(enumerators)]
#[tactic(auto, using(crate::proofs::Enumerating::specifiers_are))]
pub fn in_specifiers(names: Vec<Name>, specifiers: &Specifiers) -> Result<Vec<Name>, AllocError>
    ensures { IfOk result (λ r. r.items ≡ Enumerators.in_specifiers names.items (specifiers_of specifiers.now)) }
{
    in_items(names, &specifiers.items)
}

#[cycle(enumerators)]
fn in_items(names: Vec<Name>, items: &[Specifier]) -> Result<Vec<Name>, AllocError>
    ensures { IfOk result (λ r. r.items ≡ each one_specifier names.items items.now) }
{
    let mut all = names;
    for item in items {
        all = in_specifier(all, item)?;
    }
    Ok(all)
}

#[cycle(enumerators)]
fn in_specifier(names: Vec<Name>, specifier: &Specifier) -> Result<Vec<Name>, AllocError>
    ensures { IfOk result (λ r. r.items ≡ Enumerators.in_specifier names.items (specifier_of specifier.now)) }
{
    match &specifier.kind {
        SpecifierKind::Tagged(_, _, members) => match members {
            Some(decls) => in_member_decls(names, decls),
            None => Ok(names),
        },
        SpecifierKind::Enum(_, enumerators) => match enumerators {
            Some(list) => in_enumerators(names, list),
            None => Ok(names),
        },
        _ => Ok(names),
    }
}

#[cycle(enumerators)]
fn in_member_decls(names: Vec<Name>, decls: &[MemberDecl]) -> Result<Vec<Name>, AllocError>
    ensures { IfOk result (λ r. r.items ≡ each one_member_decl names.items decls.now) }
{
    let mut all = names;
    for decl in decls {
        all = in_member_decl(all, decl)?;
    }
    Ok(all)
}

#[cycle(enumerators)]
#[tactic(auto, using(crate::proofs::Enumerating::member_decl_is))]
fn in_member_decl(names: Vec<Name>, decl: &MemberDecl) -> Result<Vec<Name>, AllocError>
    ensures { IfOk result (λ r. r.items ≡ one_member_decl names.items decl.now) }
{
    let names = in_specifiers(names, &decl.specifiers)?;
    in_members(names, &decl.declarators)
}

#[cycle(enumerators)]
fn in_members(names: Vec<Name>, members: &[MemberDeclarator]) -> Result<Vec<Name>, AllocError>
    ensures { IfOk result (λ r. r.items ≡ each one_member names.items members.now) }
{
    let mut all = names;
    for member in members {
        all = in_member(all, member)?;
    }
    Ok(all)
}

#[cycle(enumerators)]
#[tactic(auto, using(crate::proofs::Enumerating::member_is))]
fn in_member(names: Vec<Name>, member: &MemberDeclarator) -> Result<Vec<Name>, AllocError>
    ensures { IfOk result (λ r. r.items ≡ one_member names.items member.now) }
{
    let names = in_optional_declarator(names, &member.declarator)?;
    in_optional(names, &member.width)
}

#[cycle(enumerators)]
fn in_optional_declarator(
    names: Vec<Name>,
    declarator: &Option<Declarator>,
) -> Result<Vec<Name>, AllocError>
    ensures { IfOk result (λ r. r.items ≡ in_option_declarator names.items declarator.now) }
{
    match declarator {
        Some(d) => in_declarator(names, d),
        None => Ok(names),
    }
}

#[cycle(enumerators)]
fn in_enumerators(names: Vec<Name>, enumerators: &[Enumerator]) -> Result<Vec<Name>, AllocError>
    ensures { IfOk result (λ r. r.items ≡ each one_enumerator names.items enumerators.now) }
{
    let mut all = names;
    for enumerator in enumerators {
        all = in_enumerator(all, enumerator)?;
    }
    Ok(all)
}

#[cycle(enumerators)]
#[tactic(auto, using(crate::proofs::Enumerating::enumerator_is))]
fn in_enumerator(names: Vec<Name>, enumerator: &Enumerator) -> Result<Vec<Name>, AllocError>
    ensures { IfOk result (λ r. r.items ≡ one_enumerator names.items enumerator.now) }
{
    let mut names = in_optional(names, &enumerator.value)?;
    names.push(enumerator.name)?;
    Ok(names)
}

#[cycle(enumerators)]
pub fn in_declarator(names: Vec<Name>, declarator: &Declarator) -> Result<Vec<Name>, AllocError>
    ensures { IfOk result (λ r. r.items ≡ Enumerators.in_declarator names.items (declarator_of declarator.now)) }
{
    match &declarator.kind {
        DeclaratorKind::Abstract | DeclaratorKind::Name(_) => Ok(names),
        DeclaratorKind::Paren(d)
        | DeclaratorKind::Calling(_, d)
        | DeclaratorKind::Pointer(_, _, d)
        | DeclaratorKind::Function(d, _)
        | DeclaratorKind::Array(d, None) => in_declarator(names, d),
        DeclaratorKind::Array(d, Some(bound)) => {
            let names = in_declarator(names, d)?;
            in_expr(names, bound)
        }
    }
}
