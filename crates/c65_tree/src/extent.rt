// How deep and how large trees are, in one walk.
ghost use Rattle.std.specs.Prelude.{◌≡◌, ◌+◌, ◌≤◌, min, max, nat_le};
ghost use Rattle.c65_base.specs.Limits.{limit_of};
ghost use Rattle.c65_base.specs.declared.refusal.Size.TheVariants.{Depth};
ghost use Rattle.c65_tree.specs.Lists.{deepest, total, of_option};
ghost use Rattle.c65_tree.specs.Depth.{expr_depth, type_depth, specifiers_depth, specifier_depth, declarator_depth, params_depth};
ghost use Rattle.c65_tree.specs.Nodes.{expr_nodes, type_nodes, specifiers_nodes, specifier_nodes, declarator_nodes, params_nodes};
ghost use Rattle.c65_tree.specs.View.{expr_of, type_of, specifiers_of, specifier_of, declarator_of, params_of};
ghost use Rattle.c65_tree.specs.Parts.{member_decl_depth, member_decl_nodes, one_member_depth, one_member_nodes, one_enumerator_depth, one_enumerator_nodes, param_depth, param_nodes};

use crate::expr::{
    Declarator, DeclaratorKind, Enumerator, Expr, ExprKind, MemberDecl, MemberDeclarator, Param,
    Params, Specifier, SpecifierKind, Specifiers, TypeName,
};

/// The depth of the deepest of some trees, and how many expressions and statements they have
/// together; each stands still at its type's end.
#[derive(Clone, Copy, Drop)]
pub struct Extent {
    pub depth: u32,
    pub nodes: u64,
}

impl Extent {
    pub const NONE: Extent = Extent { depth: 0, nodes: 0 };

    /// Of these trees and others.
    pub fn beside(self, other: Extent) -> Extent
        ensures depth { result.depth ≡ max self.depth other.depth }
        ensures nodes { result.nodes ≡ min (self.nodes + other.nodes) 18446744073709551615 }
    {
        Extent {
            depth: self.depth.max(other.depth),
            nodes: self.nodes.saturating_add(other.nodes),
        }
    }

    /// Of a node, with nodes of its own or none, whose parts these trees are.
    pub fn under(self, nodes: u64) -> Extent
        ensures depth { result.depth ≡ min (self.depth + 1) 4294967295 }
        ensures nodes { result.nodes ≡ min (self.nodes + nodes) 18446744073709551615 }
    {
        Extent {
            depth: self.depth.saturating_add(1),
            nodes: self.nodes.saturating_add(nodes),
        }
    }
}

/// The depth of an expression: a leaf has depth 1, and every other node is one deeper than its
/// deepest part.
pub fn depth(expr: &Expr) -> u32
    requires { expr_depth (expr_of expr.now) ≤ limit_of Depth }
    ensures { result ≡ expr_depth (expr_of expr.now) }
{
    expr_extent(expr).depth
}

/// Whether an expression is no deeper than this.
pub fn is_within(expr: &Expr, limit: u16) -> bool
    ensures { result ≡ nat_le (expr_depth (expr_of expr.now)) limit }
{
    expr_extent(expr).depth <= limit as u32
}

#[cycle(extent)]
pub fn expr_extent(expr: &Expr) -> Extent
    ensures depth { result.depth ≡ min (expr_depth (expr_of expr.now)) 4294967295 }
    ensures nodes { result.nodes ≡ min (expr_nodes (expr_of expr.now)) 18446744073709551615 }
{
    match &expr.kind {
        ExprKind::Name(_) | ExprKind::Number(_, _) | ExprKind::Text(_) => Extent::NONE.under(1),
        ExprKind::Paren(e)
        | ExprKind::Member(e, _, _)
        | ExprKind::Step(_, e)
        | ExprKind::Unary(_, e)
        | ExprKind::SizeofExpr(e) => expr_extent(e).under(1),
        ExprKind::Index(a, b)
        | ExprKind::Binary(_, a, b)
        | ExprKind::And(a, b)
        | ExprKind::Or(a, b)
        | ExprKind::Assign(_, a, b)
        | ExprKind::Comma(a, b) => expr_extent(a).beside(expr_extent(b)).under(1),
        ExprKind::Cond(c, a, b) => {
            let branches = expr_extent(a).beside(expr_extent(b));
            expr_extent(c).beside(branches).under(1)
        }
        ExprKind::Call(f, arguments) => expr_extent(f).beside(exprs_extent(arguments)).under(1),
        ExprKind::SizeofType(t) => type_extent(t).under(1),
        ExprKind::Cast(t, e) => type_extent(t).beside(expr_extent(e)).under(1),
    }
}

#[cycle(extent)]
fn exprs_extent(exprs: &[Expr]) -> Extent
    ensures depth { result.depth ≡ min (deepest (λ e. expr_depth (expr_of e)) exprs.now) 4294967295 }
    ensures nodes { result.nodes ≡ min (total (λ e. expr_nodes (expr_of e)) exprs.now) 18446744073709551615 }
{
    let mut all = Extent::NONE;
    for e in exprs {
        all = all.beside(expr_extent(e));
    }
    all
}

#[cycle(extent)]
fn maybe_expr_extent(expr: &Option<Expr>) -> Extent
    ensures depth { result.depth ≡ min (of_option (λ e. expr_depth (expr_of e)) expr.now) 4294967295 }
    ensures nodes { result.nodes ≡ min (of_option (λ e. expr_nodes (expr_of e)) expr.now) 18446744073709551615 }
{
    match expr {
        Some(e) => expr_extent(e),
        None => Extent::NONE,
    }
}

#[cycle(extent)]
pub fn type_extent(name: &TypeName) -> Extent
    ensures depth { result.depth ≡ min (type_depth (type_of name.now)) 4294967295 }
    ensures nodes { result.nodes ≡ min (type_nodes (type_of name.now)) 18446744073709551615 }
{
    specifiers_extent(&name.specifiers).beside(declarator_extent(&name.declarator))
}

#[cycle(extent)]
pub fn specifiers_extent(specifiers: &Specifiers) -> Extent
    ensures depth { result.depth ≡ min (specifiers_depth (specifiers_of specifiers.now)) 4294967295 }
    ensures nodes { result.nodes ≡ min (specifiers_nodes (specifiers_of specifiers.now)) 18446744073709551615 }
{
    items_extent(&specifiers.items)
}

#[cycle(extent)]
fn items_extent(items: &[Specifier]) -> Extent
    ensures depth { result.depth ≡ min (deepest (λ q. specifier_depth (specifier_of q)) items.now) 4294967295 }
    ensures nodes { result.nodes ≡ min (total (λ q. specifier_nodes (specifier_of q)) items.now) 18446744073709551615 }
{
    let mut all = Extent::NONE;
    for item in items {
        all = all.beside(specifier_extent(item));
    }
    all
}

#[cycle(extent)]
fn specifier_extent(specifier: &Specifier) -> Extent
    ensures depth { result.depth ≡ min (specifier_depth (specifier_of specifier.now)) 4294967295 }
    ensures nodes { result.nodes ≡ min (specifier_nodes (specifier_of specifier.now)) 18446744073709551615 }
{
    match &specifier.kind {
        SpecifierKind::Tagged(_, _, members) => match members {
            Some(decls) => member_decls_extent(decls).under(0),
            None => Extent::NONE.under(0),
        },
        SpecifierKind::Enum(_, enumerators) => match enumerators {
            Some(list) => enumerators_extent(list).under(0),
            None => Extent::NONE.under(0),
        },
        _ => Extent::NONE.under(0),
    }
}

#[cycle(extent)]
fn member_decls_extent(decls: &[MemberDecl]) -> Extent
    ensures depth { result.depth ≡ min (deepest member_decl_depth decls.now) 4294967295 }
    ensures nodes { result.nodes ≡ min (total member_decl_nodes decls.now) 18446744073709551615 }
{
    let mut all = Extent::NONE;
    for decl in decls {
        all = all.beside(specifiers_extent(&decl.specifiers).beside(members_extent(
            &decl.declarators,
        )));
    }
    all
}

#[cycle(extent)]
fn members_extent(members: &[MemberDeclarator]) -> Extent
    ensures depth { result.depth ≡ min (deepest one_member_depth members.now) 4294967295 }
    ensures nodes { result.nodes ≡ min (total one_member_nodes members.now) 18446744073709551615 }
{
    let mut all = Extent::NONE;
    for member in members {
        all = all.beside(member_extent(member));
    }
    all
}

#[cycle(extent)]
fn member_extent(member: &MemberDeclarator) -> Extent
    ensures depth { result.depth ≡ min (one_member_depth member.now) 4294967295 }
    ensures nodes { result.nodes ≡ min (one_member_nodes member.now) 18446744073709551615 }
{
    let width = maybe_expr_extent(&member.width);
    match &member.declarator {
        Some(declarator) => declarator_extent(declarator).beside(width),
        None => width,
    }
}

#[cycle(extent)]
fn enumerators_extent(enumerators: &[Enumerator]) -> Extent
    ensures depth { result.depth ≡ min (deepest one_enumerator_depth enumerators.now) 4294967295 }
    ensures nodes { result.nodes ≡ min (total one_enumerator_nodes enumerators.now) 18446744073709551615 }
{
    let mut all = Extent::NONE;
    for enumerator in enumerators {
        all = all.beside(maybe_expr_extent(&enumerator.value));
    }
    all
}

#[cycle(extent)]
pub fn declarator_extent(declarator: &Declarator) -> Extent
    ensures depth { result.depth ≡ min (declarator_depth (declarator_of declarator.now)) 4294967295 }
    ensures nodes { result.nodes ≡ min (declarator_nodes (declarator_of declarator.now)) 18446744073709551615 }
{
    match &declarator.kind {
        DeclaratorKind::Abstract | DeclaratorKind::Name(_) => Extent::NONE.under(0),
        DeclaratorKind::Paren(d)
        | DeclaratorKind::Calling(_, d)
        | DeclaratorKind::Pointer(_, _, d)
        | DeclaratorKind::Array(d, None) => declarator_extent(d).under(0),
        DeclaratorKind::Array(d, Some(bound)) => {
            declarator_extent(d).beside(expr_extent(bound)).under(0)
        }
        DeclaratorKind::Function(d, params) => {
            declarator_extent(d).beside(params_extent(params)).under(0)
        }
    }
}

#[cycle(extent)]
fn params_extent(params: &Params) -> Extent
    ensures depth { result.depth ≡ min (params_depth (params_of params.now)) 4294967295 }
    ensures nodes { result.nodes ≡ min (params_nodes (params_of params.now)) 18446744073709551615 }
{
    match params {
        Params::Types(types, _) => param_types_extent(types),
        Params::Empty | Params::Names(_) => Extent::NONE,
    }
}

#[cycle(extent)]
fn param_types_extent(params: &[Param]) -> Extent
    ensures depth { result.depth ≡ min (deepest param_depth params.now) 4294967295 }
    ensures nodes { result.nodes ≡ min (total param_nodes params.now) 18446744073709551615 }
{
    let mut all = Extent::NONE;
    for param in params {
        all = all.beside(specifiers_extent(&param.specifiers).beside(declarator_extent(
            &param.declarator,
        )));
    }
    all
}
