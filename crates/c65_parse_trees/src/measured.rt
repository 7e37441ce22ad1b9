// Trees that are being read, with their depth beside them. A depth stands still at its type's end.
ghost use Rattle.std.specs.Prelude.{◌≡◌, min};
ghost use Rattle.c65_tree.specs.Trees.{no_exprs, no_specifiers, no_more_members, no_member_decls, no_more_enumerators, no_more_params};
ghost use Rattle.c65_tree.specs.Depth.{expr_depth, exprs_depth, type_depth, specifiers_depth, specifier_list_depth, member_list_depth, member_decls_depth, enumerator_list_depth, declarator_depth, params_depth, param_list_depth};
ghost use Rattle.c65_tree.specs.View.{expr_of, exprs_from, type_of, specifiers_of, specifiers_from, members_from, member_decls_from, enumerators_from, declarator_of, params_of, params_from};
ghost use Rattle.c65_parse_trees.specs.Names.{declared_name};

use c65_base::{Name, Pos};
use c65_tree::{
    Declarator, Enumerator, Expr, MemberDecl, MemberDeclarator, Param, Params, Specifier,
    Specifiers, TypeName,
};

/// An expression and its depth, which stands still at its type's end.
#[derive(Drop)]
pub struct MeasuredExpr {
    pub expr: Expr,
    pub depth: u32,
    ghost counted: { depth ≡ min (expr_depth (expr_of expr)) 4294967295 },
}

/// Expressions in order, and the depth of the deepest.
#[derive(Drop)]
pub struct MeasuredExprs {
    pub exprs: Vec<Expr>,
    pub depth: u32,
    ghost counted: { depth ≡ min (exprs_depth (exprs_from no_exprs exprs.items)) 4294967295 },
}

/// A declarator, its depth, which stands still at its type's end, and the name that it declares.
#[derive(Drop)]
pub struct MeasuredDeclarator {
    pub declarator: Declarator,
    pub depth: u32,
    pub name: Option<Name>,
    ghost counted: { depth ≡ min (declarator_depth (declarator_of declarator)) 4294967295 },
    ghost names: { name ≡ declared_name (declarator_of declarator) },
}

/// Specifiers and their depth, whether a type specifier is among them, and whether `typedef` is.
#[derive(Drop)]
pub struct MeasuredSpecifiers {
    pub specifiers: Specifiers,
    pub depth: u32,
    pub has_type: bool,
    pub is_typedef: bool,
    ghost counted: { depth ≡ min (specifiers_depth (specifiers_of specifiers)) 4294967295 },
}

/// A type name and its depth.
#[derive(Drop)]
pub struct MeasuredType {
    pub name: TypeName,
    pub depth: u32,
    ghost counted: { depth ≡ min (type_depth (type_of name)) 4294967295 },
}

/// What stands between a function declarator's parentheses, and its depth.
#[derive(Drop)]
pub struct MeasuredParams {
    pub params: Params,
    pub depth: u32,
    ghost counted: { depth ≡ min (params_depth (params_of params)) 4294967295 },
}

/// Parameters in order, and the depth of the deepest.
#[derive(Drop)]
pub struct ParamList {
    pub params: Vec<Param>,
    pub depth: u32,
    ghost counted: { depth ≡ min (param_list_depth (params_from no_more_params params.items)) 4294967295 },
}

/// Members in order, and the depth of the deepest.
#[derive(Drop)]
pub struct MemberList {
    pub members: Vec<MemberDeclarator>,
    pub depth: u32,
    ghost counted: { depth ≡ min (member_list_depth (members_from no_more_members members.items)) 4294967295 },
}

/// Declarations of members in order, and the depth of the deepest.
#[derive(Drop)]
pub struct MemberDecls {
    pub decls: Vec<MemberDecl>,
    pub depth: u32,
    ghost counted: { depth ≡ min (member_decls_depth (member_decls_from no_member_decls decls.items)) 4294967295 },
}

/// Enumerators in order, and the depth of the deepest.
#[derive(Drop)]
pub struct EnumeratorList {
    pub enumerators: Vec<Enumerator>,
    pub depth: u32,
    ghost counted: { depth ≡ min (enumerator_list_depth (enumerators_from no_more_enumerators enumerators.items)) 4294967295 },
}

/// Specifiers so far.
#[derive(Drop)]
pub struct Listing {
    /// The place of the first.
    pub first: Option<Pos>,
    pub items: Vec<Specifier>,
    pub depth: u32,
    /// Whether a type specifier is among them.
    pub has_type: bool,
    /// Whether `typedef` is among them.
    pub is_typedef: bool,
    /// Whether a storage class may follow.
    pub takes_storage: bool,
    ghost counted: { depth ≡ min (specifier_list_depth (specifiers_from no_specifiers items.items)) 4294967295 },
}
