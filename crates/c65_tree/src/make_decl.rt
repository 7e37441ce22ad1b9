// Specifiers, declarators and what holds them, from their parts.
ghost use Rattle.std.specs.Prelude.{◌≡◌, IfOk, true, false};
ghost use Rattle.c65_tree.specs.Trees;
ghost use Rattle.c65_tree.specs.Trees.{MemberDeclList, MemberList, EnumeratorList, ParamList, no_specifiers, no_more_members, no_more_enumerators, no_member_decls, no_more_params, no_expr, an_expr, no_members, the_members, no_enumerators, the_enumerators, no_params, param_names, param_types};
ghost use Rattle.c65_tree.specs.View.{expr_of, type_of, specifiers_of, specifier_of, declarator_of, params_of, specifiers_from, members_from, member_decls_from, enumerators_from, params_from, with_member_decl, with_member, with_enumerator, with_param};
ghost use Rattle.c65_tree.specs.Optional.{maybe_expr, maybe_declarator};

use crate::boxes::boxed;
use crate::expr::{
    Declarator, DeclaratorKind, Enumerator, Expr, MemberDecl, MemberDeclarator, Param, Params,
    Specifier, SpecifierKind, Specifiers, Storage, TypeName,
};
use c65_base::{Name, Pos, boxed_beside, boxed_pair};
use std::alloc::{AllocError, Global};

impl TypeName {
    pub fn new(specifiers: Specifiers, declarator: Declarator) -> TypeName
        ensures { type_of result ≡ Trees.type_name (specifiers_of specifiers) (declarator_of declarator) }
    {
        TypeName {
            specifiers,
            declarator,
        }
    }
}

impl Specifiers {
    /// Specifiers in their order.
    pub fn new(pos: Pos, items: Vec<Specifier>) -> Specifiers
        ensures { specifiers_of result ≡ Trees.specifiers pos (specifiers_from no_specifiers items.items) }
    {
        Specifiers { pos, items }
    }
}

impl Specifier {
    pub fn storage(pos: Pos, storage: Storage) -> Specifier
        ensures { specifier_of result ≡ Trees.storage pos storage }
    {
        let kind = SpecifierKind::Storage(storage);
        Specifier { pos, kind }
    }

    pub fn typedef_name(pos: Pos, name: Name) -> Specifier
        ensures { specifier_of result ≡ Trees.typedef_name pos name }
    {
        let kind = SpecifierKind::Typedef(name);
        Specifier { pos, kind }
    }

    /// A structure, or where the flag says so a union, without members.
    pub fn tag(pos: Pos, union: bool, tag: Option<Name>) -> Specifier
        ensures { specifier_of result ≡ Trees.tagged pos union tag no_members }
    {
        let kind = SpecifierKind::Tagged(union, tag, None);
        Specifier { pos, kind }
    }

    /// A structure, or where the flag says so a union, with its members in their order.
    pub fn tagged(pos: Pos, union: bool, tag: Option<Name>, members: Vec<MemberDecl>) -> Specifier
        ensures { specifier_of result ≡ Trees.tagged pos union tag (the_members (member_decls_from no_member_decls members.items)) }
    {
        let kind = SpecifierKind::Tagged(union, tag, Some(members));
        Specifier { pos, kind }
    }

    /// An enumeration without enumerators.
    pub fn enum_tag(pos: Pos, tag: Option<Name>) -> Specifier
        ensures { specifier_of result ≡ Trees.enum pos tag no_enumerators }
    {
        let kind = SpecifierKind::Enum(tag, None);
        Specifier { pos, kind }
    }

    /// An enumeration with its enumerators in their order.
    pub fn enumeration(pos: Pos, tag: Option<Name>, enumerators: Vec<Enumerator>) -> Specifier
        ensures { specifier_of result ≡ Trees.enum pos tag (the_enumerators (enumerators_from no_more_enumerators enumerators.items)) }
    {
        let kind = SpecifierKind::Enum(tag, Some(enumerators));
        Specifier { pos, kind }
    }
}

impl MemberDecl {
    /// A declaration of these members in their order.
    pub fn new(specifiers: Specifiers, declarators: Vec<MemberDeclarator>) -> MemberDecl
        ensures { (xs : MemberDeclList) → with_member_decl xs result ≡ Trees.and_member_decl xs (specifiers_of specifiers) (members_from no_more_members declarators.items) }
    {
        MemberDecl {
            specifiers,
            declarators,
        }
    }
}

impl MemberDeclarator {
    pub fn new(pos: Pos, declarator: Option<Declarator>, width: Option<Expr>) -> MemberDeclarator
        ensures { (xs : MemberList) → with_member xs result ≡ Trees.and_member xs pos (maybe_declarator declarator) (maybe_expr width) }
    {
        MemberDeclarator {
            pos,
            declarator,
            width,
        }
    }
}

impl Enumerator {
    pub fn new(pos: Pos, name: Name, value: Option<Expr>) -> Enumerator
        ensures { (xs : EnumeratorList) → with_enumerator xs result ≡ Trees.and_enumerator xs pos name (maybe_expr value) }
    {
        Enumerator { pos, name, value }
    }
}

impl Declarator {
    pub fn nameless(pos: Pos) -> Declarator
        ensures { declarator_of result ≡ Trees.nameless pos }
    {
        let kind = DeclaratorKind::Abstract;
        Declarator { pos, kind }
    }

    pub fn named(pos: Pos, name: Name) -> Declarator
        ensures { declarator_of result ≡ Trees.named pos name }
    {
        let kind = DeclaratorKind::Name(name);
        Declarator { pos, kind }
    }

    /// A declarator in parentheses.
    pub fn grouped(alloc: Global, pos: Pos, d: Declarator) -> Result<Declarator, AllocError>
        ensures { IfOk result (λ r. declarator_of r ≡ Trees.grouped pos (declarator_of d)) }
    {
        let kind = DeclaratorKind::Paren(boxed(alloc, d)?);
        Ok(Declarator { pos, kind })
    }

    /// `__fastcall__`, or where the flag says so `__cdecl__`.
    pub fn calling(
        alloc: Global,
        pos: Pos,
        cdecl: bool,
        d: Declarator,
    ) -> Result<Declarator, AllocError>
        ensures { IfOk result (λ r. declarator_of r ≡ Trees.calling pos cdecl (declarator_of d)) }
    {
        let kind = DeclaratorKind::Calling(cdecl, boxed(alloc, d)?);
        Ok(Declarator { pos, kind })
    }

    /// A pointer; the flags say `const` and `volatile`.
    pub fn pointer(
        alloc: Global,
        pos: Pos,
        constant: bool,
        volatile: bool,
        d: Declarator,
    ) -> Result<Declarator, AllocError>
        ensures { IfOk result (λ r. declarator_of r ≡ Trees.pointer pos constant volatile (declarator_of d)) }
    {
        let kind = DeclaratorKind::Pointer(constant, volatile, boxed(alloc, d)?);
        Ok(Declarator { pos, kind })
    }

    /// An array without a bound.
    pub fn open_array(alloc: Global, pos: Pos, d: Declarator) -> Result<Declarator, AllocError>
        ensures { IfOk result (λ r. declarator_of r ≡ Trees.array pos (declarator_of d) no_expr) }
    {
        let kind = DeclaratorKind::Array(boxed(alloc, d)?, None);
        Ok(Declarator { pos, kind })
    }

    pub fn array(
        alloc: Global,
        pos: Pos,
        d: Declarator,
        bound: Expr,
    ) -> Result<Declarator, AllocError>
        ensures { IfOk result (λ r. declarator_of r ≡ Trees.array pos (declarator_of d) (an_expr (expr_of bound))) }
    {
        let (d, bound) = boxed_pair(alloc, d, bound)?;
        let kind = DeclaratorKind::Array(d, Some(bound));
        Ok(Declarator { pos, kind })
    }

    pub fn function(
        alloc: Global,
        pos: Pos,
        d: Declarator,
        params: Params,
    ) -> Result<Declarator, AllocError>
        ensures { IfOk result (λ r. declarator_of r ≡ Trees.function pos (declarator_of d) (params_of params)) }
    {
        let (d, params) = boxed_beside(alloc, d, params)?;
        let kind = DeclaratorKind::Function(d, params);
        Ok(Declarator { pos, kind })
    }
}

impl Params {
    pub fn empty() -> Params
        ensures { params_of result ≡ no_params }
    {
        Params::Empty
    }

    /// An identifier list in its order.
    pub fn names(names: Vec<(Name, Pos)>) -> Params
        ensures { params_of result ≡ param_names names.items }
    {
        Params::Names(names)
    }

    /// Parameters in their order; the flag says that `...` ends the list.
    pub fn types(params: Vec<Param>, more: bool) -> Params
        ensures { params_of result ≡ param_types (params_from no_more_params params.items) more }
    {
        Params::Types(params, more)
    }
}

impl Param {
    pub fn new(specifiers: Specifiers, declarator: Declarator) -> Param
        ensures { (xs : ParamList) → with_param xs result ≡ Trees.and_param xs (specifiers_of specifiers) (declarator_of declarator) }
    {
        Param {
            specifiers,
            declarator,
        }
    }
}
