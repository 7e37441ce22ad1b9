// Members and enumerators with their depth beside them.
ghost use Rattle.std.specs.Prelude.{◌≡◌, IfOk, min};
ghost use Rattle.c65_tree.specs.Trees.{no_more_members, and_member, no_member_decls, and_member_decl, no_more_enumerators, and_enumerator};
ghost use Rattle.c65_tree.specs.Depth.{member_list_depth, member_decls_depth, enumerator_list_depth, maybe_declarator_depth, maybe_expr_depth};
ghost use Rattle.c65_tree.specs.Optional.{maybe_declarator, maybe_expr};
ghost use Rattle.c65_tree.specs.View.{specifiers_of, members_from, member_decls_from, enumerators_from};
ghost use Rattle.c65_parse_trees.specs.Optional.{option_declarator, option_expr};

use crate::measured::{
    EnumeratorList, MeasuredDeclarator, MeasuredExpr, MeasuredSpecifiers, MemberDecls, MemberList,
};
use c65_base::{Name, Pos};
use c65_tree::{
    Declarator, Enumerator, Expr, MemberDecl, MemberDeclarator, with_enumerator, with_member,
    with_member_decl,
};
use std::alloc::{AllocError, Global};

impl MemberList {
    pub fn new(alloc: Global) -> MemberList
        ensures { members_from no_more_members result.members.items ≡ no_more_members }
    {
        MemberList {
            members: Vec::new(alloc),
            depth: 0,
        }
    }

    pub fn with(
        self,
        pos: Pos,
        declarator: Option<MeasuredDeclarator>,
        width: Option<MeasuredExpr>,
    ) -> Result<MemberList, AllocError>
        ensures { IfOk result (λ r. members_from no_more_members r.members.items ≡ and_member (members_from no_more_members self.members.items) pos (option_declarator declarator) (option_expr width)) }
    {
        let (declarator, first) = declarator_parts(declarator);
        let (width, second) = expr_parts(width);
        let depth = self.depth.max(first.max(second));
        let member = MemberDeclarator::new(pos, declarator, width);
        let members = with_member(self.members, member)?;
        Ok(MemberList { members, depth })
    }
}

/// A declarator that may lack, and its depth or 0.
fn declarator_parts(d: Option<MeasuredDeclarator>) -> (Option<Declarator>, u32)
    ensures tree { maybe_declarator result.0 ≡ option_declarator d }
    ensures depth { result.1 ≡ min (maybe_declarator_depth (option_declarator d)) 4294967295 }
{
    match d {
        Some(d) => (Some(d.declarator), d.depth),
        None => (None, 0),
    }
}

/// An expression that may lack, and its depth or 0.
fn expr_parts(e: Option<MeasuredExpr>) -> (Option<Expr>, u32)
    ensures tree { maybe_expr result.0 ≡ option_expr e }
    ensures depth { result.1 ≡ min (maybe_expr_depth (option_expr e)) 4294967295 }
{
    match e {
        Some(e) => (Some(e.expr), e.depth),
        None => (None, 0),
    }
}

impl MemberDecls {
    pub fn new(alloc: Global) -> MemberDecls
        ensures { member_decls_from no_member_decls result.decls.items ≡ no_member_decls }
    {
        MemberDecls {
            decls: Vec::new(alloc),
            depth: 0,
        }
    }

    pub fn with(
        self,
        specifiers: MeasuredSpecifiers,
        members: MemberList,
    ) -> Result<MemberDecls, AllocError>
        ensures { IfOk result (λ r. member_decls_from no_member_decls r.decls.items ≡ and_member_decl (member_decls_from no_member_decls self.decls.items) (specifiers_of specifiers.specifiers) (members_from no_more_members members.members.items)) }
    {
        let depth = self.depth.max(specifiers.depth.max(members.depth));
        let decl = MemberDecl::new(specifiers.specifiers, members.members);
        let decls = with_member_decl(self.decls, decl)?;
        Ok(MemberDecls { decls, depth })
    }
}

impl EnumeratorList {
    pub fn new(alloc: Global) -> EnumeratorList
        ensures { enumerators_from no_more_enumerators result.enumerators.items ≡ no_more_enumerators }
    {
        EnumeratorList {
            enumerators: Vec::new(alloc),
            depth: 0,
        }
    }

    pub fn with(
        self,
        pos: Pos,
        name: Name,
        value: Option<MeasuredExpr>,
    ) -> Result<EnumeratorList, AllocError>
        ensures { IfOk result (λ r. enumerators_from no_more_enumerators r.enumerators.items ≡ and_enumerator (enumerators_from no_more_enumerators self.enumerators.items) pos name (option_expr value)) }
    {
        let (value, deep) = expr_parts(value);
        let depth = self.depth.max(deep);
        let enumerators = with_enumerator(self.enumerators, Enumerator::new(pos, name, value))?;
        Ok(EnumeratorList { enumerators, depth })
    }
}
