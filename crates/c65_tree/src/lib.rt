//! Syntax trees of C90, and how deep and how large they are.
#![tactic(auto)]

mod boxes;
mod count;
mod expr;
mod extent;
mod grow;
mod make_decl;
mod make_expr;
mod make_stmt;
mod stmt;

pub use boxes::push_last;
pub use count::nodes;
pub use expr::{
    Declarator, DeclaratorKind, Enumerator, Expr, ExprKind, MemberDecl, MemberDeclarator, Param,
    Params, Specifier, SpecifierKind, Specifiers, Storage, TypeName,
};
pub use extent::{depth, is_within};
pub use grow::{
    with_enumerator, with_expr, with_init, with_member, with_member_decl, with_param,
    with_specifier, with_stmt,
};
pub use stmt::{Decl, Function, InitDeclarator, InitKind, Initialiser, Item, Stmt, StmtKind, Unit};
