//! Typed trees: expressions and statements of C with each conversion written out, the objects,
//! literals and functions of a unit, and a program. A unit and a program keep in their types that
//! their trees are well typed.
#![tactic(auto)]

mod expr;
mod items;
mod kinds;
mod library;
mod stmt;
mod unit;

pub use expr::{TExpr, TKind};
pub use items::{Cell, Class, Parts, TFunc, TObject, Target};
pub use kinds::{
    SMALL, int_type, is_scalar, is_sized, is_small, is_tag, member_at, pointer_to, promoted,
    unqualified,
};
pub use library::{library_named, library_type, takes_more};
pub use stmt::TStmt;
pub use unit::{TProgram, TUnit};
