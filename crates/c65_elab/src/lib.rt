//! From syntax trees to types and typed trees: specifiers, declarators and expressions in a scope
//! (C90 6.3 to 6.5).
#![tactic(auto)]

mod blocks;
mod constants;
mod elab;
mod lists;
mod names;
mod operators;
mod places;
mod public;

pub use c65_elab_declare::{Enumerator, Formal, Formals, Heading, name_place};
pub use c65_elab_scope::{Entity, Scope};
pub use constants::value_at;
pub use public::{elab_declarator, elab_expr, elab_heading, elab_specifiers};
