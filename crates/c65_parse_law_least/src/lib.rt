//! The parser refuses tokens at the first one with which no tree goes on.
//!
//! Each law is the contract of a function that does nothing. Whatever the machine that reads expressions, specifiers,
//! declarators and type names has open can be closed within the limit of depth: so the tokens before a fault are the
//! front of a tree, and with the token of the fault they are not. The calls say it of what they answer.
#![tactic(auto)]

mod calls;
mod laws;

pub use calls::{
    stop_assignment, stop_constant, stop_declarator, stop_expression, stop_specifiers,
    stop_type_name, stop_untyped_declarator,
};
pub use laws::{declarators_stop, expressions_stop, specifiers_stop, types_stop};
