//! The parser refuses units at the first token with which none goes on.
//!
//! Each law is the contract of a function that does nothing. Whatever is open of an initialiser, a declaration, a
//! statement or a unit can be closed within the limit of depth: so the tokens before a fault are the front of a tree,
//! and with the token of the fault they are not. The calls say it of what they answer, and so what the parser answers
//! is told by the grammar alone.
#![tactic(auto)]

mod calls;
mod laws;

pub use calls::{
    assignment_exactly, constant_exactly, declarator_exactly, expression_exactly, read_exactly,
    specifiers_exactly, stop_unit, type_name_exactly, untyped_declarator_exactly,
};
pub use laws::{
    declarations_stop, initialisers_stop, scanned_units_are_read, statements_stop, units_stop,
};
