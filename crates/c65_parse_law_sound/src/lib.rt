//! What the parser reads is what the grammar derives.
//!
//! Each law is the contract of a function that does nothing. The parser's calls have a machine's run as their
//! contract, one step a token; the laws say of that run which phrase of the grammar stands in what it has read.
#![tactic(auto)]

mod calls;
mod laws;

pub use calls::{
    take_assignment, take_constant, take_declarator, take_expression, take_specifiers,
    take_type_name, take_unit, take_untyped_declarator,
};
pub use laws::{
    declarators_are_derived, expressions_are_derived, specifiers_are_derived, trees_are_within,
    types_are_derived, units_are_derived,
};
