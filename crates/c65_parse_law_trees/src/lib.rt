//! What the grammar derives is what the parser reads.
//!
//! Each law is the contract of a function that does nothing. The parser's calls have a machine's run as their
//! contract, one step a token; the laws say that the run gives each tree of the grammar within the limit of depth,
//! before a token with which it does not go on, and so that tokens have one tree at most. The calls say it of what
//! they answer.
#![tactic(auto)]

mod calls;
mod laws;

pub use calls::{
    read_assignment, read_constant, read_declarator, read_expression, read_specifiers,
    read_type_name, read_untyped_declarator,
};
pub use laws::{
    declarators_are_read, expressions_are_read, specifiers_are_read, trees_are_one, types_are_read,
};
