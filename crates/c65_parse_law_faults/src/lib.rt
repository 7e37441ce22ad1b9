//! Where the parser refuses tokens, no tree goes on.
//!
//! Each law is the contract of a function that does nothing. A reading's fault depends on the tokens up to the one at
//! which it stands, whatever follows; so no tree that the grammar derives within the limit of depth has these tokens
//! in front. The call says it of what it answers.
#![tactic(auto)]

mod calls;
mod laws;

pub use calls::refuse_unit;
pub use laws::{
    declarations_are_refused, declarators_are_refused, expressions_are_refused,
    initialisers_are_refused, specifiers_are_refused, statements_are_refused, types_are_refused,
    units_are_refused,
};
