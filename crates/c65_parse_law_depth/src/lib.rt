//! What a greater limit of depth changes in what is read: nothing but faults of depth.
//!
//! Each law is the contract of a function that does nothing.
#![tactic(auto)]

mod laws;

pub use laws::{
    declarations_grow, declarators_grow, expressions_grow, initialisers_grow, specifiers_grow,
    statements_grow, types_grow, units_grow,
};
