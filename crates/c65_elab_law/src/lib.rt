//! Laws of typing: what conversions, operators and whole expressions give is well typed, and each
//! declaration keeps what holds of a scope; the calls of typing with these laws as their clauses.
#![tactic(auto)]

mod calls;
mod laws;

pub use calls::{typed_declarator, typed_expression, typed_heading, typed_specifiers};
pub use laws::{
    constants_are_ranged, constructs_are_typed, declarations_keep_scopes, expressions_are_typed,
    scopes_begin, trees_stay_typed, types_keep_scopes,
};
