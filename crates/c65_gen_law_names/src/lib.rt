//! Laws of what code names: lines name no symbols but those of their trees' items, and whatever the code of a program names is there.
#![tactic(auto)]

mod laws;

pub use laws::{
    expressions_name_their_items, functions_name_their_items, main_has_lines, programs_are_closed,
};
