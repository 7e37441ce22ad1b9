//! The lines of an assignment to a number or a pointer do its work, in whatever form the generator has them.
#![tactic(auto)]

mod laws;

pub use laws::{assignment_effects_do, assignments_do, left_pointers_do, right_assignments_do};
