//! The first bytes of a program's data are the first cells of its objects and literals.
#![tactic(auto)]

mod laws;

pub use laws::{literals_begin, literals_have_data, objects_begin, objects_have_data};
