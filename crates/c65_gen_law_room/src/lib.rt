//! Laws of what a function takes of the software stack, beside its source.
#![tactic(auto)]

mod laws;

pub use laws::entries_take_their_objects;
