//! Laws of a linked image: its rows follow the runs of the code's lines.
#![tactic(auto)]

mod laws;

pub use laws::codes_are_followed;
