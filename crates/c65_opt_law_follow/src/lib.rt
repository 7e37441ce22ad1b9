//! The law of rewritings: lines that are justified at a place of a function may stand for the old ones there, in whatever code the
//! function is; and following composes. The statements stand in specs/; each is the contract of a function that does nothing.
#![tactic(auto)]

mod laws;

pub use laws::{following_composes, justified_lines_follow, window_samples};
