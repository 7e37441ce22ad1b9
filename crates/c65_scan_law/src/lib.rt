//! Laws of scanning: each integer constant lies in the range of the type that scanning gives it, and so does each one of
//! a tree that the grammar derives from scanned tokens.
#![tactic(auto)]

mod laws;

pub use laws::{scanned_constants_are_ranged, scanned_tokens_are_ranged};
