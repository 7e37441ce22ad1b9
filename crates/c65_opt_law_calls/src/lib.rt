//! Laws of nearness for calls of functions and returns. The statements stand in specs/; each is the contract of a function that does
//! nothing.
#![tactic(auto)]

mod laws;

pub use laws::{calls_stay_near, ends_stay_near, returns_stay_near};
