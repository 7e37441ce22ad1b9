//! Laws of the rules on lines in a row: wherever one of them matches, the code with the lines that it makes follows the old code.
//! The statements stand in specs/; each is the contract of a function that does nothing.
#![tactic(auto)]

mod laws;

pub use laws::{arithmetic_is_followed, loads_are_followed};
