//! Laws of lines in a row, and of lines that the rules on arithmetic put for them, from near states. The statements stand in specs/;
//! each is the contract of a function that does nothing.
#![tactic(auto)]

mod laws;

pub use laws::{arithmetic_stays_near, lines_stay_near};
