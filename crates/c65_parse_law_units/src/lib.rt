//! What the grammar derives of a unit is what the parser reads.
//!
//! Each law is the contract of a function that does nothing. The parser of units reads declarations, initialisers and
//! statements in loops that have as many steps as the unit has tokens; the laws say that these are enough, and that
//! each tree of the grammar within the limit of depth is read. The call says it of what it answers.
#![tactic(auto)]

mod calls;
mod laws;

pub use calls::read_unit;
pub use laws::{declarations_are_read, initialisers_are_read, statements_are_read, units_are_read};
