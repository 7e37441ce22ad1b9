//! States between the statements of a function, and what it is that lines do the work of a statement.
#![tactic(auto)]

mod laws;

pub use laws::{between_is_ready, between_stays, keeping_goes_on};
