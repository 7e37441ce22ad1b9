//! Laws of rows: the moves and the runs of the machine without rows are followed by rows of the processor.
#![tactic(auto)]

mod laws;

pub use laws::{moves_are_followed, runs_are_followed};
