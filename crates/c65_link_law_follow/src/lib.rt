//! Laws of a linked image: each line of the machine without rows is followed by one or two rows of the processor.
#![tactic(auto)]

mod laws;

pub use laws::{counting_is_laid, lines_are_followed};
