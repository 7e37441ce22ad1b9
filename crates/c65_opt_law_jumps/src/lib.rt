//! Laws of the rules on jumps and branches: wherever one of them matches, the code with the lines that it makes follows the old code.
#![tactic(auto)]

mod laws;

pub use laws::{jumps_are_followed, unreached_lines_go};
