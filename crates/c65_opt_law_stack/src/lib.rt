//! Laws of the rules on the software stack: the lines that they make stand for the old ones whatever is live there, and
//! wherever one of the rules matches, the code with its lines follows the old code.
#![tactic(auto)]

mod laws;

pub use laws::{calls_are_followed, operators_are_followed, windows_stand};
