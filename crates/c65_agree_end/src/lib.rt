//! Where main ends the run ends, in the meaning and on the machine on lines.
#![tactic(auto)]

mod laws;

pub use laws::{main_is_followed, mains_return};
