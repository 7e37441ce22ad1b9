//! Laws of the runtime: the library's functions on strings do what their rows say.
#![tactic(auto)]

mod laws;

pub use laws::{strings_are_compared, strings_are_measured, strings_are_measured_within};
