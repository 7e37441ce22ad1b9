//! Laws of what the generator makes: its code can be written as assembly text, and what is printed of it is read back.
#![tactic(auto)]

mod laws;

pub use laws::{programs_are_writable, programs_read_back};
