//! Laws of the text of programs that are plain: what such a program is asked for beside, that its text can be written.
#![tactic(auto)]

mod laws;

pub use laws::plain_programs_are_writable;
