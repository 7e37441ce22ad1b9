//! The bodies of all functions of a program do their work, whatever calls they make.
#![tactic(auto)]

mod laws;

pub use laws::bodies_do_for_all;
