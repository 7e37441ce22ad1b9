//! Calls of the library's functions do what their steps of the meaning do.
#![tactic(auto)]

mod laws;

pub use laws::{exit_is_followed, getchar_is_followed, putchar_is_followed};
