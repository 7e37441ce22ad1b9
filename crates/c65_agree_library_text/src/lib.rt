//! Calls of the library's functions that read texts do what their steps of the meaning do.
#![tactic(auto)]

mod laws;

pub use laws::{puts_is_followed, strcmp_is_followed, strlen_is_followed};
