//! Calls of the library's functions that write memory do what their steps of the meaning do.
#![tactic(auto)]

mod laws;

pub use laws::{memcpy_is_followed, memset_is_followed, strcpy_is_followed};
