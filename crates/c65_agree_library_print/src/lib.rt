//! The call of `printf` does what its step of the meaning does.
#![tactic(auto)]

mod laws;

pub use laws::{counted_printf_is_followed, printf_is_followed};
