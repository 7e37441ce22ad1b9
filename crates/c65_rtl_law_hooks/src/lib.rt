//! Laws of the runtime: the library's functions over the hooks do what their rows say.
#![tactic(auto)]

mod laws;

pub use laws::programs_exit;
