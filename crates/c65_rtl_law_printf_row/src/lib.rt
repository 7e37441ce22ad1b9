//! The law of `printf`: its lines do what its row says.
#![tactic(auto)]

mod laws;

pub use laws::formats_are_written;
