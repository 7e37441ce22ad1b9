//! Laws of the runtime: the product of words of 16 bits does what its row says.
#![tactic(auto)]

mod laws;

pub use laws::words_are_multiplied;
