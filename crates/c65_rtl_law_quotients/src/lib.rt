//! Laws of the runtime: the quotients and remainders of words of 16 bits do what their rows say.
#![tactic(auto)]

mod laws;

pub use laws::{signed_words_are_divided, words_are_divided};
