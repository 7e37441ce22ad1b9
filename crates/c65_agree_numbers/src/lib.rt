//! Numbers of C as words of the primary register and as bytes: the operators of the runtime are those of C.
#![tactic(auto)]

mod laws;

pub use laws::{
    numbers_are_laid, numbers_are_loaded, operators_are_on_words, opposites_are_on_words,
    shifts_are_on_words, truth_is_of_words, words_are_converted, words_are_wrapped,
    words_in_range_stay,
};
