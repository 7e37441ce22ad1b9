//! Laws of the fields of `printf`: the choice of a conversion, the numbers that are its arguments, their digits, and the spaces.
#![tactic(auto)]

mod laws;

pub use laws::{
    letters_are_chosen, longs_are_taken, numbers_are_made, signs_are_taken, spaces_are_written,
    words_are_taken,
};
