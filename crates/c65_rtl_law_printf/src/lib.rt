//! Laws of `printf`: how its lines come to the digits of a number, and what its format says byte by byte.
#![tactic(auto)]

mod laws;

pub use laws::{
    bytes_are_read, characters_are_taken, digits_are_taken, formats_are_read, strings_are_taken,
    texts_are_written, widths_are_read,
};
