//! Laws of the certificate that is made: its rows are of the functions that can be called from `main`, and their numbers
//! are the least that cover the program.
#![tactic(auto)]

mod laws;

pub use laws::{
    numbers_are_least, rounds_settle, rows_are_in_order, rows_are_those_reached, rows_cover,
};
