//! The lines of operators with a constant, by shifts and masks, do the work of the operators, where the lines of the left operand do that of it.
#![tactic(auto)]

mod laws;

pub use laws::{
    constant_bits_do, constant_lines_are, constant_products_do, constant_shifts_do,
    elements_are_scaled,
};
