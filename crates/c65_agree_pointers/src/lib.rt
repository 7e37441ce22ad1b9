//! The lines of sums with pointers and of differences of pointers do the work of these, where the lines of the operands do that of them.
#![tactic(auto)]

mod laws;

pub use laws::{
    constant_elements_do, direct_left_sums_do, direct_right_sums_do, elements_are_told,
    held_sums_do, operator_lines_are, stacked_sums_do,
};
