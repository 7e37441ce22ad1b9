//! The lines of operators that work on words byte by byte do the work of the operators, where the lines of the operands do that of the operands.
#![tactic(auto)]

mod laws;

pub use laws::{
    constant_sums_do, direct_lefts_do, direct_rights_do, fixed_are_read_behind, held_operators_do,
    trees_are_read_behind,
};
