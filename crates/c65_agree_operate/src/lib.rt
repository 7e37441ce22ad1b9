//! The lines of operators on numbers do the work of the operators, where the lines of the operands do that of the operands.
#![tactic(auto)]

mod laws;

pub use laws::{
    conversion_lines_are, conversions_do, decisions_test, discards_do, manners_do, not_lines_are,
    nots_decide, number_lines_are, opposite_lines_are, opposites_do, stacked_operators_do,
    truths_do, usually_do,
};
