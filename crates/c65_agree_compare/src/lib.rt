//! The lines of tests and comparisons do the work of these, where the lines of their parts do that of the parts.
#![tactic(auto)]

mod laws;

pub use laws::{
    areas_do, branches_are_tests, branches_test, choice_lines_are, choices_do, comma_lines_are,
    commas_branch, commas_do_in, comparison_lines_are, equal_words_settle, joint_lines_are,
    joints_settle, left_truths_settle, nots_settle, ordered_words_settle, right_truths_settle,
    settlements_branch, settlements_decide, stacked_comparisons_settle, values_are_tested,
};
