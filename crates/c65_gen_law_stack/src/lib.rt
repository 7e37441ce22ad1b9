//! Laws of the software stack and of regbank in a function, each the contract of a function that does nothing.
#![tactic(auto)]

mod laws;

pub use laws::{
    calls_keep_heights, calls_pass_their_parameters, calls_pass_what_is_taken, ends_raise_sp,
    ends_undo_entries, entries_lower_sp, expressions_are_level, functions_are_level,
    functions_keep_heights, functions_leave_regbank, light_lines_leave_ptr2, moves_keep_heights,
    moves_leave_ptr2, moves_leave_regbank, tests_are_level, walks_keep_heights,
};
