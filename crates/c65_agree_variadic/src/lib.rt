//! Functions that take further arguments: their entries, and their calls from line to line.
#![tactic(auto)]

mod laws;

pub use laws::{
    entries_count_moves, further_calls_are_entered, further_calls_by_name_are_followed,
    further_calls_through_pointers_are_followed, further_entries_enter, further_entries_keep,
    further_frames_are_given, further_functions_are_followed, parameters_lie_above,
};
