//! How ways of the machine on lines are put together, line by line.
#![tactic(auto)]

mod laws;

pub use laws::{
    branches_go, calls_enter, jumps_go, labels_are_passed, library_calls_go, main_ends,
    operations_go, pointer_calls_enter, pulls_go, pushes_go, returns_go, routines_go, ways_join,
    ways_weaken,
};
