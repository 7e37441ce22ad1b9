//! What the rows of the runtime's routines say as steps of the relation of scenes and states.
#![tactic(auto)]

mod laws;

pub use laws::{
    far_loads_run, lowers_run, near_loads_run, operators_run, opposites_run, pushes_run,
    quiet_rows_scratch, raises_run, routines_are_followed, widenings_run,
};
