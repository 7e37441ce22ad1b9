//! Laws of the runtime: its routines do what their rows say; and the routines by that.
#![tactic(auto)]

mod laws;
mod routines;

pub use laws::{routines_are_met, the_runtime_is_met};
pub use routines::take_routine;
