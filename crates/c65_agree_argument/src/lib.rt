//! The arguments of a call: they wait on the software stack or stay in registers, and lie where the function takes them.
#![tactic(auto)]

mod laws;

pub use laws::{
    arguments_are_followed, arguments_are_passed, arguments_leave_weight, scalars_are_passed,
    values_are_pushed,
};
