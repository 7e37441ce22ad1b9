//! Where main begins it may be entered.
#![tactic(auto)]

mod laws;

pub use laws::{fixed_objects_are_low, main_may_be_entered};
