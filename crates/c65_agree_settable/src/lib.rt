//! The objects of a function's blocks may be given their first values.
#![tactic(auto)]

mod laws;

pub use laws::objects_are_settable;
