//! Laws of the linker: the addresses that it gives to the symbols of a code are a placement of that code.
#![tactic(auto)]

mod laws;

pub use laws::{data_are_loaded, places_are_placements, units_stand, uses_are_chosen};
