//! The lines that set parts of objects to their initial values do what the meaning does.
#![tactic(auto)]

mod laws;

pub use laws::{
    areas_are_begun, areas_are_in_memory, banks_hold_numbers, clears_do, objects_are_cleared,
    objects_may_be_set, parts_are_set, values_are_begun, values_have_addresses,
};
