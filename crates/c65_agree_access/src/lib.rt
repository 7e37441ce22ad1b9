//! The lines that bring the address of a place to ptr1 tell the place, and those of loads, of their tests and of assignments to a number or a pointer do their work.
#![tactic(auto)]

mod element_laws;
mod load_laws;
mod low_laws;
mod pointed_laws;
mod store_laws;

pub use element_laws::{
    element_loads_do, element_loads_test, low_element_lines_are, low_element_loads_do,
    members_are_elements, memory_loads_do, memory_loads_do_in, memory_loads_test,
    memory_loads_test_in, sums_are_elements,
};
pub use load_laws::{banked_loads_do, loads_do, places_are_whole};
pub use low_laws::{low_load_lines_are, low_loads_do};
pub use pointed_laws::{
    constant_sums_are_pointed, direct_left_sums_point, direct_right_sums_point,
    elements_have_sizes, held_sums_point, members_are_pointed, names_are_pointed,
    own_bases_are_pointed, pointers_are_pointed, sums_are_pointed, targets_are_pointed,
};
pub use store_laws::{
    banked_assignments_do, held_assignments_do, left_assignments_do, stacked_assignments_do,
};
