//! Structures and unions of 1 to 4 bytes that are passed, given and put where an object takes them, and calls that give nothing.
#![tactic(auto)]

mod laws;

pub use laws::{
    addresses_are_bases, areas_are_loaded, constant_sums_are_bases, copies_do, members_are_bases,
    members_have_addresses, moved_types_have_bytes, names_are_bases, nothing_comes_back,
    objects_are_bases, packs_are_arguments, packs_are_results, packs_do, places_have_addresses,
    plain_sums_are_bases, pointers_are_bases, results_come_back, scoped_takers_are_homed,
    spills_do, structures_come_back, sums_are_bases, takers_are_homed, targets_are_bases,
    targets_have_addresses,
};
