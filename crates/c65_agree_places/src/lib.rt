//! The places that lines name are those of the meaning's blocks, and what is read there is what the blocks hold.
#![tactic(auto)]

mod laws;

pub use laws::{
    functions_are_at_symbols, held_bytes_are_open, literals_are_at_symbols, numbers_are_there,
    objects_are_at_home, objects_are_at_symbols, parameters_are_raised, parts_are_behind,
    pointers_are_there,
};
