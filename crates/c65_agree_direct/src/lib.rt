//! Operands that the lines of an operator read where they lie have the bytes of the value that the program means.
#![tactic(auto)]

mod laws;

pub use laws::{
    direct_loads_are_tested, direct_trees_are_read, direct_trees_are_read_on,
    known_places_are_loaded, operand_bytes_are_used,
};
