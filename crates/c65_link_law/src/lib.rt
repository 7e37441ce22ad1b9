//! Laws of the linker: what it writes for lines is their machine code, in as many bytes as it says.
#![tactic(auto)]

mod laws;

pub use laws::{
    code_is_within_its_extent, functions_stand, images_are_bounded, lines_are_coded,
    routines_stand, sizes_are_lengths, symbols_lead,
};
