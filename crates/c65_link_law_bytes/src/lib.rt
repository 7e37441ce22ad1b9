//! Laws of the linker: an image's file consists of bytes.
#![tactic(auto)]

mod laws;

pub use laws::{files_are_bytes, read_codes_have_bytes};
