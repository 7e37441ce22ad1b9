//! The linker: a code's functions, its data and the routines that it uses, placed and written as an image.
#![tactic(auto)]

mod body;
mod bytes;
mod laws;
mod layout;
mod linking;
mod missing;
mod opcode;
mod symbols;
mod uses;

pub use laws::{calls_go_on, opcodes_are_the_tables, opposites_differ};
pub use linking::{link, link_for};
