//! The processor: its table of opcodes, one row of a run, and the image that a run is started from.
#![tactic(auto)]

mod image;
mod machine;
mod registers;
mod rows;

pub use image::Image;
pub use machine::{Machine, step};
pub use registers::Regs;
pub use rows::{Mode, Op, Row, decode, decode_for};
