//! The runtime's routines as segments: all but the multiplication and the divisions of 32 bits, and `printf`.
//!
//! The routines without loops and calls, and the shifts, do what their rows say: their lines, on the machine whose calls all
//! enter lines, come back with the row met, in fewer instructions than it costs, and within the bytes that they may reach of
//! both stacks.
#![tactic(auto)]

mod check;
mod gives;
mod laws;
mod library;
mod memory;
mod operators;
mod orders;
mod places;
mod routines;
mod shifts;
mod stack;
mod unary;
mod writing;

pub use gives::{given, tos_result};
pub use laws::{placements_lie_low, rows_are_met};
pub use routines::{is_narrow, routine};
pub use stack::BACK;
pub use writing::put;
