//! The runtime's `printf` as a segment.
#![tactic(auto)]

mod places;
mod printf;

pub use printf::{is_printf, printf_routine};
