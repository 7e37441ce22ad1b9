//! The runtime's multiplication and divisions of 32 bits as segments.
#![tactic(auto)]

mod places;
mod wide;

pub use wide::{is_wide, wide_routine};
