//! Whether a code can be written as assembly text and run on a processor: tests for those who print and link it.
#![tactic(auto)]

mod code;
mod datums;
mod functions;
mod processors;
mod symbols;

pub use code::is_writable;
pub use processors::runs_on;
