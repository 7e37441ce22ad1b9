//! The rules that open calls of routines and of functions of the library, each in one walk over the lines: those that the options
//! ask for.
#![tactic(auto)]

mod inline;
mod known;
mod opened;
mod samples;
mod texts;

pub use inline::inline_calls;
pub use samples::{worked_bytes, worked_calls, worked_texts};
