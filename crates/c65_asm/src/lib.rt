//! The assembly text of a code: written, and read back.
#![tactic(auto)]

mod alike;
mod known;
mod lines;
mod mnemonic;
mod notes;
mod printing;
mod reader;
mod reading;
mod row;
mod table;
mod texts;
mod words;

pub use reading::{Answer, read, read_printed};
pub use texts::{print, print_known};
pub use words::is_symbol;
