//! The text of a file, read in pieces as its tokens are taken (C90 5.1.1.2, phases 1 to 3).
#![tactic(auto)]

mod ending;
mod lexing;
mod text;

pub use ending::{Ending, Read};
pub use text::FileText;
