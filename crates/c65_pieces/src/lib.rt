//! The preprocessing tokens of a text that is given in pieces (C90 5.1.1.2, phases 1 to 3, and 6.1).
#![tactic(auto)]

mod blanks;
mod classes;
mod lengths;
mod lexer;
mod scan;
mod settled;
mod text;
mod whole;

pub use lexer::{Lexed, PieceLexer};
pub use whole::{anyhow_cut, anyhow_cut_by_lines};
