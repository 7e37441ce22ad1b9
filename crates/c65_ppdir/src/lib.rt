//! Directives: from a file to the preprocessing tokens of its unit (C90 6.8).
#![tactic(auto)]

mod command;
mod entry;
mod opened;
mod reader;
mod tokens;
mod unit;

pub use c65_lex::{Define, Paths, PpTokens, PpUnit};
pub use entry::preprocess;
