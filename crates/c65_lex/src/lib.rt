//! The preprocessing tokens of a text (C90 5.1.1.2, phases 1 to 3, and 6.1).
#![tactic(auto)]

mod blanks;
mod classes;
mod define;
mod jumps;
mod lengths;
mod lexer;
mod place;
mod scan;
mod spelling;
mod token;

pub use define::Define;
pub use lexer::Lexer;
pub use spelling::class_of;
pub use token::{Paths, PpKind, PpToken, PpTokens, PpUnit};
