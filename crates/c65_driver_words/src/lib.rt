//! The words of the command line: the command that they spell, or the word at which they spell none.
#![tactic(auto)]

mod command;
mod spelling;
mod told;
mod value;

pub use c65_lex::Define;
pub use command::{Command, CommandKind};
pub use spelling::spell;
