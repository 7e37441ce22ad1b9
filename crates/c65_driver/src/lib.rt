//! The tool: words in, a status out.
#![tactic(auto)]

mod outcome;
mod report;
mod top;

pub use c65_commands::Made;
pub use outcome::Outcome;
pub use top::tool;
