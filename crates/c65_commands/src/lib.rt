//! What each command of the tool does: its words in, an answer out.
#![tactic(auto)]

mod assembly;
mod compiled;
mod depth;
mod generated;
mod load;
mod made;
mod run;
mod text;
mod top;

pub use made::Made;
pub use top::perform;
