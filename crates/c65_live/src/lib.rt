//! What is live after each line of a function: the registers, flags and zero-page bytes that may be read behind it
//! before they are set.
#![tactic(auto)]

mod border;
mod flow;
mod laws;
mod region;
mod renew;
mod sweep;
mod table;

pub use laws::{dead_is_not_live, live_samples};
pub use table::LiveTable;
