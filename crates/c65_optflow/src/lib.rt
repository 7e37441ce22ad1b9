//! The rules on jumps, branches and labels: lines that are never reached or lead nowhere else, and chains of jumps.
#![tactic(auto)]

mod branches;
mod drop;
mod find;
mod flow;
mod hops;
mod samples;

pub use drop::drop_unused_labels;
pub use flow::optimise_flow;
pub use samples::worked_rules;

#[cfg(test)]
mod tests;
