//! Runs of an image: the machine with its hooks, up to a budget of rows or cycles.
#![tactic(auto)]

mod hooks;
mod laws;
mod run;
mod stop;
#[cfg(test)]
mod tests;

pub use laws::two_runs_are_one;
pub use run::{Budget, Run, arguments_size};
