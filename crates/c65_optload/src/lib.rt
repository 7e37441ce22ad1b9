//! The rules on loads, stores and transfers: those that change nothing, and those for which a shorter line stands.
#![tactic(auto)]

mod conditions;
mod facts;
mod find;
mod load;
mod others;
mod samples;

pub use load::optimise_load;
pub use samples::worked_rules;

#[cfg(test)]
mod tests;
