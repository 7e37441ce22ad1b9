//! The meaning of typed programs: a machine on trees with blocks in place of addresses. The definitions stand in specs/,
//! and docs/MEANING.md tells them in words. The functions here say what holds of them: laws of runs, of the store and of values, and how
//! small programs end.
#![tactic(auto)]

mod action;
mod ending;
mod laws;
pub mod prints;
pub mod samples;
pub mod undefined;

pub use action::Action;
pub use ending::Ending;
pub use laws::{
    conversions_fit, last_stays, names_stay, operators_fit, output_grows, reads_fit, runs_go_on,
    steps_fit, stored_is_read, stores_stay, unary_operators_fit,
};
