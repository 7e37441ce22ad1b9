//! Whether typed trees are well typed, and a unit of them a whole program: tests for those who make
//! a unit of parts.
#![tactic(auto)]

mod calls;
mod exprs;
mod labels;
mod lists;
mod nodes;
mod operators;
mod same;
mod sizes;
mod stmts;
mod types;
mod units;

pub use labels::add_labels;
pub use lists::{are_distinct, has_number};
pub use same::same_function;
pub use sizes::measured;
pub use units::{is_program, is_unit, program_from, prototype_matches, unit_from};
