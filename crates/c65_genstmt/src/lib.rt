//! Statements, functions and whole programs as lines of code.
#![tactic(auto)]

mod cases;
mod function;
mod jumps;
mod objects;
mod program;
mod stmt;

pub use c65_gendata::gen_data;
pub use function::gen_function;
pub use program::gen_program;
