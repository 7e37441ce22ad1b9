//! Whether the names of a program are in scope, its initial values whole, and the types of its `main`
//! and of its library those of C90: a test for those who make a program of parts.
#![tactic(auto)]

mod bodies;
mod exprs;
mod initial;
mod library;
mod marks;
mod program;
mod stmts;

pub use program::is_scoped;
