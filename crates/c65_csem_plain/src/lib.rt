//! Whether a program is as every one that is made from source: its objects stand in one block of
//! one function each, its
//! members lie in their structures, its pointers begin whole and move by whole objects, and the names of
//! the library are the library's. A test for those who make a program of parts.
#![tactic(auto)]

mod apart;
mod arms;
mod exprs;
mod funcs;
mod initial;
mod members;
mod names;
mod objects;
mod program;
mod stmts;

pub use program::is_plain;
