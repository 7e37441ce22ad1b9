//! What names mean, block by block (C90 6.1.2): ordinary identifiers and tags, each found in constant
//! time, their linkage, and the objects, functions, types and literals that a unit declares.
#![tactic(auto)]

mod declare;
mod function;
mod meaning;
mod object;
mod parts;
mod scope;
mod table;
mod tags;

pub use meaning::{Bound, Entity, Meaning};
pub use scope::Scope;
pub use table::{Hidden, Table};
