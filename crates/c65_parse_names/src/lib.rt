//! Which names are types, block by block (C90 6.1.2.1): what a parser asks of each identifier.
#![tactic(auto)]

mod scope;

pub use scope::Scope;
