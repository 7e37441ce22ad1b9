//! The data and the symbols of a program: the first bytes of its objects, its string literals, and
//! how each symbol is spelled.
#![tactic(auto)]

mod cells;
mod data;
mod symbols;

pub use data::gen_data;
pub use symbols::gen_symbols;
