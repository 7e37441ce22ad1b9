//! The units of a program are joined (C90 6.1.2.2, 6.7): names of external linkage with one name
//! become one item, and each number in a tree becomes a number of the program.
#![tactic(auto)]

mod agree;
mod assign;
mod checks;
mod definition;
mod known;
mod library;
mod marks;
mod numbers;
mod program;
mod renumber;
mod table;
mod unit;

pub use program::join;
