//! From the syntax tree of a unit to its typed parts: declarations with their initialisers,
//! statements, and function definitions (C90 6.5.7, 6.6, 6.7).
#![tactic(auto)]

mod agree;
mod body;
mod declare;
mod fixed;
mod function;
mod initial;
mod labels;
mod old_style;
mod params;
mod settle;
mod stmt;
mod unit;
mod values;

pub use unit::elab_unit;
