//! Macros and their expansion (C90 6.8.3).
#![tactic(auto)]

mod definition;
mod expand;
mod feeding;
mod fill;
mod gather;
mod given;
mod item;
mod marked;
mod predefined;
mod rest;
mod sets;
mod state;
mod table;
mod text;
mod uses;

pub use feeding::Expander;
pub use item::{Macro, Params, Words};
pub use table::Macros;
