//! The way from source files to the code of a program: each is preprocessed, scanned, parsed and typed, and then they are
//! joined and generated.
#![tactic(auto)]

mod chain;
mod refused;
mod unit;

pub use c65_ppdir::Define;
pub use chain::{Joined, compile, join_files};
