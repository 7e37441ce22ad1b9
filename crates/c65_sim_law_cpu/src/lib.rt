//! That the 65C02 runs the images of the 6502: the law of runs that ties both processors.
#![tactic(auto)]

mod agree;

pub use agree::processors_agree;
