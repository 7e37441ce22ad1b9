//! A law of preprocessing as one function of told files: it has one answer at most. The statement stands in specs/; it is the
//! contract of a function that does nothing. The call says it of what it answers.
#![tactic(auto)]

mod calls;
mod laws;

pub use calls::preprocess;
pub use laws::units_are_one;
