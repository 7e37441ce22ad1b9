//! The binary operators as lines of code, between a left operand on the software stack and a right
//! operand in the primary register, and the values that are pushed as parameters.
#![tactic(auto, using(crate::proofs::Kept::kept_run, crate::proofs::Kept::kept_then, crate::proofs::Kept::kept_last))]

mod passing;
mod wide;
mod writing;

pub use passing::pass;
pub use wide::{gen_wide, narrow, put_wide, tos_of, width_of};
pub use writing::{next_label, put, run};
