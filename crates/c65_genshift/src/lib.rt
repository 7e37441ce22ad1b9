//! Operators whose right operand is a constant, by shifts and masks in place of the routines that take
//! both operands.
#![tactic(auto, using(c65_genwide::proofs::Kept::kept_then, c65_genwide::proofs::Kept::kept_last))]

mod masks;
mod quick;
mod shifts;
mod zero_page;

pub use masks::mask;
pub use quick::{Quick, put_elements, put_quick, quick_of};
