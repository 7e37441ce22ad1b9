//! Bit-fields as lines of code: tested by the byte that has all their bits, and set where the value is not used.
#![tactic(auto, using(c65_genwide::proofs::Kept::kept_then, c65_genwide::proofs::Kept::kept_last))]

mod bits;
mod setting;

pub use bits::{byte_field, put_own_bits};
pub use setting::{put_behind, put_set, put_set_number};
