//! Expressions whose value is not used, as lines of code: numbers are changed where they lie.
#![tactic(auto, using(c65_genwide::proofs::Kept::kept_then, c65_genwide::proofs::Kept::kept_last))]

mod changing;
mod effect;
mod placing;
mod setting;

pub use effect::put_effect;
