//! Numbers of one or two bytes that are changed where they lie, as lines of code.
#![tactic(auto, using(c65_genwide::proofs::Kept::kept_then, c65_genwide::proofs::Kept::kept_last))]

mod changes;
mod spots;
mod stepping;

pub use changes::{Change, instruction, put_carry, put_change, put_fill};
pub use spots::{Spot, Target, all_counted, put_again, put_point, put_reach, spot_at, target_of};
pub use stepping::{is_post, put_stepped, step_op};
