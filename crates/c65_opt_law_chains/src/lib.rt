//! Laws of the rules on labels to which no line refers and on chains of jumps: wherever one of them matches, the code with the lines
//! that it makes follows the old code.
#![tactic(auto)]

mod laws;

pub use laws::{chains_are_followed, following_until_end_composes, unused_labels_go};
