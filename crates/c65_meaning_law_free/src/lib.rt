//! Laws of the free meaning, in which no call is too deep: it is the meaning up to the first state that is. The statements stand in
//! specs/; each is the contract of a function that does nothing.
#![tactic(auto)]

mod laws;

pub use laws::{free_is_never_deep, free_is_the_same, free_shows_the_same, too_deep_is_deep};
