//! The first store stands where main begins.
#![tactic(auto)]

mod laws;

pub use laws::the_first_store_stands;
