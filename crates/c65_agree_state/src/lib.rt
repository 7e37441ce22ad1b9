//! How a state of the meaning and a state of the machine on lines belong together, and what it is that lines do the work of an expression.
#![tactic(auto)]

mod laws;

pub use laws::{
    addresses_do, arrivals_count, commas_do, constant_tests_do, constants_do, follows_weaken,
    heads_count, kept_goes_on, ready_is_calm, ready_stays, scratch_changes, scratch_is_kept,
    steps_earn, ways_are_followed,
};
