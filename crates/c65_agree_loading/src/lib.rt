//! Places are told by the lines of their bases in each manner, and loads and tests of numbers and pointers do their work in it.
#![tactic(auto)]

mod base_laws;
mod load_laws;

pub use base_laws::{
    literals_are_bases, literals_do, literals_do_in, literals_tell, manners_tell, members_tell,
    names_tell, objects_tell, pointers_tell, sums_tell, targets_tell, usually_tell,
};
pub use load_laws::{
    banked_loads_do_in, banked_loads_test_in, loads_do_in, loads_test, loads_test_in,
};
