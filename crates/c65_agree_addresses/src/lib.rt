//! The lines of the names of objects and members leave their addresses.
#![tactic(auto)]

mod laws;

pub use laws::{
    member_lines_are, members_are_placed, object_lines_are, objects_are_placed,
    trees_have_addresses,
};
