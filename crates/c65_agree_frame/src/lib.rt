//! The entry and the end of a function move sp, and regbank is put away and brought back.
#![tactic(auto)]

mod laws;

pub use laws::{
    banks_are_brought, banks_are_saved, ends_are_followed, entries_count, entries_lead,
    stacks_are_lowered, stacks_are_raised,
};
