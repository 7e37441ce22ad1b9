//! A scene in which cells are put belongs to the state in which their bytes are stored.
#![tactic(auto)]

mod laws;

pub use laws::{
    banks_follow, puts_are_kept, puts_are_taken, puts_join, stores_run, values_are_laid,
    waiting_is_kept, writes_are_puts,
};
