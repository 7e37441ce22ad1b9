//! The parameters of functions that take further arguments, which lie higher by these, and the place behind them.
#![tactic(auto)]

mod laws;

pub use laws::{
    addressed_are_expressions, raised_are_addressed, raised_are_bases, rests_are_expressions,
    rests_do,
};
