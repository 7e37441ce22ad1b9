//! The symbols of a program have addresses of 16 bits.
#![tactic(auto)]

mod laws;

pub use laws::{
    addresses_are_located, functions_are_low, literals_are_low, objects_are_low, places_are_low,
};
