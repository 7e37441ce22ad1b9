//! Laws of the rules that open calls of routines and of functions of the library: their lines stand for the calls whatever is
//! live there, and wherever one of the rules matches, the code with the lines follows the code with the call. The statements stand in specs/; each is the contract
//! of a function that does nothing.
#![tactic(auto)]

mod laws;

pub use laws::{
    known_calls_stand, library_serves, opened_calls_serve, routines_serve, routines_stand,
};
