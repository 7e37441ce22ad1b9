//! The lines that choose the case of a switch lead where its value says.
#![tactic(auto)]

mod laws;

pub use laws::{cases_are_of_type, choices_lead, words_tell_numbers};
