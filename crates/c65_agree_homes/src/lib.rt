//! The frames of a program's functions give what the simulation asks of them.
#![tactic(auto)]

mod laws;

pub use laws::{
    calls_count_their_turns, calls_have_few_labels, gotos_count_their_turns, ground_is_given,
    heads_are_counted, labels_may_land, last_parameters_arrive, objects_may_begin,
    parameters_have_homes, parameters_stand_in_order, parts_are_given, turns_are_few,
};
