//! What the lines of statements do, by their parts.
#![tactic(auto)]

mod laws;

pub use laws::{
    block_does, block_lands, bodies_do, bodies_end, both_do, both_land, break_does, case_does,
    case_lands, continue_does, default_does, default_lands, do_does, do_lands, effects_join,
    empty_does, eval_does, for_does, for_lands, goto_does, if_does, if_lands, label_does,
    label_lands, labels_lead, lasts_do, none_do, open_block_does, return_does, return_of_does,
    statements_do, switch_does, switch_lands, values_are_effects, while_does, while_lands,
};
