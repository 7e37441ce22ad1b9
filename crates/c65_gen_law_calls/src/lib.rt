//! Laws of calls: each line that calls a function is that of a typed call, and passes what the function takes.
#![tactic(auto)]

mod laws;

pub use laws::{
    expressions_call_in_order, lines_are_of_calls, programs_are_compiled, prototypes_agree,
    travels_keep_heights,
};
