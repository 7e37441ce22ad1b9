//! Laws of expansions that are fed line by line: the expansion is that of all lines, in whichever way they are cut. Each is the
//! contract of a function that does nothing.
#![tactic(auto)]

mod laws;

pub use laws::{
    fed_lines_are_refused, fed_lines_end_refused, fed_lines_expand, lines_are_fed_as_one,
};
