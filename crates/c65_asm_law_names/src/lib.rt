//! Laws of a code with its symbols numbered anew, in the order in which its text names them: the linker can take it, its main
//! function is the one that has lines, nothing is missing of it that the code has, and its lines come to what the code's come to.
#![tactic(auto)]

mod laws;

pub use laws::{
    locals_need_no_body, main_is_numbered, nothing_is_undefined, renumbered_comes,
    renumbered_is_sound,
};
