//! The lines that load a number or a pointer do the step that fetches it.
#![tactic(auto)]

mod laws;

pub use laws::{
    bytes_are_loaded, fetches_are_followed, named_are_loaded, objects_are_loaded,
    targets_are_loaded,
};
