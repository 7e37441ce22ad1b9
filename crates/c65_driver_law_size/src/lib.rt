//! Laws of the sizes of the images that the tool makes, each the contract of a function that does nothing.
#![tactic(auto)]

mod laws;

pub use laws::{made_images_are_within_their_bulk, refused_images_are_within_their_bulk};
