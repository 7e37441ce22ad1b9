//! Laws of the codes that the tool makes and of their images, each the contract of a function that does nothing.
#![tactic(auto)]

mod laws;

pub use laws::{
    made_codes_are_sound, made_images_follow, printed_codes_are_sound, printed_codes_read_back,
};
